//! Aliases as calls. Called by the crates that run a station.
ghost use Rattle.std.specs.Prelude.{◌≡◌, ◌*◌, ◌++◌, ◌∷◌, [], true, nat_lt, map, IfSome, IfNone};
ghost use Rattle.std.specs.List.{list_all};
ghost use Rattle.ax_address.specs.Callsign.{IsCallsign};

use ax_address::{Alias, Call, read_net_call};

/// An alias as a call without SSID, where it is one: letters and digits, with nothing but spaces behind them.
pub fn call_of_alias(alias: &Alias) -> Option<Call>
    ensures found { IfSome result (λ call. call ≡ record { letters = alias.now; ssid = 0 }) }
    ensures none { IfNone result (¬ IsCallsign alias.now 0) }
{
    let letters = alias.bytes();
    if !are_ascii(&letters) {
        return None;
    }
    match read_net_call(&octets_of(letters)) {
        Ok(call) => Some(call),
        Err(_) => None,
    }
}

fn are_ascii(letters: &[u8]) -> bool
    ensures { result ≡ list_all (λ b. nat_lt b 128) letters.now }
{
    letters.iter().all(|letter| *letter < 128)
}

/// The octets of a call of these characters without SSID (AX.25 2.2, section 3.12).
fn octets_of(letters: [u8; 6]) -> [u8; 7]
    requires { list_all (λ b. nat_lt b 128) letters ≡ true }
    ensures { result ≡ map (λ b. 2 * b) letters ++ 0 ∷ [] }
{
    let [a, b, c, d, e, f] = letters;
    [2 * a, 2 * b, 2 * c, 2 * d, 2 * e, 2 * f, 0]
}

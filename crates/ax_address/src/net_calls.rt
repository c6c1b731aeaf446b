//! Calls as broadcasts and datagrams spell them (NET/ROM, Appendix B). Called by `nodes_broadcast`, `l3_datagram` and crates above.
ghost use Rattle.std.specs.Prelude.{◌≡◌, ◌<◌, IfOk, IfErr, Ok};
ghost use Rattle.ax_address.specs.Callsign.{Callsign};
ghost use Rattle.ax_address.specs.Octets as octet;

use crate::octets::address_fault;
use crate::{AddressRefusal, Call};

/// The call that seven octets of a broadcast or datagram spell (NET/ROM, Appendix B), or the first octet that
/// can't stand there. Of the last octet bits 4 to 1 alone are looked at.
#[inline(always)]
pub fn read_net_call(octets: &[u8; 7]) -> Result<Call, AddressRefusal>
    ensures exact { result ≡ octet.net_call_at octets.now }

    // What is read is spelled so.
    ensures found { IfOk result (λ call. octet.SpellsNetCall call octets.now) }

    // What is spelled so is read.
    ensures only { (call : Callsign) → octet.SpellsNetCall call octets.now → result ≡ Ok call }
    ensures place { IfErr result (λ refusal. octet.refused_octet refusal < 6) }
{
    match address_fault(octets) {
        Some(refusal) => Err(refusal),
        None => Ok(call_in(octets)),
    }
}

fn call_in(octets: &[u8; 7]) -> Call
    requires { octet.address_fault octets.now ≡ None }
    ensures value { result ≡ octet.net_call_in octets.now }
    ensures spelled { octet.SpellsNetCall result octets.now }
{
    let [a, b, c, d, e, f, last] = *octets;
    let letters = [a >> 1, b >> 1, c >> 1, d >> 1, e >> 1, f >> 1];
    Call::from_letters(letters, (last >> 1) % 16)
}

/// The seven octets of a call in a broadcast or datagram (NET/ROM, Appendix B). Bits 6 and 5 of the last one are 1,
/// and bits 7 and 0 are 0.
pub fn write_net_call(call: &Call) -> [u8; 7]
    ensures exact { result ≡ octet.net_call_octets call.now }
    ensures spelled { octet.SpellsNetCall call.now result }
{
    let [a, b, c, d, e, f] = call.letters();
    [
        2 * a,
        2 * b,
        2 * c,
        2 * d,
        2 * e,
        2 * f,
        96 + 2 * call.ssid(),
    ]
}

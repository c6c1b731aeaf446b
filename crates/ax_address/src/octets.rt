//! Addresses as frames spell them (AX.25 2.2, section 3.12). Called by `net_calls`, and by `ax_frame`, `circuit_l4` and
//! the crates above that write frames.
ghost use Rattle.std.specs.Prelude.{◌≡◌, ◌<◌, ◌≤◌, ◌/◌, ◌*◌, take, drop, map, length, IfOk, IfErr, IfSome, Ok, None, Bool};
ghost use Rattle.std.specs.List.{prefix_len};
ghost use Rattle.std.specs.Result.{result_err};
ghost use Rattle.ax_address.specs.Callsign.{IsCall};
ghost use Rattle.ax_address.specs.Octets as octet;
ghost use Rattle.ax_address.specs.declared.address.Address.{Address};

use crate::address_refusal::AddressRefusal;
use crate::{Address, Call};

/// The address of a call with this C or H bit, as it is written: both reserved bits are 1.
pub fn address_of(call: Call, bit7: bool) -> Address
    ensures value { result ≡ octet.address_of call bit7 }
    ensures call { IsCall call }
{
    Address {
        call,
        bit7,
        reserved: 3,
    }
}

/// The first octet that can't stand at its place, of the six for characters, or of fewer where some of
/// the six are missing.
#[tactic(auto, using(std::proofs::lemmas::List::take_min))]
pub fn address_fault(octets: &[u8]) -> Option<AddressRefusal>
    ensures exact { result ≡ octet.address_fault octets.now }
    ensures place { IfSome result (λ refusal. octet.refused_octet refusal < 6) }
{
    fault_in(&octets[..octets.len().min(6)])
}

fn fault_in(octets: &[u8]) -> Option<AddressRefusal>
    ensures exact { result ≡ octet.fault_in octets.now }
    ensures place { IfSome result (λ refusal. octet.refused_octet refusal < length octets.now) }
{
    let at = good_octets(octets);
    match octets.get(at) {
        None => None,
        Some(o) if is_char_octet(*o) => Some(AddressRefusal::BadPadding { at }),
        Some(_) => Some(AddressRefusal::BadChar { at }),
    }
}

/// How many octets can begin a call.
fn good_octets(octets: &[u8]) -> usize
    ensures { result ≡ octet.good_octets octets.now }
{
    let name = char_octets(octets);
    if name == 0 {
        return 0;
    }
    name + space_octets(&octets[name..])
}

/// How many octets at the front are characters.
fn char_octets(octets: &[u8]) -> usize
    ensures value { result ≡ prefix_len octet.is_char_octet octets.now }
    ensures bound { result ≤ length octets.now }
{
    octets.iter().take_while(|o| is_char_octet(**o)).count()
}

/// How many octets at the front are spaces.
fn space_octets(octets: &[u8]) -> usize
    ensures value { result ≡ prefix_len octet.is_space_octet octets.now }
    ensures bound { result ≤ length octets.now }
{
    octets.iter().take_while(|o| **o == b' ' << 1).count()
}

/// The character that each octet is, shifted left by one, and a point where it is none that a call has.
const CHARS: &[u8; 256] = b"\
    ................................................................\
    ................................0.1.2.3.4.5.6.7.8.9.............\
    ..A.B.C.D.E.F.G.H.I.J.K.L.M.N.O.P.Q.R.S.T.U.V.W.X.Y.Z...........\
    ................................................................";

fn is_char_octet(o: u8) -> bool
    ensures { result ≡ octet.is_char_octet o }
{
    CHARS[o as usize] != b'.'
}

/// The address that seven octets spell, and its extension bit, or the first octet that can't stand there.
#[inline(always)]
pub fn read_address(octets: &[u8; 7]) -> Result<(Address, bool), AddressRefusal>
    // What is read is spelled so.
    ensures found { IfOk result (λ x. octet.SpellsAddress x.0 x.1 octets.now) }

    // What is spelled so is read.
    ensures only { (a : Address) (last : Bool) → octet.SpellsAddress a last octets.now → result ≡ Ok (a, last) }

    // It is refused exactly where an octet is at fault.
    ensures refused { result_err result ≡ octet.address_fault octets.now }
    ensures place { IfErr result (λ refusal. octet.refused_octet refusal < 6) }
{
    match address_fault(octets) {
        Some(refusal) => Err(refusal),
        None => Ok(address_in(octets)),
    }
}

fn address_in(octets: &[u8; 7]) -> (Address, bool)
    requires { octet.address_fault octets.now ≡ None }
    ensures { octet.SpellsAddress result.0 result.1 octets.now }
{
    let [a, b, c, d, e, f, last] = *octets;
    let letters = [a >> 1, b >> 1, c >> 1, d >> 1, e >> 1, f >> 1];
    let address = Address {
        call: Call::from_letters(letters, (last >> 1) % 16),
        bit7: last >= 128,
        reserved: (last >> 5) % 4,
    };
    (address, last % 2 == 1)
}

/// The seven octets of an address; the extension bit is set where it is the last one of its frame.
pub fn write_address(address: &Address, last: bool) -> [u8; 7]
    ensures { octet.SpellsAddress address.now last result }
{
    let [a, b, c, d, e, f] = address.call.letters();
    let bit7 = if address.bit7 { 128 } else { 0 };
    let extension = if last { 1 } else { 0 };
    let ssid = bit7 + 32 * address.reserved + 2 * address.call.ssid() + extension;
    [2 * a, 2 * b, 2 * c, 2 * d, 2 * e, 2 * f, ssid]
}

//! Messages about mail are read. Own profile. Called by `store`.
ghost use Rattle.std.specs.Prelude.{◌≡◌, ◌≤◌, ◌∷◌, [], length, take, drop, IfSome};
ghost use Rattle.std.specs.Int.{w64, from_be_bytes};
ghost use Rattle.std.specs.Option.{option_map};
ghost use Rattle.ax_address.specs.Octets.{SpellsNetCall, net_call_at};
ghost use Rattle.node_mail.specs.Wires as wires;
ghost use Rattle.node_mail.specs.Heads.{wire_of, call_or_none, IsReceipt, IsSized};

use crate::mail::MAX_MAIL;
use crate::wire_head::WireHead;
use ax_address::{Call, read_net_call};
use radio_base::COUNT_MAX;

/// The message that the octets are.
#[tactic(auto, unfolding(crate::specs::Wires::wire_at))]
pub(crate) fn read_wire(octets: &[u8]) -> Option<WireHead>
    ensures exact { option_map (wire_of (drop 16 octets.now)) result ≡ wires.wire_at octets.now }
    ensures spelled { IfSome result (λ head. wires.Spells (wire_of (drop 16 octets.now) head) octets.now) }
    ensures size { IfSome result (IsSized octets.now) }
{
    match octets {
        [0x4D, rest @ ..] => mail_in(rest),
        [0x41, rest @ ..] => receipt_in(rest),
        _ => None,
    }
}

/// The mail in what stands behind the tag.
fn mail_in(rest: &[u8]) -> Option<WireHead>
    ensures exact { option_map (wire_of (drop 15 rest.now)) result ≡ wires.mail_at rest.now }
    ensures spelled { IfSome result (λ head. wires.Spells (wire_of (drop 15 rest.now) head) (0x4D ∷ rest.now)) }
    ensures size { IfSome result (λ _. (15 ≤ length rest.now) × (length rest.now ≤ 1039)) }
{
    if rest.len() < 16 || rest.len() > 15 + MAX_MAIL {
        return None;
    }
    let number = number_in(&rest[..8]);
    if !is_number(number) {
        return None;
    }
    match call_in(&rest[8..15]) {
        Some(to) => Some(WireHead::Carries { number, to }),
        None => None,
    }
}

/// The receipt in what stands behind the tag.
fn receipt_in(rest: &[u8]) -> Option<WireHead>
    ensures exact { option_map (wire_of (drop 15 rest.now)) result ≡ wires.receipt_at rest.now }
    ensures spelled { IfSome result (λ head. wires.Spells (wire_of (drop 15 rest.now) head) (0x41 ∷ rest.now)) }
    ensures kind { IfSome result IsReceipt }
{
    if rest.len() != 8 {
        return None;
    }
    let number = number_in(rest);
    if is_number(number) {
        Some(WireHead::Receipt { number })
    } else {
        None
    }
}

fn is_number(number: u64) -> bool
    ensures { result ≡ wires.is_number number }
{
    number >= 1 && number <= COUNT_MAX
}

/// The number of eight octets, the highest first.
fn number_in(octets: &[u8]) -> u64
    requires { length octets.now ≡ 8 }
    ensures { result ≡ from_be_bytes w64 octets.now }
{
    let mut eight = [0; 8];
    eight.copy_from_slice(octets);
    u64::from_be_bytes(eight)
}

/// The call of seven octets.
fn call_in(octets: &[u8]) -> Option<Call>
    requires { length octets.now ≡ 7 }
    ensures exact { result ≡ call_or_none (net_call_at octets.now) }
    ensures spelled { IfSome result (λ call. SpellsNetCall call octets.now) }
{
    let mut seven = [0; 7];
    seven.copy_from_slice(octets);
    read_net_call(&seven).ok()
}

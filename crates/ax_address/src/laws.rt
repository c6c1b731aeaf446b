//! Laws of the definitions of calls and addresses alone. Called by the laws of the crates above.

ghost use Rattle.std.specs.Prelude.{◌≡◌};
ghost use Rattle.ax_address.specs.Callsign.{call_cmp, ReadsCallTexts};
ghost use Rattle.ax_address.specs.Octets.{SpelledNetCallIsRead, WrittenNetCallSpellsIt, NetCallWrittenAgainIsTheSame, SpelledWithoutFault, SpelledOnce, SpelledIsHeld, FaultIsFirst, FrontGoesOn};

use crate::{Call, MAX_ENTRIES, MAX_REPEATERS};
use std::cmp::Ordering;

/// A text is read as a call exactly where it is what the call is shown as, or that with the suffix `-0`
/// at a call of SSID 0.
pub fn call_texts()
    ensures { ReadsCallTexts }
{}

/// Calls compare by their six characters, padded with spaces, and then by their SSIDs.
pub fn call_order(a: &Call, b: &Call) -> Ordering
    ensures { result ≡ call_cmp a.now b.now }
{
    a.cmp(b)
}

/// Octets that spell an address have no fault, hold it, and spell no other address: so they are read as it.
pub fn address_spelling()
    ensures without_fault { SpelledWithoutFault }
    ensures held { SpelledIsHeld }
    ensures once { SpelledOnce }
{}

/// The first fault of an address's octets is at the first octet that no call has at its place.
pub fn address_faults()
    ensures first { FaultIsFirst }
    ensures front { FrontGoesOn }
{}

/// Octets that spell a call in a broadcast or datagram are read as it, and so spell no other; what is written for a call
/// spells it; and octets that are read and written again are the same, but for bits 7, 6, 5 and 0 of the last one.
pub fn net_call_spelling()
    ensures read { SpelledNetCallIsRead }
    ensures written { WrittenNetCallSpellsIt }
    ensures again { NetCallWrittenAgainIsTheSame }
{}

/// The most repeaters of a path, and the most entries of a broadcast.
pub fn numbers()
    ensures repeaters { MAX_REPEATERS ≡ 8 }
    ensures entries { MAX_ENTRIES ≡ 11 }
{}

//! Laws of the definitions of transports and of an end alone. Called by `read` and `write`, and by the laws of `circuit_set`.
ghost use Rattle.std.specs.Prelude.{◌≡◌};
ghost use Rattle.circuit_l4.specs.Faults.{FaultIsFirst};
ghost use Rattle.circuit_l4.specs.Laws as end_law;
ghost use Rattle.circuit_l4.specs.Standing.{KeepsItsShare};
ghost use Rattle.circuit_l4.specs.Spelling as law;

use crate::{BUSY_AT, MAX_TEXT, MAX_TRANSPORT, QUEUE_MAX};

/// Octets that spell a transport are read as it, and so spell no other; what is written for a transport spells it, and is
/// read as it; and octets that are read and written again are the same but for what is ignored.
pub fn transport_spelling()
    ensures read { law.SpelledTransportIsRead }
    ensures written { law.WrittenTransportSpellsIt }
    ensures read_back { law.WrittenTransportIsRead }
    ensures same { law.WrittenAgainIsTheSame }
{
    ax_address::laws::net_call_spelling();
}

/// The octet that a refusal names is the first that no transport has at its place, or one that must follow, or no transport
/// has so many octets.
pub fn transport_faults()
    ensures { FaultIsFirst }
{
    ax_address::laws::address_faults();
}

/// Whatever an end is given: it fails for want of an answer exactly where there was one expiry more than there are retries,
/// counted over its inputs since it was made, since more was acknowledged, or since it began to close; a step by which it
/// fails puts out nothing; and it puts out a disconnect request only once all that was ever written is acknowledged.
pub fn endings()
    ensures retries { end_law.FailsAfterRetries }
    ensures silent { end_law.FailingPutsOutNothing }
    ensures acknowledged { end_law.DisconnectsWhenAcknowledged }
{}

/// What an end has written grows by the writes that it accepts, and by nothing else.
pub fn wrote_by_writes()
    ensures { end_law.WroteByWrites }
{}

/// An end keeps at most its share: 90,347 octets, and 236 for each fragment of its window. Transports that wait to be fetched aren't counted.
pub fn kept()
    ensures { KeepsItsShare }
{}

/// The most octets of a transport and bytes of its text, and the bytes of messages that an end holds and at which it is busy.
pub fn numbers()
    ensures transport { MAX_TRANSPORT ≡ 241 }
    ensures text { MAX_TEXT ≡ 236 }
    ensures queue { QUEUE_MAX ≡ 65536 }
    ensures busy { BUSY_AT ≡ 16384 }
{}

//! Laws of the definitions of broadcasts alone. Called by `read` and `write`.

ghost use Rattle.nodes_broadcast.specs.Faults.{FaultIsFirst};
ghost use Rattle.nodes_broadcast.specs.Laws as law;

/// Octets that spell a broadcast are read as it, and so spell no other; what is written for a broadcast spells it, and
/// is read as it; and octets that are read and written again are the same but for the bits that say nothing.
pub fn nodes_spelling()
    ensures read { law.SpelledIsRead }
    ensures written { law.WrittenSpellsIt }
    ensures read_back { law.WrittenIsRead }
    ensures same { law.WrittenAgainIsTheSame }
{
    ax_address::laws::net_call_spelling();
}

/// The octet that a refusal names is the first that no broadcast has at its place, or no broadcast has so many octets.
pub fn nodes_faults()
    ensures { FaultIsFirst }
{
    ax_address::laws::address_faults();
}

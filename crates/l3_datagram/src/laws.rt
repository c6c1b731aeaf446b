//! Laws of the definitions of datagrams and of a router's step alone. Called by the circuits' `pump`, and by the laws of `node_core`.
ghost use Rattle.l3_datagram.specs.Datagrams.{SpelledDatagramIsRead, WrittenAgainIsTheSame, WrittenDatagramSpellsIt};
ghost use Rattle.l3_datagram.specs.Faults.{FaultIsFirst};
ghost use Rattle.l3_datagram.specs.Onward.{GoesOneHopOn};
ghost use Rattle.l3_datagram.specs.Network.{WaitingWasOffered};

/// Octets that spell a datagram are read as its head, and what follows the head is its transport; so they spell no other
/// one. What is written for a head and a transport spells the datagram with them, and so is read as this head. And octets
/// that are read and written again are the same but for what is ignored.
pub fn datagram_spelling()
    ensures read { SpelledDatagramIsRead }
    ensures written { WrittenDatagramSpellsIt }
    ensures same { WrittenAgainIsTheSame }
{
    ax_address::laws::net_call_spelling();
}

/// The octet that a refusal names is the first that no datagram has at its place, or no datagram has so many octets.
pub fn datagram_faults()
    ensures { FaultIsFirst }
{
    ax_address::laws::address_faults();
}

/// A datagram that goes on to a neighbour has every octet of the one that came but its time to live, which is one less.
pub fn one_hop_on()
    ensures { GoesOneHopOn }
{}

/// In a network of nodes over carriers in memory, each pair that waits at a node was offered to this node by that neighbour
/// before, where each datagram that is brought was fetched at that neighbour for this node.
pub fn waiting_was_offered()
    ensures { WaitingWasOffered }
{}

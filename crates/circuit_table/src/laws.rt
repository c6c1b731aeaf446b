//! What a set keeps, and why its telling ends: on these two a node's own bound and its turns rest. The other laws stand in `circuit_set`.
//! Called by the laws of `circuit_set` and `node_core`.
ghost use Rattle.circuit_table.specs.Kept.{KeepsItsShare, WindowsAreSmall};
ghost use Rattle.circuit_table.specs.Pumps.{TellsLess};

/// The ends that a set holds keep at most 90,347 octets each, and 236 for each fragment of their windows, of which each is at most 127. What
/// waits to be told isn't counted.
pub fn kept()
    ensures share { KeepsItsShare }
    ensures windows { WindowsAreSmall }
{}

/// What a set has to tell falls with each thing that it tells, whatever the carrier answers.
pub fn telling_ends()
    ensures { TellsLess }
{}

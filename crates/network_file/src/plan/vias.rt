//! The repeaters over which nodes reach others. Called by most files here, and by `node_settings`, the replay and `trace_lines`.
ghost use Rattle.std.specs.Prelude.{◌≡◌};
ghost use Rattle.network_file.specs.Plan as vias;

use crate::limits::MAX_VIA_REPEATERS;
use arrayvec::ArrayVec;
use ax_address::Call;

/// A node reaches a peer over one or two repeaters.
///
/// The default has none: what an unused place of a buffer holds.
#[derive(Debug, Default, Drop)]
pub struct Via {
    /// From 1 to 16.
    pub node: u8,
    pub peer: Call,
    /// In the order in which they repeat a frame to the peer.
    pub repeaters: ArrayVec<Call, MAX_VIA_REPEATERS>,
}

/// The node reaches the peer over repeaters.
pub fn has_via(list: &[Via], node: u8, peer: &Call) -> bool
    ensures { result ≡ vias.has_via list.now node peer.now }
{
    list.iter().any(|via| via.node == node && via.peer == *peer)
}

/// How many peers the node reaches over repeaters.
pub fn via_count(list: &[Via], node: u8) -> usize
    ensures { result ≡ vias.via_count list.now node }
{
    list.iter().filter(|via| via.node == node).count()
}

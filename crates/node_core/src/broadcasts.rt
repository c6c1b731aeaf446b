//! Broadcasts as frames (NET/ROM, Appendix B). Called by `receiving` and `rounds`, by `net_world` and by `station_members`.
ghost use Rattle.std.specs.Prelude.{◌≡◌, ◌≤◌, ◌*◌, length};
ghost use Rattle.ax_address.specs.Callsign.{same_call};
ghost use Rattle.ax_frame.specs.Frames.{view as frame_of};
ghost use Rattle.nodes_broadcast.specs.Nodes.{view};
ghost use Rattle.node_core.specs.Broadcasts as broadcasts;

use ax_address::{Alias, Call, Entry, MAX_ENTRIES, Path, address_of};
use ax_frame::{Control, FrameBytes, FrameView, Head, write_frame};
use nodes_broadcast::{Nodes, nodes_call, push_nodes};
use radio_base::{M8, NETROM_PID};

/// A frame goes to all nodes, as a broadcast does.
pub(crate) fn is_to_nodes(head: &Head) -> bool
    ensures { result ≡ same_call head.now.dest.call broadcasts.nodes_call }
{
    head.dest.call == nodes_call()
}

/// A frame is a broadcast: UI to NODES with the PID of NET/ROM.
pub(crate) fn is_broadcast(frame: &FrameView<'_>) -> bool
    ensures { result ≡ broadcasts.is_broadcast (frame_of frame.now) }
{
    match frame.control {
        Control::Ui { .. } => frame.pid == Some(NETROM_PID) && is_to_nodes(&frame.head),
        _ => false,
    }
}

/// A broadcast in octets: a UI command to NODES without repeaters.
pub fn broadcast_frame(call: &Call, broadcast: &Nodes) -> FrameBytes
    ensures { result.items ≡ broadcasts.broadcast_octets call.now (view broadcast.now) }
{
    let mut octets = FrameBytes::new();
    write_broadcast(
        call,
        &broadcast.alias,
        broadcast.entries.as_slice(),
        &mut octets,
    );
    octets
}

/// Replaces `out` by the same octets, of the broadcast with this alias and these entries.
pub(crate) fn write_broadcast(call: &Call, alias: &Alias, entries: &[Entry], out: &mut FrameBytes)
    requires { length entries.now ≤ 11 }
    ensures { out.new.items
        ≡ broadcasts.broadcast_octets call.now (record { alias = alias.now; entries = entries.now }) }
{
    let head = Head {
        dest: address_of(nodes_call(), true),
        source: address_of(*call, false),
        path: Path::new(),
    };
    // Its information goes straight behind what stands before it.
    let _ = write_frame::<M8>(
        &head,
        &Control::Ui { pf: false },
        Some(NETROM_PID),
        &[],
        out,
    );
    push_nodes(alias, entries, out);
}

/// How many frames these entries need: eleven entries a frame, and at least one frame.
pub(crate) fn frame_count(entries: &[Entry]) -> usize
    ensures { result ≡ broadcasts.frame_count entries.now }
{
    match entries {
        [] => 1,
        [_, others @ ..] => 1 + others.len() / MAX_ENTRIES,
    }
}

/// The entries of a frame, by its number from 0.
pub(crate) fn entries_of_frame(entries: &[Entry], nth: usize) -> &[Entry]
    requires { 11 * nth ≤ length entries.now }
    ensures value { result.now ≡ broadcasts.entries_of_frame entries.now nth }
    ensures few { length result.now ≤ 11 }
{
    let start = MAX_ENTRIES * nth;
    let count = (entries.len() - start).min(MAX_ENTRIES);
    &entries[start..start + count]
}

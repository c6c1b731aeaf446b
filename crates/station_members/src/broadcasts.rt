//! What fellows are told of a member's broadcast. Called by the desk.
ghost use Rattle.std.specs.Prelude.{◌≡◌, IfOk, not};
ghost use Rattle.std.specs.Option.{option_map};
ghost use Rattle.ax_frame.specs.Frames.{view as frame_of};
ghost use Rattle.nodes_broadcast.specs.Nodes.{view};
ghost use Rattle.station_members.specs.Telling as telling;

use crate::seat::{Seat, place_of};
use ax_address::{Call, Entry};
use ax_frame::{Control, FrameView, read_frame};
use node_core::broadcast_frame;
use nodes_broadcast::{Nodes, read_nodes};
use radio_base::{M8, NETROM_PID, NoMemory};
use station_ports::FrameOctets;
use std::alloc::Global;

/// A broadcast without the entries whose best neighbour is a member. None where the octets are none.
pub(crate) fn told_to_fellows(
    alloc: Global,
    seats: &[Seat],
    octets: &[u8],
) -> Result<Option<FrameOctets>, NoMemory>
    ensures { IfOk result (λ told. told ≡ telling.told_to_fellows seats.now octets.now) }
{
    match read_frame::<M8>(octets) {
        Ok(frame) => told_of(alloc, seats, &frame),
        Err(_) => Ok(None),
    }
}

fn told_of(
    alloc: Global,
    seats: &[Seat],
    frame: &FrameView<'_>,
) -> Result<Option<FrameOctets>, NoMemory>
    ensures { IfOk result (λ told. told ≡ telling.told_of seats.now (frame_of frame.now)) }
{
    if !is_broadcast(frame) {
        return Ok(None);
    }
    match read_nodes(frame.info) {
        Ok(mut nodes) => {
            leave_out(seats, &mut nodes);
            let octets = broadcast_frame(&frame.head.source.call, &nodes);
            Ok(Some(FrameOctets::from_slice(alloc, octets.as_slice())?))
        }
        Err(_) => Ok(None),
    }
}

/// Leaves out the entries whose best neighbour is a member.
fn leave_out(seats: &[Seat], nodes: &mut Nodes)
    ensures { view nodes.new ≡ telling.without_members seats.now (view nodes.old) }
{
    nodes.entries.retain(|entry| !is_of_member(seats, entry));
}

fn is_of_member(seats: &[Seat], entry: &Entry) -> bool
    ensures { result ≡ telling.is_of_member seats.now entry.now }
{
    place_of(seats, &entry.best).is_some()
}

/// A UI to NODES with the PID of NET/ROM, without repeaters (NET/ROM, Appendix B).
fn is_broadcast(frame: &FrameView<'_>) -> bool
    ensures { result ≡ telling.is_broadcast (frame_of frame.now) }
{
    is_ui(&frame.control)
        && frame.pid == Some(NETROM_PID)
        && frame.head.path.is_empty()
        && frame.head.dest.call == nodes_call()
}

fn is_ui(control: &Control) -> bool
    ensures { result ≡ telling.is_ui control.now }
{
    matches!(control, Control::Ui { .. })
}

fn nodes_call() -> Call
    ensures { result ≡ telling.nodes_call }
{
    Call::from_letters(*b"NODES ", 0)
}

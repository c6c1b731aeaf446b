//! What a frame carries, by its PID (AX.25 2.2, section 3.4). Called by `listener`.
ghost use Rattle.std.specs.Prelude.{◌≡◌, ◌++◌, OnOk, IfOk, string_bytes};
ghost use Rattle.ax_address.specs.Callsign.{same_call};
ghost use Rattle.ax_frame.specs.Frames.{view};
ghost use Rattle.frame_lines.specs.Contents as lines;

use crate::datagrams::write_datagram_text;
use crate::nodes::write_nodes_text;
use crate::packets::{write_arp_text, write_packet_text};
use crate::texts::write_text;
use ax_frame::{Control, FrameView, Head};
use nodes_broadcast::nodes_call;
use radio_base::{NoMemory, TextOut};
use std::alloc::{AllocError, Global};

/// Adds the lines of what the frame carries.
pub(crate) fn write_contents(
    alloc: Global,
    frame: &FrameView<'_>,
    out: &mut TextOut,
) -> Result<(), NoMemory>
    ensures { OnOk result (out.new ≡ out.old ++ lines.contents (view frame.now)) }
{
    match frame.pid {
        Some(0xCF) => write_net_rom(alloc, frame, out),
        Some(0xF0) => write_text(alloc, frame.info, out),
        Some(0xCC) => write_packet_text(alloc, frame.info, out),
        Some(0xCD) => write_arp_text(alloc, frame.info, out),
        Some(0x08) => write_segment(alloc, frame.info, out),
        _ => Ok(()),
    }
}

fn write_net_rom(alloc: Global, frame: &FrameView<'_>, out: &mut TextOut) -> Result<(), NoMemory>
    ensures { OnOk result (out.new ≡ out.old ++ lines.net_rom_text (view frame.now)) }
{
    if is_nodes(frame) {
        write_nodes_text(alloc, frame.info, out)
    } else {
        write_datagram_text(alloc, frame.info, out)
    }
}

/// A broadcast of routes is a UI frame to NODES.
fn is_nodes(frame: &FrameView<'_>) -> bool
    ensures { result ≡ lines.is_nodes (view frame.now) }
{
    match frame.control {
        Control::Ui { .. } => is_to_nodes(&frame.head),
        _ => false,
    }
}

fn is_to_nodes(head: &Head) -> bool
    ensures { result ≡ same_call head.now.dest.call lines.nodes_call }
{
    head.dest.call == nodes_call()
}

fn write_segment(alloc: Global, info: &[u8], out: &mut TextOut) -> Result<(), NoMemory>
    ensures { OnOk result (out.new ≡ out.old ++ lines.segment_text info.now) }
{
    match info {
        [] => out.text("  bad segment short\n"),
        [head, rest @ ..] => {
            let line = segment_line(alloc, *head, rest.len())?;
            out.text(line.as_str())?;
            Ok(())
        }
    }
}

/// `segment first more=N len=L`: bits 6 to 0 of the first octet count the segments still to come, and bit 7 tells the first.
fn segment_line(alloc: Global, head: u8, len: usize) -> Result<String, AllocError>
    ensures { IfOk result (λ s. string_bytes s ≡ lines.segment_line head len) }
{
    let first = first_text(head);
    let more = head % 128;
    format!(in alloc; "  segment {first}more={more} len={len}\n")
}

fn first_text(head: u8) -> &'static str
    ensures { result.now ≡ lines.first_text head }
{
    if head >= 128 { "first " } else { "" }
}

//! The command `ip`. Called by `node_cmd`.
ghost use Rattle.std.specs.Prelude.{◌≡◌};
ghost use Rattle.cmd_streams.specs.Told.{SaysTo, told_by};
ghost use Rattle.cmd_streams.specs.StatusNotes.{HasNote, IsSilent};
ghost use Rattle.tool_cmd.specs.Run.{IpEnds};
ghost use Rattle.tool_cmd.specs.Standing.{state_of};

pub mod gateway;
pub mod texts;
pub mod words;

use cmd_streams::{Status, answer_items};
use gateway::Gateway;
use radio_base::{Sink, Source};
use std::alloc::Global;

/// The most bytes that are read at a time.
const READ_SIZE: usize = 4_096;

/// Forwards the packets of a KISS stream, read from the source to its end: what is sent for each read is written before the next read.
///
/// The status says how it ended, and where the input was refused the notes say why.
pub fn ip_over_stream<S: Source, K: Sink, N: Sink>(
    alloc: Global,
    gateway: Gateway,
    source: &mut S,
    sink: &mut K,
    notes: &mut N,
) -> Status
    // How it ends: the frames written are those that the gateway sends, and each status has its reason.
    ensures ends { IpEnds (state_of gateway)
        (told_by S.Source K.Sink N.Sink source.old sink.old notes.old)
        (told_by S.Source K.Sink N.Sink source.new sink.new notes.new) result }

    // Nothing else is noted.
    ensures noted { HasNote result (SaysTo N.Sink notes.old notes.new) }
    ensures silent { IsSilent result → notes.new ≡ notes.old }
{
    let mut buf = [0u8; READ_SIZE];
    answer_items(alloc, &mut buf, gateway, source, sink, notes)
}

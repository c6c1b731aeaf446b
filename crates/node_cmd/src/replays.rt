//! The command `replay`. Called by `top`.
ghost use Rattle.std.specs.Prelude.{◌≡◌, ◌≢◌};
ghost use Rattle.cmd_streams.specs.Told.{SaysTo, told_by, UnlessItWrote};
ghost use Rattle.cmd_streams.specs.StatusNotes.{HasNote, IsSilent};
ghost use Rattle.node_cmd.specs.Run.{ReplayEnds};
ghost use Rattle.node_cmd.specs.declared.ran.Ran.TheVariants as rans;

use crate::outcomes::{Printed, print_network};
use crate::ran::Ran;
use cmd_streams::{Status, read_file, refuse_input};
use radio_base::{Sink, Source};
use std::alloc::Global;

/// Reads a network file from the source to its end, writes the report of that network to the sink, and leaves what ran.
///
/// The status says how it ended, and where the input or a line was refused the notes say why.
pub(crate) fn replay_file<S: Source, K: Sink, N: Sink>(
    alloc: Global,
    source: &mut S,
    sink: &mut K,
    notes: &mut N,
    ran: &mut Ran,
) -> Status
    requires { ran.old ≡ rans.Nothing }

    // How it ends: the report is that of the file, and each status has its reason.
    ensures ends { ReplayEnds
        (told_by S.Source K.Sink N.Sink source.old sink.old notes.old)
        (told_by S.Source K.Sink N.Sink source.new sink.new notes.new)
        ran.new result }

    // What isn't said above to be written or left isn't, and nothing else is noted.
    ensures unwritten { UnlessItWrote result (sink.new ≡ sink.old) }
    ensures nothing { result ≢ Status.Done → result ≢ Status.TooLate → ran.new ≡ ran.old }
    ensures noted { HasNote result (SaysTo N.Sink notes.old notes.new) }
    ensures silent { IsSilent result → notes.new ≡ notes.old }
{
    match read_file(alloc, source) {
        Ok(bytes) => print_network(alloc, &bytes, Printed::Report, sink, notes, ran),
        Err(why) => refuse_input(why, notes),
    }
}

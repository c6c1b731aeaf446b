//! The command `check`: what a station of a file would run. Called by the top call.
ghost use Rattle.std.specs.Prelude.{◌≡◌};
ghost use Rattle.cmd_streams.specs.StatusNotes.{IsSilent};
ghost use Rattle.cmd_streams.specs.Told.{SaysTo, UnlessItWrote, output_by};
ghost use Rattle.station_cmd.specs.Checking.{ChecksFile};

use crate::files::{name_in, read_bytes};
use cmd_streams::Status;
use radio_base::Sink;
use station_check::check_file;
use std::rt::Files;

/// Tells what a station of a file would run, or notes why it is refused.
pub fn check<R: Files + AllocGlobal, K: Sink, N: Sink>(
    rt: &R,
    path: &str,
    sink: &mut K,
    notes: &mut N,
) -> Status
    // Either the bytes of the file were read, and it ends as `check` of these ends; or they weren't, and nothing is written.
    ensures ends { ChecksFile path.now
        (output_by K.Sink N.Sink sink.old notes.old)
        (output_by K.Sink N.Sink sink.new notes.new)
        (SaysTo N.Sink notes.old notes.new) result }

    // What isn't said above to be written isn't, and nothing else is noted.
    ensures unwritten { UnlessItWrote result (sink.new ≡ sink.old) }
    ensures silent { IsSilent result → notes.new ≡ notes.old }
{
    match read_bytes(rt, path, notes) {
        Ok(bytes) => check_file(rt.alloc(), name_in(path), &bytes, sink, notes),
        Err(status) => status,
    }
}

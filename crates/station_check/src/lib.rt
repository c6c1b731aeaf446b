//! The command `check` of a station: what a station of a file runs is told, or why the file is refused.
//!
//! Who runs the command reads the file, and hands on its bytes and its name without its folders.
#![tactic(auto)]

ghost use Rattle.std.specs.Prelude.{◌≡◌, ◌≢◌, ℕ, List};
ghost use Rattle.cmd_streams.specs.StatusNotes.{IsSilent};
ghost use Rattle.cmd_streams.specs.Told.{Comes, SaysTo, UnlessItWrote, output_by};
ghost use Rattle.station_file.specs.Told.{TellsRefusal, check_told};
ghost use Rattle.station_check.specs.Check.{CheckEnds, TellsEnd};

use cmd_streams::{Status, say, write_all};
use radio_base::Sink;
use station_file::{Refusal, StationFile, check_text, read_station, refusal_text};
use std::alloc::Global;

/// Writes what a station of this file runs, or notes under the name of the file why it is refused. The status says which.
pub fn check_file<K: Sink, N: Sink>(
    alloc: Global,
    name: &str,
    bytes: &[u8],
    sink: &mut K,
    notes: &mut N,
) -> Status
    // How it ends: what was written is what the file's station runs, what was noted the file's refusal.
    ensures ends { CheckEnds name.now bytes.now
        (output_by K.Sink N.Sink sink.old notes.old)
        (output_by K.Sink N.Sink sink.new notes.new) result }

    // What isn't said above to be written isn't, and nothing else is noted.
    ensures unwritten { UnlessItWrote result (sink.new ≡ sink.old) }
    ensures silent { IsSilent result → notes.new ≡ notes.old }
{
    match read_station(alloc, bytes) {
        Ok(file) => tell_station(alloc, &file, sink),
        Err(refusal) => note_refusal(alloc, name, &refusal, notes),
    }
}

/// Writes what the station runs.
fn tell_station<K: Sink>(alloc: Global, file: &StationFile, sink: &mut K) -> Status
    ensures ends { TellsEnd (check_told file.now) (K.written sink.old) (K.written sink.new)
        (K.faults sink.old) (K.faults sink.new) result }
    ensures unwritten { UnlessItWrote result (sink.new ≡ sink.old) }
{
    match check_text(alloc, file) {
        Ok(text) => match write_all(sink, text.bytes()) {
            Ok(()) => Status::Done,
            Err(_) => Status::WriteFault,
        },
        Err(_) => Status::NoMemory,
    }
}

/// Notes why the file is refused.
fn note_refusal<N: Sink>(alloc: Global, name: &str, refusal: &Refusal, notes: &mut N) -> Status
    ensures noted { result ≡ Status.BadFile
        → (text : List ℕ) × TellsRefusal name.now refusal.now text × SaysTo N.Sink notes.old notes.new text }
    ensures comes { Comes Status.BadFile result }
    ensures silent { result ≢ Status.BadFile → notes.new ≡ notes.old }
{
    match refusal_text(alloc, name, refusal) {
        Ok(text) => {
            say(notes, &text);
            Status::BadFile
        }
        Err(_) => Status::NoMemory,
    }
}

//! The top call. Called by `wursthatch_station`.
ghost use Rattle.std.specs.Prelude.{◌≡◌, ◌↔◌, List, ℕ};
ghost use Rattle.circuit_l4.specs.declared.pair.Pair.{Pair};
ghost use Rattle.cmd_streams.specs.Told.{SaysTo, output_by, told_by};
ghost use Rattle.station_cmd.specs.Checking.{ChecksFile};
ghost use Rattle.station_cmd.specs.Words.{Asked, AskFor, Check, Run, Try};
ghost use Rattle.station_run.specs.Ends.{RunEnds, TryEnds};
ghost use Rattle.station_run.specs.Usage.{usage_note};

use crate::runs::run_file;
use crate::tries::try_files;
use crate::usage::USAGE;
use cmd_streams::{Status, say};
use radio_base::{Clock, Sink, Source};
use station_cmd::{StationCommand, check, command_of};
use std::rt::Files;

/// Does what the words ask for, over these files and streams: `check` tells what a station of a file would run; `run` runs it on a KISS
/// stream, and `try` up to 8 stations in virtual time on lines that are typed.
///
/// The status says how it ended, and where words, files or input were refused the notes say why.
pub fn run<R: Files + AllocGlobal, S: Source, K: Sink, N: Sink, C: Clock>(
    rt: &R,
    words: &[String],
    source: &mut S,
    sink: &mut K,
    notes: &mut N,
    clock: &mut C,
) -> Status
    // Words that are no command's are refused before anything is read or written.
    ensures usage { (result ≡ Status.Usage) ↔ ((a : Asked) → ¬ AskFor words.now a) }
    ensures usage_noted { result ≡ Status.Usage → SaysTo N.Sink notes.old notes.new usage_note }
    ensures unread { result ≡ Status.Usage → source.new ≡ source.old }
    ensures unwritten { result ≡ Status.Usage → sink.new ≡ sink.old }

    // How each command ends.
    ensures check { (file : List ℕ) → AskFor words.now (Check file) → ChecksFile file
        (output_by K.Sink N.Sink sink.old notes.old)
        (output_by K.Sink N.Sink sink.new notes.new)
        (SaysTo N.Sink notes.old notes.new) result }
    ensures run { (file : List ℕ) (pair : Pair) → AskFor words.now (Run file pair)
        → RunEnds file pair (C.given clock.old) (C.given clock.new)
        (told_by S.Source K.Sink N.Sink source.old sink.old notes.old)
        (told_by S.Source K.Sink N.Sink source.new sink.new notes.new) result }
    ensures tries { (files : List (List ℕ)) → AskFor words.now (Try files)
        → TryEnds files (C.given clock.old) (C.given clock.new)
        (told_by S.Source K.Sink N.Sink source.old sink.old notes.old)
        (told_by S.Source K.Sink N.Sink source.new sink.new notes.new) result }

    // `check` reads nothing but the file.
    ensures sourceless { (file : List ℕ) → AskFor words.now (Check file) → source.new ≡ source.old }
{
    match command_of(words) {
        Some(StationCommand::Check { file }) => check(rt, file, sink, notes),
        Some(StationCommand::Run { file, pair }) => {
            run_file(rt, file, pair, source, sink, notes, clock)
        }
        Some(StationCommand::Try { files }) => try_files(rt, files, source, sink, notes, clock),
        None => {
            say(notes, USAGE);
            Status::Usage
        }
    }
}

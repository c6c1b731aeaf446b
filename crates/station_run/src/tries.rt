//! The command `try`: lines are typed at the consoles of stations. Called by `top`.
ghost use Rattle.std.specs.Prelude.{◌≡◌, ◌⊎◌, ◌≤◌, List, ℕ, length, Contains, IfErr, IfOk, OnOk};
ghost use Rattle.std.specs.List.{AllByRecursion};
ghost use Rattle.cmd_streams.specs.Told.{SaysTo, told_by};
ghost use Rattle.cmd_streams.specs.declared.status.Status.TheVariants as statuses;
ghost use Rattle.station_cmd.specs.Files.{HasNoStation, IsFileOf};
ghost use Rattle.station_cmd.specs.Words.{texts_of};
ghost use Rattle.station_run.specs.Ends.{IsStarved, TryEnds};
ghost use Rattle.station_run.specs.Typing.{IsTried, IsTriedToEnd};
ghost use Rattle.station_streams.specs.Ends.{TellerEnds};

use crate::typing::Typing;
use cmd_streams::Status;
use radio_base::{Clock, Sink, Source};
use station_cmd::read_file;
use station_file::StationFile;
use station_streams::answer_and_tell;
use station_trial::Trial;
use std::alloc::Global;
use std::rt::Files;

/// The most bytes that are read at a time.
const READ_SIZE: usize = 4_096;

/// Tries the stations of these files on the lines that are read.
pub fn try_files<R: Files + AllocGlobal, S: Source, K: Sink, N: Sink, C: Clock>(
    rt: &R,
    paths: &[String],
    source: &mut S,
    sink: &mut K,
    notes: &mut N,
    clock: &mut C,
) -> Status
    requires { length paths.now ≤ 8 }

    // How it ends: what was written is what a trial of the files' stations shows, and what was noted is why directives were refused; each
    // status has its reason.
    ensures ends { TryEnds (texts_of paths.now) (C.given clock.old) (C.given clock.new)
        (told_by S.Source K.Sink N.Sink source.old sink.old notes.old)
        (told_by S.Source K.Sink N.Sink source.new sink.new notes.new) result }
{
    match read_files(rt, paths, notes) {
        Ok(files) => try_stations(rt.alloc(), files, source, sink, notes, clock),
        Err(status) => status,
    }
}

/// The stations of these files, or how the program ends where one of them isn't there.
fn read_files<R: Files + AllocGlobal, N: Sink>(
    rt: &R,
    paths: &[String],
    notes: &mut N,
) -> Result<Vec<StationFile>, Status>
    ensures read { IfOk result (λ files. AllByRecursion IsFileOf files.items × (length files.items ≡ length paths.now)) }
    ensures same { OnOk result (notes.new ≡ notes.old) }
    ensures err { IfErr result (λ status. ((status ≡ statuses.NoMemory) × (notes.new ≡ notes.old))
        ⊎ ((path : List ℕ) × Contains (texts_of paths.now) path × HasNoStation path status (notes.new ≡ notes.old)
        (SaysTo N.Sink notes.old notes.new))) }
{
    let mut files = Vec::new(rt.alloc());
    for path in paths {
        match read_file(rt, path.as_str(), notes) {
            Ok(file) => {
                if files.push(file).is_err() {
                    return Err(Status::NoMemory);
                }
            }
            Err(status) => return Err(status),
        }
    }
    Ok(files)
}

fn try_stations<S: Source, K: Sink, N: Sink, C: Clock>(
    alloc: Global,
    files: Vec<StationFile>,
    source: &mut S,
    sink: &mut K,
    notes: &mut N,
    clock: &mut C,
) -> Status
    requires { length files.items ≤ 8 }
    ensures ends { IsStarved (C.given clock.old) (C.given clock.new)
        (told_by S.Source K.Sink N.Sink source.old sink.old notes.old)
        (told_by S.Source K.Sink N.Sink source.new sink.new notes.new) result
        ⊎ TellerEnds 4096 (IsTried files.items) (IsTriedToEnd files.items) (C.given clock.old) (C.given clock.new)
        (told_by S.Source K.Sink N.Sink source.old sink.old notes.old)
        (told_by S.Source K.Sink N.Sink source.new sink.new notes.new) result }
{
    let trial = match Trial::new(alloc, files) {
        Ok(trial) => trial,
        Err(_) => return Status::NoMemory,
    };
    let mut typing = Typing::new(alloc, trial);
    let mut buf = [0u8; READ_SIZE];
    answer_and_tell(alloc, &mut buf, &mut typing, source, sink, notes, clock)
}

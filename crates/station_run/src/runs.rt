//! The command `run`: a station on a stream of KISS bytes. Called by `top`.
ghost use Rattle.std.specs.Prelude.{◌≡◌, ◌⊎◌, IfOk};
ghost use Rattle.circuit_table.specs.Pairs.{IsPair};
ghost use Rattle.cmd_streams.specs.Told.{told_by};
ghost use Rattle.station_live.specs.Standing.{LiveStands};
ghost use Rattle.station_looks.specs.declared.about.About.{About};
ghost use Rattle.station_run.specs.Ends.{IsStarved, RunEnds};
ghost use Rattle.station_run.specs.Living.{IsSent, IsSentToEnd, start_with};
ghost use Rattle.station_start.specs.Starts.{IsAbout};
ghost use Rattle.station_streams.specs.Ends.{TellerEnds};

use crate::living::Living;
use circuit_l4::Pair;
use cmd_streams::Status;
use radio_base::{Clock, NoMemory, Sink, Source};
use station_cmd::read_file;
use station_file::StationFile;
use station_live::LiveStation;
use station_start::station_of;
use station_streams::answer_and_tell;
use std::alloc::Global;
use std::rt::Files;

/// The most bytes that are read at a time.
const READ_SIZE: usize = 4_096;

/// Runs the station of a file on a stream of KISS bytes: each read that gives bytes brings it these and then a tick, both at the moment
/// behind the read. What it puts out then is written, and what it tells is noted, before the next read.
///
/// The status says how it ended, and where the file or the input was refused the notes say why.
pub fn run_file<R: Files + AllocGlobal, S: Source, K: Sink, N: Sink, C: Clock>(
    rt: &R,
    path: &str,
    pair: Pair,
    source: &mut S,
    sink: &mut K,
    notes: &mut N,
    clock: &mut C,
) -> Status
    requires { IsPair pair }

    // How it ends: what was written is what the file's station sends, and what was noted is what it tells; each status has its reason.
    ensures ends { RunEnds path.now pair (C.given clock.old) (C.given clock.new)
        (told_by S.Source K.Sink N.Sink source.old sink.old notes.old)
        (told_by S.Source K.Sink N.Sink source.new sink.new notes.new) result }
{
    match read_file(rt, path, notes) {
        Ok(file) => run_station(rt.alloc(), &file, pair, source, sink, notes, clock),
        Err(status) => status,
    }
}

/// Runs the station of a file.
fn run_station<S: Source, K: Sink, N: Sink, C: Clock>(
    alloc: Global,
    file: &StationFile,
    pair: Pair,
    source: &mut S,
    sink: &mut K,
    notes: &mut N,
    clock: &mut C,
) -> Status
    requires { IsPair pair }
    ensures ends { IsStarved (C.given clock.old) (C.given clock.new)
        (told_by S.Source K.Sink N.Sink source.old sink.old notes.old)
        (told_by S.Source K.Sink N.Sink source.new sink.new notes.new) result
        ⊎ TellerEnds 4096 (IsSent pair file.now) (IsSentToEnd pair file.now) (C.given clock.old) (C.given clock.new)
        (told_by S.Source K.Sink N.Sink source.old sink.old notes.old)
        (told_by S.Source K.Sink N.Sink source.new sink.new notes.new) result }
{
    let mut living = match living_of(alloc, file, pair) {
        Ok(living) => living,
        Err(_) => return Status::NoMemory,
    };
    let mut buf = [0u8; READ_SIZE];
    answer_and_tell(alloc, &mut buf, &mut living, source, sink, notes, clock)
}

/// The station of a file as it starts, on a stream of which nothing was read.
fn living_of(alloc: Global, file: &StationFile, pair: Pair) -> Result<Living, NoMemory>
    requires { IsPair pair }
    ensures { IfOk result (λ living. (who : About) × IsAbout file.now who × LiveStands living.live (start_with who pair file.now)) }
{
    let station = station_of(alloc, file, pair)?;
    Ok(Living {
        live: LiveStation::new(alloc, station, file.status() as u64 * 1_000),
    })
}

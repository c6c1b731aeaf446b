//! How a program starts, with what it was given, and how it ends. Called by `node_cmd` and `look_cmd`.
ghost use Rattle.std.specs.Prelude.{◌≡◌, ◌⊎◌, List, String, IfOk, drop};
ghost use Rattle.std.specs.Process.{exit_status as ends_with};
ghost use Rattle.std.specs.Vec.Iter.{into_iter_items};
ghost use Rattle.cmd_streams.specs.Statuses.{exit_status};

use crate::reading::Reading;
use crate::status::Status;
use crate::system_clock::SystemClock;
use crate::writing::Writing;
use radio_base::NoMemory;
use std::alloc::Global;
use std::env::{Args, Env};
use std::io::{Read, Write};
use std::process::ExitCode;
use std::{env, io, time};

/// What a program is given: memory, its words, its streams and the clock.
#[derive(Drop)]
pub struct Given<I: Read + Drop, O: Write + Drop, N: Write + Drop, T: time::Clock + Drop> {
    pub alloc: Global,
    pub words: Vec<String>,
    pub source: Reading<I>,
    pub sink: Writing<O>,
    pub notes: Writing<N>,
    pub clock: SystemClock<T>,
}

/// Hands the program's words, these streams and the clock to `work`, and ends by the status that it answers.
pub fn start<'a, R, I, O, N, W>(rt: &'a R, input: I, output: O, notes: N, work: W) -> ExitCode
where
    R: Env + AllocGlobal + time::Clock,
    I: Read + Drop,
    O: Write + Drop,
    N: Write + Drop,
    W: FnOnce(Given<I, O, N, &'a R>) -> Status,
    requires { W.IsAlwaysCallable work }

    // The exit status is that of the status that the work answered to these very streams; or there was no memory for the words.
    ensures { (status : Status) × (ends_with result ≡ exit_status status) × ((status ≡ Status.NoMemory)
        ⊎ ((given : _) × W.post work given status × (given.source.reader ≡ input) × (given.sink.writer ≡ output)
        × (given.notes.writer ≡ notes))) }
{
    ExitCode::from(status_of(rt, input, output, notes, work).code())
}

/// The status that the work answers to what the program is given.
fn status_of<'a, R, I, O, N, W>(rt: &'a R, input: I, output: O, notes: N, work: W) -> Status
where
    R: Env + AllocGlobal + time::Clock,
    I: Read + Drop,
    O: Write + Drop,
    N: Write + Drop,
    W: FnOnce(Given<I, O, N, &'a R>) -> Status,
    requires { W.IsAlwaysCallable work }
    ensures { (result ≡ Status.NoMemory) ⊎ ((given : _) × W.post work given result × (given.source.reader ≡ input)
        × (given.sink.writer ≡ output) × (given.notes.writer ≡ notes)) }
{
    let alloc = rt.alloc();
    match words_of(rt, alloc) {
        Ok(words) => work(Given {
            alloc,
            words,
            source: Reading::new(input),
            sink: Writing::new(output),
            notes: Writing::new(notes),
            clock: SystemClock::new(rt),
        }),
        Err(_) => Status::NoMemory,
    }
}

/// The words behind the program's name. Where one of them is no text they belong to no command, and none is handed on.
fn words_of<R: Env + AllocGlobal>(rt: &R, alloc: Global) -> Result<Vec<String>, NoMemory> {
    match env::args(rt) {
        Ok(words) => behind_the_first(alloc, words),
        Err(error) if error.kind() == io::ErrorKind::OutOfMemory => Err(NoMemory),
        Err(_) => Ok(Vec::new(alloc)),
    }
}

/// All words but the first.
fn behind_the_first(alloc: Global, mut all: Args) -> Result<Vec<String>, NoMemory>
    ensures { IfOk result (λ words. words.items ≡ drop 1 (into_iter_items all)) }
{
    let _ = all.next();
    let mut words = Vec::new(alloc);
    for word in all {
        words.push(word)?;
    }
    Ok(words)
}

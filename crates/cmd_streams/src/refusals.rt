//! Input that is refused: why a file wasn't read, what is noted of that, and how the command ends. Called by `reading`, and by `tool_cmd`,
//! `node_cmd` and `look_cmd`.
ghost use Rattle.std.specs.Prelude.{◌≡◌, ◌≢◌, ◌⊎◌, ℕ, List, Some};
ghost use Rattle.cmd_streams.specs.Told.{bad_line_note, Says};
ghost use Rattle.cmd_streams.specs.Reading.{status_of};
ghost use Rattle.cmd_streams.specs.StatusNotes.{HasNote, IsSilent};
ghost use Rattle.cmd_streams.specs.declared.refusals.ReadRefusal.TheVariants.{Fault, NoMemory};

use crate::notes::{READ_FAULT, TOO_LONG, bad_line_note, say};
use crate::status::Status;
use radio_base::{Failed, Sink};
use std::alloc::{AllocError, Global};
use std::fmt::Display;

/// Why a file wasn't read.
#[derive(Clone, Copy, Debug, PartialEq, Eq)]
pub enum ReadRefusal {
    Fault,
    TooLong,
    NoMemory,
}

impl From<Failed> for ReadRefusal {
    ghost from_gives = { λ _ e. e ≡ Fault };

    fn from(_: Failed) -> Self {
        ReadRefusal::Fault
    }
}

impl From<AllocError> for ReadRefusal {
    ghost from_gives = { λ _ e. e ≡ NoMemory };

    fn from(_: AllocError) -> Self {
        ReadRefusal::NoMemory
    }
}

/// Notes why a file wasn't read.
pub fn refuse_input<N: Sink>(why: ReadRefusal, notes: &mut N) -> Status
    ensures status { result ≡ status_of why }
    ensures noted { HasNote result (Says (N.written notes.old) (N.written notes.new)
        (N.faults notes.old) (N.faults notes.new)) }
    ensures silent { IsSilent result → notes.new ≡ notes.old }
{
    match why {
        ReadRefusal::Fault => {
            say(notes, READ_FAULT);
            Status::ReadFault
        }
        ReadRefusal::TooLong => {
            say(notes, TOO_LONG);
            Status::TooLong
        }
        ReadRefusal::NoMemory => Status::NoMemory,
    }
}

/// Notes the first bad line of a file, and what is wrong with it.
pub fn refuse_line<W: Display + Drop, N: Sink>(
    alloc: Global,
    line: u32,
    what: W,
    notes: &mut N,
) -> Status
    ensures status { (result ≡ Status.BadFile) ⊎ (result ≡ Status.NoMemory) }
    ensures noted { result ≡ Status.BadFile → (word : List ℕ) → W.output what ≡ Some word
        → Says (N.written notes.old) (N.written notes.new) (N.faults notes.old) (N.faults notes.new)
        (bad_line_note line word) }
    ensures silent { result ≢ Status.BadFile → notes.new ≡ notes.old }
{
    match bad_line_note(alloc, line, what) {
        Ok(note) => {
            say(notes, &note);
            Status::BadFile
        }
        Err(_) => Status::NoMemory,
    }
}

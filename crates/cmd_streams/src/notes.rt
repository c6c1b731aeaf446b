//! What is noted where input was refused. Called by `refusals` and `streams`, and by `node_cmd` and `look_cmd`.
ghost use Rattle.std.specs.Prelude.{◌≡◌, ℕ, List, Some, IfOk, string_bytes};
ghost use Rattle.cmd_streams.specs.Told.{bad_line_note, Says};

use crate::writing::write_all;
use radio_base::{NoMemory, Sink};
use std::alloc::Global;
use std::fmt::Display;

/// A read of the input failed.
pub const READ_FAULT: &str = "read fault\n";

/// The input is longer than is taken.
pub const TOO_LONG: &str = "too long\n";

/// Writes a note. A fault of the notes changes nothing else.
pub fn say<N: Sink>(notes: &mut N, text: &str)
    ensures { Says (N.written notes.old) (N.written notes.new) (N.faults notes.old) (N.faults notes.new) text.now }
{
    let _ = write_all(notes, text.as_bytes());
}

/// Names the first bad line of a file, and what is wrong with it.
pub fn bad_line_note<W: Display + Drop>(
    alloc: Global,
    line: u32,
    what: W,
) -> Result<String, NoMemory>
    ensures { IfOk result (λ s. (word : List ℕ) → W.output what ≡ Some word
        → string_bytes s ≡ bad_line_note line word) }
{
    Ok(format!(in alloc; "line {line}: {what}\n")?)
}

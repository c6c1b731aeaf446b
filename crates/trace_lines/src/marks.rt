//! Which lines bring a frame again. Called by `events` and `traces`.
ghost use Rattle.std.specs.Prelude.{◌≡◌, ◌||◌, ◌&&◌, ◌==◌, ◌<◌, ℕ, true, length, slice_set, IfOk, OnOk};
ghost use Rattle.trace_lines.specs.Events as events;
ghost use Rattle.trace_lines.specs.Marks.{mark_at};

use network_file::{Instruction, NumberedInstruction};
use radio_base::NoMemory;
use std::alloc::Global;

/// A mark for each line of a file, by its number: whether a frame that was settled is delivered there again.
pub(crate) fn repeat_marks(
    alloc: Global,
    instructions: &[NumberedInstruction],
) -> Result<Vec<bool>, NoMemory>
    ensures { IfOk result (λ marks. (line : ℕ) → mark_at marks.items line ≡ events.repeats instructions.now line) }
{
    let mut marks = Vec::new(alloc);
    for numbered in instructions {
        mark_repeat(numbered, &mut marks)?;
    }
    Ok(marks)
}

fn mark_repeat(numbered: &NumberedInstruction, marks: &mut Vec<bool>) -> Result<(), NoMemory>
    ensures { OnOk result ((line : ℕ) → mark_at marks.new.items line
        ≡ mark_at marks.old.items line || ((numbered.now.line == line) && events.is_again numbered.now.instruction)) }
{
    match numbered.instruction {
        Instruction::Again { .. } => set_mark(numbered.line as usize, marks),
        _ => Ok(()),
    }
}

/// Sets the mark of a line.
fn set_mark(at: usize, marks: &mut Vec<bool>) -> Result<(), NoMemory>
    ensures { OnOk result ((line : ℕ) → mark_at marks.new.items line ≡ mark_at marks.old.items line || (at == line)) }
{
    while marks.len() <= at {
        marks.push(false)?;
    }
    set_at(at, marks);
    Ok(())
}

fn set_at(at: usize, marks: &mut [bool])
    requires { at < length marks.old }
    ensures { marks.new ≡ slice_set marks.old at true }
{
    marks[at] = true;
}

/// The mark of a line.
pub(crate) fn mark_of(marks: &[bool], line: u32) -> bool
    ensures { result ≡ mark_at marks.now line }
{
    match marks.get(line as usize) {
        Some(mark) => *mark,
        None => false,
    }
}

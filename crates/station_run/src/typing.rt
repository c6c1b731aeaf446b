//! Who reads the lines of a trial and has each done. Called by `tries`.
ghost use Rattle.std.specs.Prelude.{◌≡◌, ◌++◌, false, List, ℕ, string_bytes, IfOk, OnOk};
ghost use Rattle.std.specs.Str.Lines.{strip_carriage_return};
ghost use Rattle.station_run.specs.Typing as typing;
ghost use Rattle.station_run.specs.Typing.{TypingStands, TypingState};
ghost use Rattle.station_trial.specs.Standing.{TrialStands};
ghost use Rattle.station_trial.specs.Trials.{TrialState};
ghost use Rattle.station_trial.specs.declared.trial.Came.TheVariants.{Refused};

use radio_base::{Moment, NoMemory, TextOut};
use station_script::DirectiveRefusal;
use station_streams::Teller;
use station_trial::{Came, Trial};
use std::alloc::{AllocError, Global};

/// A trial, and what was read of its lines.
#[derive(Drop)]
pub(crate) struct Typing {
    pub(crate) alloc: Global,
    pub(crate) trial: Trial,
    /// What was read of a line that hasn't ended.
    pub(crate) line: Vec<u8>,
    /// How many lines were done.
    pub(crate) lines: u64,
    pub(crate) over: bool,
}

impl Typing {
    /// Nothing was read yet.
    pub(crate) fn new(alloc: Global, trial: Trial) -> Typing
        ensures { (t : TrialState) → TrialStands trial t → TypingStands result (typing.new_typing t) }
    {
        Typing {
            alloc,
            trial,
            line: Vec::new(alloc),
            lines: 0,
            over: false,
        }
    }

    fn take_byte(&mut self, byte: u8, told: &mut TextOut) -> Result<(), NoMemory>
        ensures { OnOk result ((s : TypingState) → TypingStands self.old s → (note : List ℕ) × (after : TypingState)
            × typing.TakesByte byte s note after × (told.new ≡ told.old ++ note) × TypingStands self.new after) }
    {
        if self.over {
            return Ok(());
        }
        if byte == b'\n' {
            self.end_line(told)
        } else {
            self.line.push(byte)?;
            Ok(())
        }
    }

    /// A line has ended, and is done.
    fn end_line(&mut self, told: &mut TextOut) -> Result<(), NoMemory>
        requires { self.old.over ≡ false }
        ensures { OnOk result ((s : TypingState) → TypingStands self.old s → (note : List ℕ) × (after : TypingState)
            × typing.EndsLine s note after × (told.new ≡ told.old ++ note) × TypingStands self.new after) }
    {
        let line = std::mem::replace(&mut self.line, Vec::new(self.alloc));
        self.lines = self.lines.saturating_add(1);
        match self.trial.take_line(without_return(&line))? {
            Came::Done => Ok(()),
            Came::Quit => {
                self.over = true;
                Ok(())
            }
            Came::Refused(why) => {
                add_refusal(self.alloc, self.lines, why, told)?;
                Ok(())
            }
        }
    }

    fn take_bytes(&mut self, bytes: &[u8], told: &mut TextOut) -> Result<(), NoMemory>
        ensures { OnOk result ((s : TypingState) → TypingStands self.old s → (note : List ℕ) × (after : TypingState)
            × typing.TakesBytes bytes.now s note after × (told.new ≡ told.old ++ note) × TypingStands self.new after) }
    {
        for byte in bytes {
            self.take_byte(*byte, told)?;
        }
        Ok(())
    }

    /// What stands behind the last LF is a line too, where there is something and none before was the last.
    fn end_last(&mut self, told: &mut TextOut) -> Result<(), NoMemory>
        ensures { OnOk result ((s : TypingState) → TypingStands self.old s → (note : List ℕ) × (after : TypingState)
            × typing.EndsLast s note after × (told.new ≡ told.old ++ note) × TypingStands self.new after) }
    {
        if self.over || self.line.is_empty() {
            return Ok(());
        }
        self.end_line(told)?;
        Ok(())
    }
}

impl Teller for Typing {
    ghost use Rattle.station_run.specs.Typing.{TriesThrough, TriesThroughEnd};

    ghost took = { TriesThrough };

    ghost ended = { TriesThroughEnd };

    ghost over = { λ t. t.over };

    fn take(
        &mut self,
        bytes: &[u8],
        now: Moment,
        answer: &mut TextOut,
        told: &mut TextOut,
    ) -> Result<(), NoMemory> {
        let _ = now;
        self.take_bytes(bytes, told)?;
        answer.append(self.trial.take_text())?;
        Ok(())
    }

    fn is_over(&self) -> bool {
        self.over
    }

    fn end(&mut self, answer: &mut TextOut, told: &mut TextOut) -> Result<(), NoMemory> {
        self.end_last(told)?;
        self.trial.end()?;
        answer.append(self.trial.take_text())?;
        Ok(())
    }
}

/// A line without the one CR at its end, if it has one.
fn without_return(line: &[u8]) -> &[u8]
    ensures { result.now ≡ strip_carriage_return line.now }
{
    if !line.is_empty() && line[line.len() - 1] == b'\r' {
        &line[..line.len() - 1]
    } else {
        line
    }
}

/// Tells why the directive of a line is refused.
fn add_refusal(
    alloc: Global,
    line: u64,
    why: DirectiveRefusal,
    told: &mut TextOut,
) -> Result<(), NoMemory>
    ensures { OnOk result (told.new ≡ told.old ++ typing.note_of line (Refused why)) }
{
    let note = refusal_note(alloc, line, why)?;
    told.text(note.as_str())?;
    Ok(())
}

fn refusal_note(alloc: Global, line: u64, why: DirectiveRefusal) -> Result<String, AllocError>
    ensures { IfOk result (λ s. string_bytes s ≡ typing.note_of line (Refused why)) }
{
    let why = why.text();
    format!(in alloc; "line {line}: {why}\n")
}

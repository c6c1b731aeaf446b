//! A script, read whole. Called by `life`, and by `tool_cmd`.
ghost use Rattle.std.specs.Prelude.{◌≡◌, ◌≤◌, ◌++◌, ◌∷◌, ◌+◌, [], length, Ok, Err, OnOk, OnErr, IfErr, MatchResult};
ghost use Rattle.std.specs.Str.Lines.{lines};
ghost use Rattle.link_life.specs.Lines as scripts;

use crate::act::{LifeAct, NumberedAct};
use crate::life_refusals::{LifeFileRefusal, LifeWhat};
use crate::line::read_line;
use std::alloc::{AllocError, Global};
use std::marker::Model;
use text_lines::{MAX_LINES, first_line, is_skipped};

/// What is done in a life, in order. It lends the texts of the file.
#[derive(Debug, Drop)]
pub struct LifeScript<'a> {
    acts: Vec<NumberedAct<'a>>,
}

impl<'a> Model for LifeScript<'a> {
    ghost use Rattle.std.specs.Prelude.{List};
    ghost use Rattle.link_life.specs.declared.act.NumberedAct.{NumberedAct};

    ghost Value = { List NumberedAct };

    ghost view = { λ s. s.acts.items };
}

impl<'a> LifeScript<'a> {
    fn new(alloc: Global) -> LifeScript<'a>
        ensures { result ≡ [] }
    {
        LifeScript {
            acts: Vec::new(alloc),
        }
    }

    /// The acts, in the order of their lines.
    pub fn acts(&self) -> &[NumberedAct<'a>]
        ensures { result.now ≡ self.now }
    {
        &self.acts
    }

    fn add(&mut self, line: u32, act: LifeAct<'a>) -> Result<(), AllocError>
        ensures ok { OnOk result (self.new ≡ self.old ++ record { line = line; act = act.entry } ∷ []) }
        ensures err { OnErr result (self.new ≡ self.old) }
    {
        self.acts.push(NumberedAct { line, act })?;
        Ok(())
    }
}

/// The script of a file of at most 1,048,576 bytes, or its first bad line.
#[tactic(auto, unfolding(crate::specs::Lines::script_of))]
pub fn read_life(alloc: Global, bytes: &[u8]) -> Result<LifeScript<'_>, LifeFileRefusal>
    requires { length bytes.now ≤ 1048576 }
    ensures { MatchResult result (λ s. scripts.script_of bytes.now ≡ Ok s)
        (λ e. scripts.ReadAs e (scripts.script_of bytes.now)) }
{
    let mut script = LifeScript::new(alloc);
    let mut number: u32 = 0;
    let mut rest = bytes;
    while !rest.is_empty() {
        let (line, more) = first_line(rest);
        number += 1;
        take_line(&mut script, number, line)?;
        rest = more;
    }
    Ok(script)
}

/// Takes in one line of a file.
fn take_line<'a>(
    script: &mut LifeScript<'a>,
    number: u32,
    line: &'a [u8],
) -> Result<(), LifeFileRefusal>
    ensures ok { OnOk result (scripts.after_line number script.old line.now ≡ Ok script.new) }
    ensures few { OnOk result (number ≤ 20000) }
    ensures err { IfErr result (λ e. scripts.ReadAs e (scripts.after_line number script.old line.now)) }
{
    if number > MAX_LINES {
        return Err(LifeFileRefusal::BadLine {
            line: number,
            what: LifeWhat::Many,
        });
    }
    if is_skipped(line) {
        return Ok(());
    }
    match read_line(line) {
        Ok(act) => {
            script.add(number, act)?;
            Ok(())
        }
        Err(what) => Err(LifeFileRefusal::BadLine { line: number, what }),
    }
}

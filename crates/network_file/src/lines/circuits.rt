//! Lines that speak of circuits and their ends: `open`, `say`, `burst`, `take`, `close`. Called by `nodes`.
ghost use Rattle.std.specs.Prelude.{◌≡◌, IfOk};
ghost use Rattle.network_file.specs.declared.plan.instructions.Instruction.TheVariants as instructions;
ghost use Rattle.network_file.specs.Lines.{from_circuits};
ghost use Rattle.network_file.specs.Lines.Instructions as lines;
ghost use Rattle.network_file.specs.Lines.Kinds.{as_line, line_by, reads_text};
ghost use Rattle.network_file.specs.Lines.Instructions.{node_and_call};
ghost use Rattle.text_lines.specs.Lines.{texts};

use crate::lines::Line;
use crate::lines::mails::mail_kind;
use crate::lines::nodes::node_and_call;
use crate::network::Network;
use crate::places::{first_words, node, nth, text_behind, text_count};
use crate::plan::instructions::Instruction;
use crate::plan::text::Text;
use crate::what::What;
use std::alloc::{AllocError, Global};

/// The line of a kind that speaks of circuits, or else of mail.
pub fn circuit_kind(
    alloc: Global,
    before: &Network,
    line: &[u8],
    word: &[u8],
    words: &[&[u8]],
) -> Result<Result<Line, What>, AllocError>
    ensures { IfOk result (λ said. said ≡ line_by from_circuits before.now line.now word.now (texts words.now)) }
{
    if word == b"open".as_slice() {
        Ok(open_line(before, words))
    } else if word == b"say".as_slice() {
        say_line(alloc, before, line, words)
    } else if word == b"burst".as_slice() {
        Ok(burst_line(before, words))
    } else if word == b"take".as_slice() {
        Ok(take_line(before, words))
    } else if word == b"close".as_slice() {
        Ok(close_line(before, words))
    } else {
        mail_kind(alloc, before, line, word, words)
    }
}

/// `open N DEST`
fn open_line(before: &Network, words: &[&[u8]]) -> Result<Line, What>
    ensures { result ≡ as_line (node_and_call before.now (texts words.now)) (λ way. instructions.Open way.0 way.1) }
{
    let (node, dest) = node_and_call(before, words)?;
    Ok(Line::Instruction(Instruction::Open { node, dest }))
}

/// The number of a declared node, and that of one of its ends.
#[tactic(auto, unfolding(crate::specs::Lines::Instructions::end_at))]
fn end_of(before: &Network, number: &[u8], end: &[u8]) -> Result<(u8, u32), What>
    ensures { result ≡ lines.end_at before.now number.now end.now }
{
    let node = node(before.declared(), number)?;
    let end = nth(end)?;
    Ok((node, end))
}

/// `say N X TEXT`: TEXT may be empty
fn say_line(
    alloc: Global,
    before: &Network,
    line: &[u8],
    words: &[&[u8]],
) -> Result<Result<Line, What>, AllocError>
    ensures { IfOk result (λ said. said ≡ reads_text 2 lines.end_alone (λ e. instructions.Say e.0 e.1)
        before.now line.now (texts words.now)) }
{
    let Some(text) = text_behind(line, 3) else {
        return Ok(Err(What::Count));
    };
    match end_alone(before, first_words(words, 2)) {
        Ok((node, end)) => {
            let text = Text::new(alloc, text)?;
            Ok(Ok(Line::Instruction(Instruction::Say { node, end, text })))
        }
        Err(what) => Ok(Err(what)),
    }
}

/// `burst N X COUNT`
fn burst_line(before: &Network, words: &[&[u8]]) -> Result<Line, What>
    ensures { result ≡ lines.burst_line before.now (texts words.now) }
{
    match words {
        [number, end, count] => burst(before, number, end, count),
        _ => Err(What::Count),
    }
}

#[tactic(auto, unfolding(crate::specs::Lines::Instructions::burst_at))]
fn burst(before: &Network, number: &[u8], end: &[u8], count: &[u8]) -> Result<Line, What>
    ensures { result ≡ lines.burst_at before.now number.now end.now count.now }
{
    let (node, end) = end_of(before, number, end)?;
    let count = text_count(count)?;
    Ok(Line::Instruction(Instruction::Burst { node, end, count }))
}

/// The number of a declared node, that of one of its ends, and nothing else.
fn end_alone(before: &Network, words: &[&[u8]]) -> Result<(u8, u32), What>
    ensures { result ≡ lines.end_alone before.now (texts words.now) }
{
    match words {
        [number, end] => end_of(before, number, end),
        _ => Err(What::Count),
    }
}

/// `take N X`
fn take_line(before: &Network, words: &[&[u8]]) -> Result<Line, What>
    ensures { result ≡ as_line (lines.end_alone before.now (texts words.now)) (λ e. instructions.Take e.0 e.1) }
{
    let (node, end) = end_alone(before, words)?;
    Ok(Line::Instruction(Instruction::Take { node, end }))
}

/// `close N X`
fn close_line(before: &Network, words: &[&[u8]]) -> Result<Line, What>
    ensures { result ≡ as_line (lines.end_alone before.now (texts words.now)) (λ e. instructions.Close e.0 e.1) }
{
    let (node, end) = end_alone(before, words)?;
    Ok(Line::Instruction(Instruction::Close { node, end }))
}

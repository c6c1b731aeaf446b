//! Lines that move frames: `deliver`, `again`, `lose`, `flow`, `cut`. Called by `mails`.
ghost use Rattle.std.specs.Prelude.{◌≡◌, []};
ghost use Rattle.network_file.specs.declared.plan.instructions.Instruction.TheVariants as instructions;
ghost use Rattle.network_file.specs.Lines.Instructions as lines;
ghost use Rattle.network_file.specs.Lines.Kinds.{as_line, line_by};
ghost use Rattle.text_lines.specs.Lines.{texts};

use crate::lines::Line;
use crate::network::Network;
use crate::places::{frame_count, node, nth};
use crate::plan::instructions::Instruction;
use crate::what::What;

/// The line of a kind that speaks of frames in the air. None is read from the line itself, so that an empty one stands for it.
pub fn frame_kind(before: &Network, word: &[u8], words: &[&[u8]]) -> Result<Line, What>
    ensures { result ≡ line_by lines.frame_kinds before.now [] word.now (texts words.now) }
{
    if word == b"deliver".as_slice() {
        deliver_line(before, words)
    } else if word == b"again".as_slice() {
        again_line(before, words)
    } else if word == b"lose".as_slice() {
        lose_line(words)
    } else if word == b"flow".as_slice() {
        flow_line(words)
    } else if word == b"cut".as_slice() {
        cut_line(words)
    } else {
        Err(What::Word)
    }
}

/// The number of a frame, and nothing else.
fn frame_alone(words: &[&[u8]]) -> Result<u32, What>
    ensures { result ≡ lines.frame_alone (texts words.now) }
{
    match words {
        [word] => nth(word),
        _ => Err(What::Count),
    }
}

/// How many frames, and nothing else.
fn count_alone(words: &[&[u8]]) -> Result<u32, What>
    ensures { result ≡ lines.count_alone (texts words.now) }
{
    match words {
        [word] => frame_count(word),
        _ => Err(What::Count),
    }
}

/// The number of a frame, and that of the node to which it goes.
fn frame_and_node(before: &Network, words: &[&[u8]]) -> Result<(u32, u8), What>
    ensures { result ≡ lines.frame_and_node before.now (texts words.now) }
{
    match words {
        [word, number] => frame_and_node_of(before, word, number),
        _ => Err(What::Count),
    }
}

#[tactic(auto, unfolding(crate::specs::Lines::Instructions::frame_and_node_at))]
fn frame_and_node_of(before: &Network, word: &[u8], number: &[u8]) -> Result<(u32, u8), What>
    ensures { result ≡ lines.frame_and_node_at before.now word.now number.now }
{
    let frame = nth(word)?;
    let node = node(before.declared(), number)?;
    Ok((frame, node))
}

/// `deliver K N`
fn deliver_line(before: &Network, words: &[&[u8]]) -> Result<Line, What>
    ensures { result ≡ as_line (lines.frame_and_node before.now (texts words.now))
        (λ way. instructions.Deliver way.0 way.1) }
{
    let (frame, node) = frame_and_node(before, words)?;
    Ok(Line::Instruction(Instruction::Deliver { frame, node }))
}

/// `again K N`
fn again_line(before: &Network, words: &[&[u8]]) -> Result<Line, What>
    ensures { result ≡ as_line (lines.frame_and_node before.now (texts words.now))
        (λ way. instructions.Again way.0 way.1) }
{
    let (frame, node) = frame_and_node(before, words)?;
    Ok(Line::Instruction(Instruction::Again { frame, node }))
}

/// `lose K`
fn lose_line(words: &[&[u8]]) -> Result<Line, What>
    ensures { result ≡ as_line (lines.frame_alone (texts words.now)) instructions.Lose }
{
    let frame = frame_alone(words)?;
    Ok(Line::Instruction(Instruction::Lose { frame }))
}

/// `flow COUNT`
fn flow_line(words: &[&[u8]]) -> Result<Line, What>
    ensures { result ≡ as_line (lines.count_alone (texts words.now)) instructions.Flow }
{
    let count = count_alone(words)?;
    Ok(Line::Instruction(Instruction::Flow { count }))
}

/// `cut COUNT`
fn cut_line(words: &[&[u8]]) -> Result<Line, What>
    ensures { result ≡ as_line (lines.count_alone (texts words.now)) instructions.Cut }
{
    let count = count_alone(words)?;
    Ok(Line::Instruction(Instruction::Cut { count }))
}

//! Lines that speak of mail: `post`, `mail`. Called by `circuits`.
ghost use Rattle.std.specs.Prelude.{◌≡◌, IfOk};
ghost use Rattle.network_file.specs.declared.plan.instructions.Instruction.TheVariants as instructions;
ghost use Rattle.network_file.specs.Lines.{from_mails};
ghost use Rattle.network_file.specs.Lines.Kinds.{as_line, line_by, reads_text};
ghost use Rattle.network_file.specs.Lines.Instructions as lines;
ghost use Rattle.network_file.specs.Lines.Instructions.{node_alone};
ghost use Rattle.text_lines.specs.Lines.{texts};

use crate::lines::Line;
use crate::lines::frames::frame_kind;
use crate::lines::nodes::node_alone;
use crate::network::Network;
use crate::places::{call, first_words, node, text_behind};
use crate::plan::instructions::Instruction;
use crate::plan::text::Text;
use crate::what::What;
use ax_address::Call;
use std::alloc::{AllocError, Global};

/// The line of a kind that speaks of mail, or else of frames in the air.
pub fn mail_kind(
    alloc: Global,
    before: &Network,
    line: &[u8],
    word: &[u8],
    words: &[&[u8]],
) -> Result<Result<Line, What>, AllocError>
    ensures { IfOk result (λ said. said ≡ line_by from_mails before.now line.now word.now (texts words.now)) }
{
    if before.version() >= 4 && word == b"post".as_slice() {
        post_line(alloc, before, line, words)
    } else if before.version() >= 4 && word == b"mail".as_slice() {
        Ok(mail_line(before, words))
    } else {
        Ok(frame_kind(before, word, words))
    }
}

/// `post N TO DEST TEXT`
fn post_line(
    alloc: Global,
    before: &Network,
    line: &[u8],
    words: &[&[u8]],
) -> Result<Result<Line, What>, AllocError>
    ensures { IfOk result (λ said. said ≡ reads_text 3 lines.node_and_calls (λ p. instructions.Post p.0 p.1 p.2)
        before.now line.now (texts words.now)) }
{
    let Some(text) = text_behind(line, 4) else {
        return Ok(Err(What::Count));
    };
    match node_and_calls(before, first_words(words, 3)) {
        Ok((node, to, dest)) => {
            let text = Text::new(alloc, text)?;
            Ok(Ok(Line::Instruction(Instruction::Post {
                node,
                to,
                dest,
                text,
            })))
        }
        Err(what) => Ok(Err(what)),
    }
}

/// The number of a declared node, and two calls.
fn node_and_calls(before: &Network, words: &[&[u8]]) -> Result<(u8, Call, Call), What>
    ensures { result ≡ lines.node_and_calls before.now (texts words.now) }
{
    match words {
        [number, to, dest] => node_and_calls_of(before, number, to, dest),
        _ => Err(What::Count),
    }
}

#[tactic(auto, unfolding(crate::specs::Lines::Instructions::node_and_calls_at))]
fn node_and_calls_of(
    before: &Network,
    number: &[u8],
    to: &[u8],
    dest: &[u8],
) -> Result<(u8, Call, Call), What>
    ensures { result ≡ lines.node_and_calls_at before.now number.now to.now dest.now }
{
    let node = node(before.declared(), number)?;
    let to = call(to)?;
    let dest = call(dest)?;
    Ok((node, to, dest))
}

/// `mail N`
fn mail_line(before: &Network, words: &[&[u8]]) -> Result<Line, What>
    ensures { result ≡ as_line (node_alone before.now (texts words.now)) instructions.Mail }
{
    let node = node_alone(before, words)?;
    Ok(Line::Instruction(Instruction::Mail { node }))
}

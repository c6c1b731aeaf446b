//! What a line says: its kind is named by its first word. Called by most files here.
ghost use Rattle.std.specs.Prelude.{◌≡◌, IfOk};
ghost use Rattle.network_file.specs.Lines as lines;
ghost use Rattle.text_lines.specs.Lines.{texts, words_of};

pub mod circuits;
pub mod declaring;
pub mod frames;
pub mod heard;
pub mod mails;
pub mod nodes;

use crate::lines::declaring::declaring_kind;
use crate::network::Network;
use crate::plan::channels::Channel;
use crate::plan::declarations::Declaration;
use crate::plan::instructions::Instruction;
use crate::plan::settings::Setting;
use crate::plan::vias::Via;
use crate::what::What;
use std::alloc::{AllocError, Global};
use text_lines::{is_text, words_of};

/// What a line says.
#[derive(Debug, Drop)]
pub enum Line {
    /// The version of the file.
    Version(u8),
    Node(Declaration),
    Channel(Channel),
    Set(Setting),
    Via(Via),
    Instruction(Instruction),
}

/// What a line says after the lines before it, or the first thing that is wrong with it.
pub fn read_line(
    alloc: Global,
    before: &Network,
    line: &[u8],
) -> Result<Result<Line, What>, AllocError>
    ensures { IfOk result (λ said. said ≡ lines.line_at before.now line.now) }
{
    let words = words_of(alloc, line)?;
    line_of_text(alloc, before, line, &words)
}

#[tactic(auto, unfolding(crate::specs::Lines::line_at))]
fn line_of_text(
    alloc: Global,
    before: &Network,
    line: &[u8],
    words: &[&[u8]],
) -> Result<Result<Line, What>, AllocError>
    requires { texts words.now ≡ words_of line.now }
    ensures { IfOk result (λ said. said ≡ lines.line_at before.now line.now) }
{
    if !is_text(line) {
        return Ok(Err(What::Char));
    }
    line_of(alloc, before, line, words)
}

fn line_of(
    alloc: Global,
    before: &Network,
    line: &[u8],
    words: &[&[u8]],
) -> Result<Result<Line, What>, AllocError>
    ensures { IfOk result (λ said. said ≡ lines.line_of before.now line.now (texts words.now)) }
{
    match words {
        [] => Ok(Err(What::Word)),
        [first, rest @ ..] => declaring_kind(alloc, before, line, first, rest),
    }
}

//! Lines that speak of a node, or of time: `heard`, `lock`, `round`, `linkfail`, `show`, `tick`, `restart`. Called by `circuits`,
//! `declaring` and `mails`.
ghost use Rattle.std.specs.Prelude.{◌≡◌, IfOk};
ghost use Rattle.network_file.specs.declared.plan.instructions.Instruction.TheVariants as instructions;
ghost use Rattle.network_file.specs.Lines.{from_nodes};
ghost use Rattle.network_file.specs.Lines.Kinds.{as_line, line_by};
ghost use Rattle.network_file.specs.Lines.Instructions as lines;
ghost use Rattle.text_lines.specs.Lines.{texts};

use crate::lines::Line;
use crate::lines::circuits::circuit_kind;
use crate::lines::heard::heard_line;
use crate::network::Network;
use crate::places::{alias, call, node, octet, pair_part, time};
use crate::plan::instructions::Instruction;
use crate::plan::pairs::FirstPair;
use crate::what::What;
use ax_address::Call;
use std::alloc::{AllocError, Global};

/// The line of a kind that speaks of nodes or of time, or else of circuits.
pub fn node_kind(
    alloc: Global,
    before: &Network,
    line: &[u8],
    word: &[u8],
    words: &[&[u8]],
) -> Result<Result<Line, What>, AllocError>
    ensures { IfOk result (λ said. said ≡ line_by from_nodes before.now line.now word.now (texts words.now)) }
{
    if word == b"heard".as_slice() {
        heard_line(alloc, before, words)
    } else if word == b"lock".as_slice() {
        Ok(lock_line(before, words))
    } else if word == b"round".as_slice() {
        Ok(round_line(before, words))
    } else if word == b"linkfail".as_slice() {
        Ok(linkfail_line(before, words))
    } else if word == b"show".as_slice() {
        Ok(show_line(before, words))
    } else if word == b"tick".as_slice() {
        Ok(tick_line(words))
    } else if before.version() >= 2 && word == b"restart".as_slice() {
        Ok(restart_line(before, words))
    } else {
        circuit_kind(alloc, before, line, word, words)
    }
}

/// `lock N DEST ALIAS NEIGHBOUR QUALITY`
fn lock_line(before: &Network, words: &[&[u8]]) -> Result<Line, What>
    ensures { result ≡ lines.lock_line before.now (texts words.now) }
{
    match words {
        [number, dest, nick, neighbour, quality] => {
            lock(before, number, dest, nick, neighbour, quality)
        }
        _ => Err(What::Count),
    }
}

#[tactic(auto, unfolding(crate::specs::Lines::Instructions::lock_at))]
fn lock(
    before: &Network,
    number: &[u8],
    dest: &[u8],
    nick: &[u8],
    neighbour: &[u8],
    quality: &[u8],
) -> Result<Line, What>
    ensures { result ≡ lines.lock_at before.now number.now dest.now nick.now neighbour.now quality.now }
{
    let node = node(before.declared(), number)?;
    let dest = call(dest)?;
    let alias = alias(nick)?;
    let neighbour = call(neighbour)?;
    let quality = octet(quality)?;
    Ok(Line::Instruction(Instruction::Lock {
        node,
        dest,
        alias,
        neighbour,
        quality,
    }))
}

/// The number of a declared node, and nothing else.
pub fn node_alone(before: &Network, words: &[&[u8]]) -> Result<u8, What>
    ensures { result ≡ lines.node_alone before.now (texts words.now) }
{
    match words {
        [number] => node(before.declared(), number),
        _ => Err(What::Count),
    }
}

/// `round N`
fn round_line(before: &Network, words: &[&[u8]]) -> Result<Line, What>
    ensures { result ≡ as_line (lines.node_alone before.now (texts words.now)) instructions.Round }
{
    let node = node_alone(before, words)?;
    Ok(Line::Instruction(Instruction::Round { node }))
}

/// `show N`
fn show_line(before: &Network, words: &[&[u8]]) -> Result<Line, What>
    ensures { result ≡ as_line (lines.node_alone before.now (texts words.now)) instructions.Show }
{
    let node = node_alone(before, words)?;
    Ok(Line::Instruction(Instruction::Show { node }))
}

/// The number of a declared node, and a call.
pub fn node_and_call(before: &Network, words: &[&[u8]]) -> Result<(u8, Call), What>
    ensures { result ≡ lines.node_and_call before.now (texts words.now) }
{
    match words {
        [number, name] => node_and_call_of(before, number, name),
        _ => Err(What::Count),
    }
}

#[tactic(auto, unfolding(crate::specs::Lines::Instructions::node_and_call_at))]
fn node_and_call_of(before: &Network, number: &[u8], name: &[u8]) -> Result<(u8, Call), What>
    ensures { result ≡ lines.node_and_call_at before.now number.now name.now }
{
    let node = node(before.declared(), number)?;
    let call = call(name)?;
    Ok((node, call))
}

/// `linkfail N CALL`
fn linkfail_line(before: &Network, words: &[&[u8]]) -> Result<Line, What>
    ensures { result ≡ as_line (lines.node_and_call before.now (texts words.now))
        (λ link. instructions.LinkFail link.0 link.1) }
{
    let (node, call) = node_and_call(before, words)?;
    Ok(Line::Instruction(Instruction::LinkFail { node, call }))
}

/// `tick MS`
fn tick_line(words: &[&[u8]]) -> Result<Line, What>
    ensures { result ≡ lines.tick_line (texts words.now) }
{
    match words {
        [word] => tick(word),
        _ => Err(What::Count),
    }
}

#[tactic(auto, unfolding(crate::specs::Lines::Instructions::tick_at))]
fn tick(word: &[u8]) -> Result<Line, What>
    ensures { result ≡ lines.tick_at word.now }
{
    let milliseconds = time(word)?;
    Ok(Line::Instruction(Instruction::Tick { milliseconds }))
}

/// `restart N INDEX IDENT`
fn restart_line(before: &Network, words: &[&[u8]]) -> Result<Line, What>
    ensures { result ≡ lines.restart_line before.now (texts words.now) }
{
    match words {
        [number, index, ident] => restart(before, number, index, ident),
        _ => Err(What::Count),
    }
}

#[tactic(auto, unfolding(crate::specs::Lines::Instructions::restart_at))]
fn restart(before: &Network, number: &[u8], index: &[u8], ident: &[u8]) -> Result<Line, What>
    ensures { result ≡ lines.restart_at before.now number.now index.now ident.now }
{
    let node = node(before.declared(), number)?;
    let index = pair_part(index)?;
    let ident = pair_part(ident)?;
    let pair = FirstPair::new(index, ident);
    Ok(Line::Instruction(Instruction::Restart { node, pair }))
}

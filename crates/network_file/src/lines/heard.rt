//! The line `heard`. Called by `nodes`.
ghost use Rattle.std.specs.Prelude.{◌≡◌, ◌≤◌, ◌+◌, ◌*◌, ◌++◌, List, length, Ok, Err, IfOk, IsTrue, MatchResult};
ghost use Rattle.ax_address.specs.declared.entry.Entry.{Entry};
ghost use Rattle.text_lines.specs.Lines.{texts};
ghost use Rattle.network_file.specs.Lines.Instructions as lines;
ghost use Rattle.network_file.specs.declared.lines.Line.TheVariants as said;
ghost use Rattle.network_file.specs.declared.plan.instructions.Instruction.TheVariants as instructions;

use crate::lines::Line;
use crate::network::Network;
use crate::places::{alias, call, needs, node, octet};
use crate::plan::heard_nodes::HeardNodes;
use crate::plan::instructions::Instruction;
use crate::what::What;
use arrayvec::ArrayVec;
use ax_address::{Call, Entry, MAX_ENTRIES};
use nodes_broadcast::Nodes;
use std::alloc::{AllocError, Global};

/// `heard N CALL ALIAS`, and up to eleven times `DEST ALIAS BEST QUALITY`
pub fn heard_line(
    alloc: Global,
    before: &Network,
    words: &[&[u8]],
) -> Result<Result<Line, What>, AllocError>
    ensures { IfOk result (λ line. line ≡ lines.heard_line before.now (texts words.now)) }
{
    match words {
        [number, name, nick, rest @ ..] => broadcast(alloc, before, number, name, nick, rest),
        _ => Ok(Err(What::Count)),
    }
}

fn broadcast(
    alloc: Global,
    before: &Network,
    number: &[u8],
    name: &[u8],
    nick: &[u8],
    rest: &[&[u8]],
) -> Result<Result<Line, What>, AllocError>
    ensures { IfOk result (λ line. line ≡ lines.broadcast_at before.now number.now name.now nick.now (texts rest.now)) }
{
    match heard(before, number, name, nick, rest) {
        Ok((node, call, nodes)) => {
            let nodes = HeardNodes::new(alloc, nodes)?;
            Ok(Ok(Line::Instruction(Instruction::Heard { node, call, nodes })))
        }
        Err(what) => Ok(Err(what)),
    }
}

/// Which node hears a broadcast, whose, and what it says.
#[tactic(auto, unfolding(crate::specs::Lines::Instructions::broadcast_at))]
fn heard(
    before: &Network,
    number: &[u8],
    name: &[u8],
    nick: &[u8],
    rest: &[&[u8]],
) -> Result<(u8, Call, Nodes), What>
    ensures { MatchResult result
        (λ h. lines.broadcast_at before.now number.now name.now nick.now (texts rest.now)
        ≡ Ok (said.Instruction (instructions.Heard h.0 h.1 h.2)))
        (λ e. lines.broadcast_at before.now number.now name.now nick.now (texts rest.now) ≡ Err e) }
{
    needs(are_entries(rest), What::Count)?;
    let node = node(before.declared(), number)?;
    let call = call(name)?;
    let alias = alias(nick)?;
    let entries = entries_of(rest)?;
    Ok((node, call, Nodes { alias, entries }))
}

/// Four words to an entry, and at most eleven entries.
fn are_entries(words: &[&[u8]]) -> bool
    ensures value { result ≡ lines.are_entries (texts words.now) }
    ensures few { IsTrue result → length words.now ≤ 44 }
{
    words.len() % 4 == 0 && words.len() <= 4 * MAX_ENTRIES
}

fn entries_of(words: &[&[u8]]) -> Result<ArrayVec<Entry, MAX_ENTRIES>, What>
    requires { length words.now ≤ 44 }
    ensures { MatchResult result (λ v. lines.entries_at (texts words.now) ≡ Ok v.items)
        (λ e. lines.entries_at (texts words.now) ≡ Err e) }
{
    let mut entries = ArrayVec::new();
    add_entries(&mut entries, words)?;
    Ok(entries)
}

/// Adds the entries that the words spell, four words to an entry.
fn add_entries(entries: &mut ArrayVec<Entry, MAX_ENTRIES>, words: &[&[u8]]) -> Result<(), What>
    requires { 4 * length entries.old.items + length words.now ≤ 44 }
    ensures { MatchResult result
        (λ _. (more : List Entry) × (lines.entries_at (texts words.now) ≡ Ok more)
        × (entries.new.items ≡ entries.old.items ++ more))
        (λ e. lines.entries_at (texts words.now) ≡ Err e) }
{
    match words {
        [] => Ok(()),
        [dest, nick, best, quality, more @ ..] => {
            let entry = entry_of(dest, nick, best, quality)?;
            entries.push(entry);
            add_entries(entries, more)?;
            Ok(())
        }
        _ => Err(What::Count),
    }
}

#[tactic(auto, unfolding(crate::specs::Lines::Instructions::entry_at))]
fn entry_of(dest: &[u8], nick: &[u8], best: &[u8], quality: &[u8]) -> Result<Entry, What>
    ensures { result ≡ lines.entry_at dest.now nick.now best.now quality.now }
{
    let dest = call(dest)?;
    let alias = alias(nick)?;
    let best = call(best)?;
    let quality = octet(quality)?;
    Ok(Entry {
        dest,
        alias,
        best,
        quality,
    })
}

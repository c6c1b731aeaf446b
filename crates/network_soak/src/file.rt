//! The network file of a number: six nodes in a ring, each with a circuit to the one opposite, and 300 drawn lines. Called by the replay.
ghost use Rattle.std.specs.Prelude.{◌≡◌, ◌++◌, flat_map, OnOk, IfOk};
ghost use Rattle.network_soak.specs.Files as files;

use crate::draws::Draws;
use crate::lines::{LineKind, flow_line, line_of, say_line};
use radio_base::NoMemory;
use std::alloc::Global;

/// The network file of the number, of 369 lines.
#[tactic(auto, unfolding(crate::specs::Files::soak_file))]
pub fn soak_file(alloc: Global, seed: u64) -> Result<Vec<u8>, NoMemory>
    ensures { IfOk result (λ text. text.items ≡ files.soak_file seed) }
{
    let mut text = Vec::new(alloc);
    write_start(alloc, &mut text)?;
    write_drawn(alloc, seed, &mut text)?;
    write_end(alloc, &mut text)?;
    Ok(text)
}

/// What the nodes know of each other, and a circuit of each.
#[tactic(auto, unfolding(crate::specs::Files::start_text))]
fn write_start(alloc: Global, text: &mut Vec<u8>) -> Result<(), NoMemory>
    ensures { OnOk result (text.new.items ≡ text.old.items ++ files.start_text) }
{
    let kinds = [
        LineKind::Declare,
        LineKind::Join,
        LineKind::WithoutLinks,
        LineKind::Round,
        LineKind::Round,
        LineKind::Round,
        LineKind::Open,
    ];
    write_kinds(alloc, &kinds, text)?;
    text.extend_from_slice(b"flow 1000\n")?;
    Ok(())
}

fn write_kinds(alloc: Global, kinds: &[LineKind], text: &mut Vec<u8>) -> Result<(), NoMemory>
    ensures { OnOk result (text.new.items ≡ text.old.items ++ flat_map files.lines_of kinds.now) }
{
    for kind in kinds {
        write_lines(alloc, *kind, text)?;
    }
    Ok(())
}

/// The lines of that kind for all six nodes.
#[tactic(auto, unfolding(crate::specs::Files::lines_of))]
fn write_lines(alloc: Global, kind: LineKind, text: &mut Vec<u8>) -> Result<(), NoMemory>
    ensures { OnOk result (text.new.items ≡ text.old.items ++ files.lines_of kind) }
{
    write_each(alloc, kind, &[1, 2, 3, 4, 5, 6], text)
}

fn write_each(
    alloc: Global,
    kind: LineKind,
    nodes: &[u8],
    text: &mut Vec<u8>,
) -> Result<(), NoMemory>
    ensures { OnOk result (text.new.items ≡ text.old.items ++ flat_map (files.line_of kind) nodes.now) }
{
    for node in nodes {
        let line = line_of(alloc, kind, *node)?;
        text.extend_from_slice(line.as_bytes())?;
    }
    Ok(())
}

/// The drawn lines.
fn write_drawn(alloc: Global, seed: u64, text: &mut Vec<u8>) -> Result<(), NoMemory>
    ensures { OnOk result (text.new.items ≡ text.old.items ++ files.drawn_text 1 300 seed) }
{
    let mut draws = Draws { x: seed };
    for nth in 1..301u32 {
        write_one(alloc, nth, &mut draws, text)?;
    }
    Ok(())
}

/// A drawn line.
fn write_one(alloc: Global, nth: u32, draws: &mut Draws, text: &mut Vec<u8>) -> Result<(), NoMemory>
    ensures text { OnOk result (text.new.items ≡ text.old.items ++ (files.drawn nth draws.old.x).text) }
    ensures after { OnOk result (draws.new.x ≡ (files.drawn nth draws.old.x).after) }
{
    let node = draws.below(6) + 1;
    let kind = draws.below(4);
    if kind == 0 {
        let line = say_line(alloc, node, nth)?;
        text.extend_from_slice(line.as_bytes())?;
        Ok(())
    } else if kind == 1 {
        let line = flow_line(alloc, draws.below(20) + 1)?;
        text.extend_from_slice(line.as_bytes())?;
        Ok(())
    } else if kind == 2 {
        text.extend_from_slice(b"cut 1\n")?;
        Ok(())
    } else {
        text.extend_from_slice(b"tick 60000\n")?;
        Ok(())
    }
}

/// All that is in the air goes on, the circuits are closed, and all goes on again.
#[tactic(auto, unfolding(crate::specs::Files::end_text))]
fn write_end(alloc: Global, text: &mut Vec<u8>) -> Result<(), NoMemory>
    ensures { OnOk result (text.new.items ≡ text.old.items ++ files.end_text) }
{
    text.extend_from_slice(b"flow 100000\n")?;
    write_lines(alloc, LineKind::Close, text)?;
    text.extend_from_slice(b"flow 100000\n")?;
    Ok(())
}

//! The lines of a NODES broadcast. Called by `contents`.
ghost use Rattle.std.specs.Prelude.{◌≡◌, ◌++◌, flat_map, length, OnOk, IfOk, string_bytes};
ghost use Rattle.nodes_broadcast.specs.Nodes.{view};
ghost use Rattle.frame_lines.specs.NodesLines as lines;

use crate::words::nodes_fault;
use ax_address::Entry;
use nodes_broadcast::{Nodes, NodesRefusal, read_nodes};
use radio_base::{NoMemory, TextOut};
use std::alloc::{AllocError, Global};

/// The broadcast that the octets spell, or why they spell none.
pub(crate) fn write_nodes_text(
    alloc: Global,
    info: &[u8],
    out: &mut TextOut,
) -> Result<(), NoMemory>
    ensures { OnOk result (out.new ≡ out.old ++ lines.nodes_text info.now) }
{
    match read_nodes(info) {
        Ok(nodes) => write_broadcast(alloc, &nodes, out),
        Err(why) => {
            let line = bad_line(alloc, why)?;
            out.text(line.as_str())?;
            Ok(())
        }
    }
}

fn write_broadcast(alloc: Global, nodes: &Nodes, out: &mut TextOut) -> Result<(), NoMemory>
    ensures { OnOk result (out.new ≡ out.old ++ lines.broadcast_text (view nodes.now)) }
{
    let line = head_line(alloc, nodes)?;
    out.text(line.as_str())?;
    write_entries(alloc, nodes.entries.as_slice(), out)?;
    Ok(())
}

fn write_entries(alloc: Global, entries: &[Entry], out: &mut TextOut) -> Result<(), NoMemory>
    ensures { OnOk result (out.new ≡ out.old ++ flat_map lines.entry_line entries.now) }
{
    for entry in entries {
        let line = entry_line(alloc, entry)?;
        out.text(line.as_str())?;
    }
    Ok(())
}

/// `nodes ALIAS entries=N`
fn head_line(alloc: Global, nodes: &Nodes) -> Result<String, AllocError>
    ensures { IfOk result (λ s. string_bytes s ≡ lines.head_line (view nodes.now)) }
{
    let alias = nodes.alias.show();
    let alias = alias.as_str();
    let count = nodes.entries.len();
    format!(in alloc; "  nodes {alias} entries={count}\n")
}

/// `DEST ALIAS best=NEIGHBOUR quality=Q`
fn entry_line(alloc: Global, entry: &Entry) -> Result<String, AllocError>
    ensures { IfOk result (λ s. string_bytes s ≡ lines.entry_line entry.now) }
{
    let dest = entry.dest.show();
    let dest = dest.as_str();
    let alias = entry.alias.show();
    let alias = alias.as_str();
    let best = entry.best.show();
    let best = best.as_str();
    let quality = entry.quality;
    format!(in alloc; "    {dest} {alias} best={best} quality={quality}\n")
}

fn bad_line(alloc: Global, why: NodesRefusal) -> Result<String, AllocError>
    ensures { IfOk result (λ s. string_bytes s ≡ lines.bad_line why) }
{
    let why = nodes_fault(alloc, why)?;
    let why = why.as_str();
    format!(in alloc; "  bad nodes {why}\n")
}

//! The destinations of a station. Called by the crates that run a station.
ghost use Rattle.std.specs.Prelude.{◌≡◌, ◌++◌, ◌≤◌, ◌+◌, length, OnOk};
ghost use Rattle.station_lists.specs.Lists as lists;

use crate::more::{add_more, first_of};
use arrayvec::ArrayString;
use ax_address::{Alias, Call};
use radio_base::{NoMemory, TextOut};
use station_prompt::name_of;
use std::alloc::Global;

/// The most destinations that a reply names (this project's profile).
const MOST_NAMED: usize = 200;

/// How wide a destination is that doesn't end its line.
const WIDTH: usize = 18;

/// A destination by its names.
#[derive(Clone, Copy, Debug, PartialEq, Eq)]
pub struct Destination {
    pub alias: Alias,
    pub call: Call,
}

/// Adds the destinations, four to a line, and how many there are beside the first 200.
pub fn add_destinations(
    alloc: Global,
    all: &[Destination],
    reply: &mut TextOut,
) -> Result<(), NoMemory>
    ensures { OnOk result (reply.new ≡ reply.old ++ lists.destinations_text all.now) }
{
    let named = first_of(MOST_NAMED, all);
    reply.text("Nodes:\r")?;
    add_lines(named, reply)?;
    add_more(alloc, all.len().saturating_sub(MOST_NAMED), reply)
}

/// Adds lines of four destinations each, but for the last one, which has what is left.
fn add_lines(named: &[Destination], reply: &mut TextOut) -> Result<(), NoMemory>
    ensures { OnOk result (reply.new ≡ reply.old ++ lists.destination_lines named.now) }
{
    match named {
        [] => Ok(()),
        [a] => add_last(a, reply),
        [a, b] => {
            add_padded(a, reply)?;
            add_last(b, reply)
        }
        [a, b, c] => {
            add_padded(a, reply)?;
            add_padded(b, reply)?;
            add_last(c, reply)
        }
        [a, b, c, d, more @ ..] => {
            add_padded(a, reply)?;
            add_padded(b, reply)?;
            add_padded(c, reply)?;
            add_last(d, reply)?;
            add_lines(more, reply)
        }
    }
}

/// Adds a destination that doesn't end its line.
fn add_padded(node: &Destination, reply: &mut TextOut) -> Result<(), NoMemory>
    ensures { OnOk result (reply.new ≡ reply.old ++ lists.padded_destination node.now) }
{
    reply.text(padded(node).as_str())?;
    Ok(())
}

/// Adds a destination that ends its line.
fn add_last(node: &Destination, reply: &mut TextOut) -> Result<(), NoMemory>
    ensures { OnOk result (reply.new ≡ reply.old ++ lists.last_destination node.now) }
{
    reply.text(name_of(&node.alias, &node.call).as_str())?;
    reply.text("\r")?;
    Ok(())
}

/// ALIAS:CALL with spaces behind it.
fn padded(node: &Destination) -> ArrayString<WIDTH>
    ensures { result.bytes ≡ lists.padded (lists.destination node.now) }
{
    let mut cell = ArrayString::new();
    cell.push_str(name_of(&node.alias, &node.call).as_str());
    let spaces = WIDTH - cell.len();
    push_spaces(spaces, &mut cell);
    cell
}

/// Adds so many spaces.
fn push_spaces(count: usize, cell: &mut ArrayString<WIDTH>)
    requires { length cell.old.bytes + count ≤ 18 }
    ensures { cell.new.bytes ≡ cell.old.bytes ++ lists.spaces count }
{
    if count > 0 {
        cell.push(' ');
        push_spaces(count - 1, cell);
    }
}

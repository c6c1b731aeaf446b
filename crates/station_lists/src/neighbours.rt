//! The neighbours to which a direct route leads. Called by the crates that run a station.
ghost use Rattle.std.specs.Prelude.{◌≡◌, ◌++◌, IfOk, OnOk, flat_map, string_bytes};
ghost use Rattle.station_lists.specs.Lists as lists;

use crate::Place;
use crate::more::{add_more, first_of};
use ax_address::{Alias, Call};
use radio_base::{NoMemory, TextOut};
use std::alloc::{AllocError, Global};

/// The most neighbours that a reply names (this project's profile).
const MOST_NAMED: usize = 100;

/// A neighbour of a member.
#[derive(Clone, Copy, Debug)]
pub struct NeighbourRow<'a> {
    /// Whether a link with it stands.
    pub has_link: bool,
    pub member: Alias,
    pub call: Call,
    pub quality: u8,
    pub place: Place<'a>,
}

/// Adds the neighbours, and how many there are beside the first 100.
pub fn add_neighbours(
    alloc: Global,
    all: &[NeighbourRow<'_>],
    reply: &mut TextOut,
) -> Result<(), NoMemory>
    ensures { OnOk result (reply.new ≡ reply.old ++ lists.neighbours_text all.now) }
{
    let named = first_of(MOST_NAMED, all);
    reply.text("Routes:\r")?;
    add_rows(alloc, named, reply)?;
    add_more(alloc, all.len().saturating_sub(MOST_NAMED), reply)
}

fn add_rows(alloc: Global, rows: &[NeighbourRow<'_>], reply: &mut TextOut) -> Result<(), NoMemory>
    ensures { OnOk result (reply.new ≡ reply.old ++ flat_map lists.neighbour_line rows.now) }
{
    for row in rows {
        let line = line_of(alloc, row)?;
        reply.text(line.as_str())?;
    }
    Ok(())
}

/// MEMBER CALL QUALITY PORT, and `> ` before it where a link stands.
fn line_of(alloc: Global, row: &NeighbourRow<'_>) -> Result<String, AllocError>
    ensures { IfOk result (λ s. string_bytes s ≡ lists.neighbour_line row.now) }
{
    let mark = mark_of(row.has_link);
    let member = row.member.show();
    let member = member.as_str();
    let call = row.call.show();
    let call = call.as_str();
    let quality = row.quality;
    let place = row.place.text();
    format!(in alloc; "{mark}{member} {call} {quality} {place}\r")
}

fn mark_of(has_link: bool) -> &'static str
    ensures { result.now ≡ lists.link_mark has_link }
{
    if has_link { "> " } else { "" }
}

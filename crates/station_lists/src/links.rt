//! The links of a station. Called by the crates that run a station.
ghost use Rattle.std.specs.Prelude.{◌≡◌, ◌++◌, IfOk, OnOk, flat_map, string_bytes};
ghost use Rattle.station_lists.specs.Lists as lists;

use crate::Place;
use crate::more::{add_more, first_of};
use ax_address::{Alias, Call};
use ax_link::LinkPhase;
use radio_base::{NoMemory, TextOut};
use std::alloc::{AllocError, Global};

/// The most links that a reply names (this project's profile).
const MOST_NAMED: usize = 100;

/// A link of a member.
#[derive(Clone, Copy, Debug)]
pub struct LinkRow<'a> {
    pub member: Alias,
    pub peer: Call,
    pub place: Place<'a>,
    pub phase: LinkPhase,
    /// How many payloads the peer hasn't acknowledged.
    pub held: usize,
}

/// Adds the links, and how many there are beside the first 100.
pub fn add_links(alloc: Global, all: &[LinkRow<'_>], reply: &mut TextOut) -> Result<(), NoMemory>
    ensures { OnOk result (reply.new ≡ reply.old ++ lists.links_text all.now) }
{
    let named = first_of(MOST_NAMED, all);
    reply.text("Links:\r")?;
    add_rows(alloc, named, reply)?;
    add_more(alloc, all.len().saturating_sub(MOST_NAMED), reply)
}

fn add_rows(alloc: Global, rows: &[LinkRow<'_>], reply: &mut TextOut) -> Result<(), NoMemory>
    ensures { OnOk result (reply.new ≡ reply.old ++ flat_map lists.link_line rows.now) }
{
    for row in rows {
        let line = line_of(alloc, row)?;
        reply.text(line.as_str())?;
    }
    Ok(())
}

/// MEMBER CALL PORT PHASE HELD
fn line_of(alloc: Global, row: &LinkRow<'_>) -> Result<String, AllocError>
    ensures { IfOk result (λ s. string_bytes s ≡ lists.link_line row.now) }
{
    let member = row.member.show();
    let member = member.as_str();
    let peer = row.peer.show();
    let peer = peer.as_str();
    let place = row.place.text();
    let phase = phase_text(row.phase);
    let held = row.held;
    format!(in alloc; "{member} {peer} {place} {phase} {held}\r")
}

fn phase_text(phase: LinkPhase) -> &'static str
    ensures { result.now ≡ lists.phase_text phase }
{
    match phase {
        LinkPhase::Down => "down",
        LinkPhase::SettingUp => "setting up",
        LinkPhase::Up => "up",
        LinkPhase::Releasing => "releasing",
    }
}

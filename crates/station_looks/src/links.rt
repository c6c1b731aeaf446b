//! The links of members. Called by `looks`.
ghost use Rattle.std.specs.Prelude.{◌≡◌, ◌++◌, map, flat_map, IfOk, OnOk};
ghost use Rattle.station_lists.specs.Lists as lists;
ghost use Rattle.station_members.specs.Standing.{MembersStand};
ghost use Rattle.station_members.specs.States.{State};
ghost use Rattle.station_looks.specs.Rows as rows;

use crate::About;
use crate::adding::push_row;
use crate::nodes::{link_at, peers_at};
use crate::reached::link_place;
use ax_address::{Alias, Call};
use radio_base::{NoMemory, TextOut};
use station_lists::{LinkRow, add_links};
use station_members::Members;
use std::alloc::Global;

/// Adds the links of the members, in the order of their making.
pub(crate) fn see_links(
    alloc: Global,
    members: &Members,
    about: &About,
    text: &mut TextOut,
) -> Result<(), NoMemory>
    ensures { OnOk result ((s : State) → MembersStand members.now s
        → text.new ≡ text.old ++ lists.links_text (rows.link_rows about.now s)) }
{
    let all = link_rows(alloc, members, about)?;
    add_links(alloc, &all, text)?;
    Ok(())
}

fn link_rows<'a>(
    alloc: Global,
    members: &Members,
    about: &'a About,
) -> Result<Vec<LinkRow<'a>>, NoMemory>
    ensures { IfOk result (λ all. (s : State) → MembersStand members.now s
        → map lists.link_line all.items ≡ map lists.link_line (rows.link_rows about.now s)) }
{
    let mut all = Vec::new(alloc);
    for at in 0..members.len() {
        add_links_at(members, about, at, &mut all)?;
    }
    Ok(all)
}

fn add_links_at<'a>(
    members: &Members,
    about: &'a About,
    at: usize,
    all: &mut Vec<LinkRow<'a>>,
) -> Result<(), NoMemory>
    ensures { OnOk result ((s : State) → MembersStand members.now s
        → map lists.link_line all.new.items ≡ map lists.link_line all.old.items
        ++ map lists.link_line (rows.by_member (rows.link_rows_at about.now s) s at)) }
{
    match members.alias(at) {
        Some(member) => add_rows(members, about, at, member, &peers_at(members, at), all),
        None => Ok(()),
    }
}

fn add_rows<'a>(
    members: &Members,
    about: &'a About,
    at: usize,
    member: Alias,
    peers: &[Call],
    all: &mut Vec<LinkRow<'a>>,
) -> Result<(), NoMemory>
    ensures { OnOk result ((s : State) → MembersStand members.now s
        → map lists.link_line all.new.items ≡ map lists.link_line all.old.items
        ++ map lists.link_line (flat_map (rows.link_to about.now s at member) peers.now)) }
{
    for peer in peers {
        add_row(members, about, at, member, peer, all)?;
    }
    Ok(())
}

/// Adds the row of the link with a peer, where one stands.
fn add_row<'a>(
    members: &Members,
    about: &'a About,
    at: usize,
    member: Alias,
    peer: &Call,
    all: &mut Vec<LinkRow<'a>>,
) -> Result<(), NoMemory>
    ensures { OnOk result ((s : State) → MembersStand members.now s
        → map lists.link_line all.new.items ≡ map lists.link_line all.old.items
        ++ map lists.link_line (rows.link_to about.now s at member peer.now)) }
{
    match link_at(members, at, peer) {
        Some(facts) => {
            let row = LinkRow {
                member,
                peer: *peer,
                place: link_place(members, about, at, peer),
                phase: facts.phase,
                held: facts.held,
            };
            push_row(&row, all)
        }
        None => Ok(()),
    }
}

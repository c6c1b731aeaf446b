//! The destinations that members know. Called by `looks` and `stats`.
ghost use Rattle.std.specs.Prelude.{◌≡◌, ◌++◌, ◌∷◌, [], flat_map, map, IfOk, OnOk};
ghost use Rattle.std.specs.Option.{option_to_list};
ghost use Rattle.std.specs.List.{list_any, range_with_len};
ghost use Rattle.station_lists.specs.Lists as lists;
ghost use Rattle.station_members.specs.Standing.{MembersStand};
ghost use Rattle.station_members.specs.States.{State};
ghost use Rattle.station_prompt.specs.Asked as asks;
ghost use Rattle.station_looks.specs.Rows as rows;

use crate::adding::push_some;
use crate::nodes::{best_at, destinations_at, is_member};
use ax_address::{Alias, Call};
use radio_base::{NoMemory, TextOut};
use station_lists::{Destination, add_destinations};
use station_members::Members;
use station_prompt::NodesAsked;
use std::alloc::Global;
use std::collections::BTreeSet;

/// A destination, in the order of aliases and then of calls.
#[derive(Clone, Copy, Debug, PartialEq, Eq, PartialOrd, Ord)]
pub(crate) struct Known {
    pub(crate) alias: Alias,
    pub(crate) call: Call,
}

/// Adds the destinations that are asked for, by alias and then by call.
pub(crate) fn see_destinations(
    alloc: Global,
    members: &Members,
    asked: &NodesAsked<'_>,
    text: &mut TextOut,
) -> Result<(), NoMemory>
    ensures { OnOk result ((s : State) → MembersStand members.now s
        → text.new ≡ text.old ++ lists.destinations_text (rows.destinations (asks.nodes_asked asked.now) s)) }
{
    let all = all_known(alloc, members)?;
    let placed = placed(alloc, &all, asked)?;
    let listed = listed(alloc, &placed)?;
    add_destinations(alloc, &listed, text)?;
    Ok(())
}

/// The destinations of all members, each once, by the alias that the first member knows it by. Members are none.
pub(crate) fn all_known(alloc: Global, members: &Members) -> Result<Vec<Known>, NoMemory>
    ensures { IfOk result (λ known. (s : State) → MembersStand members.now s → known.items ≡ rows.known s) }
{
    let mut all = Vec::new(alloc);
    for at in 0..members.len() {
        add_known_at(alloc, members, at, &mut all)?;
    }
    Ok(all)
}

/// Adds those of the member at a place that no member before it knows.
fn add_known_at(
    alloc: Global,
    members: &Members,
    at: usize,
    all: &mut Vec<Known>,
) -> Result<(), NoMemory>
    ensures { OnOk result ((s : State) → MembersStand members.now s
        → all.new.items ≡ all.old.items ++ rows.known_at s at) }
{
    let dests = destinations_at(alloc, members, at)?;
    add_known(members, at, &dests, all)
}

/// The same of some of its destinations.
fn add_known(
    members: &Members,
    at: usize,
    dests: &[Call],
    all: &mut Vec<Known>,
) -> Result<(), NoMemory>
    ensures { OnOk result ((s : State) → MembersStand members.now s
        → all.new.items ≡ all.old.items ++ flat_map (rows.known_to s at) dests.now) }
{
    for dest in dests {
        push_some(known_to(members, at, dest), all)?;
    }
    Ok(())
}

fn known_to(members: &Members, at: usize, dest: &Call) -> Option<Known>
    ensures { (s : State) → MembersStand members.now s → option_to_list result ≡ rows.known_to s at dest.now }
{
    if is_member(members, dest) || is_known_before(members, at, dest) {
        return None;
    }
    match best_at(members, at, dest) {
        Some(route) => Some(Known {
            alias: route.alias,
            call: *dest,
        }),
        None => None,
    }
}

/// Whether a member before the one at a place knows a destination.
fn is_known_before(members: &Members, at: usize, dest: &Call) -> bool
    ensures { (s : State) → MembersStand members.now s → result ≡ rows.is_known_before at dest.now s }
{
    for before in 0..at {
        if best_at(members, before, dest).is_some() {
            return true;
        }
    }
    false
}

/// Those that are asked for, each at its place.
fn placed(alloc: Global, all: &[Known], asked: &NodesAsked<'_>) -> Result<BTreeSet<Known>, NoMemory>
    ensures { IfOk result (λ placed. placed.keys ≡ rows.in_order (rows.asked_for (asks.nodes_asked asked.now) all.now)) }
{
    let mut placed = BTreeSet::new(alloc);
    for known in all {
        place(known, asked, &mut placed)?;
    }
    Ok(placed)
}

/// Puts one at its place, where it is asked for.
fn place(
    known: &Known,
    asked: &NodesAsked<'_>,
    placed: &mut BTreeSet<Known>,
) -> Result<(), NoMemory>
    ensures { OnOk result (placed.new.keys
        ≡ rows.all_placed placed.old.keys (rows.asked_for (asks.nodes_asked asked.now) (known.now ∷ []))) }
{
    if is_asked(&known.alias, asked) {
        placed.insert(*known)?;
        Ok(())
    } else {
        Ok(())
    }
}

/// What is listed of them.
fn listed(alloc: Global, placed: &BTreeSet<Known>) -> Result<Vec<Destination>, NoMemory>
    ensures { IfOk result (λ listed. listed.items ≡ map rows.destination placed.now.keys) }
{
    let mut listed = Vec::new(alloc);
    for known in placed.iter() {
        listed.push(Destination {
            alias: known.alias,
            call: known.call,
        })?;
    }
    Ok(listed)
}

/// Whether a destination of this alias is one that is asked for.
fn is_asked(alias: &Alias, asked: &NodesAsked<'_>) -> bool
    ensures { result ≡ rows.is_asked (asks.nodes_asked asked.now) alias.now }
{
    match asked {
        NodesAsked::Shown => !alias.show().as_bytes().starts_with(b"#"),
        NodesAsked::All => true,
        NodesAsked::Beginning(front) => begins_with(alias.show().as_bytes(), front),
        NodesAsked::RoutesTo(_) => false,
    }
}

/// Whether a text begins so, without regard to case.
fn begins_with(text: &[u8], front: &[u8]) -> bool
    ensures { result ≡ rows.begins_with text.now front.now }
{
    text.len() >= front.len() && text[..front.len()].eq_ignore_ascii_case(front)
}

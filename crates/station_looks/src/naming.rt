//! Which node a word names. Called by `routes`, and by the crates that serve users.
ghost use Rattle.std.specs.Prelude.{◌≡◌, flat_map, IfOk};
ghost use Rattle.std.specs.Option.{option_to_list};
ghost use Rattle.ax_address.specs.Callsign.{call_at};
ghost use Rattle.station_members.specs.Standing.{MembersStand};
ghost use Rattle.station_members.specs.States.{State};
ghost use Rattle.station_looks.specs.Naming as naming;

use crate::nodes::{best_at, destinations_at, is_member};
use crate::ways::{Way, better, is_but};
use ax_address::{Alias, Call};
use radio_base::NoMemory;
use station_members::Members;
use std::alloc::Global;

/// What a word names.
#[derive(Clone, Copy, Debug, PartialEq, Eq)]
pub enum Named {
    /// The member at this place, by its alias or call.
    Member(usize),
    /// A node that is none, by its call, or by the alias that a member knows it by.
    Node(Call),
    /// Nothing: no alias that is known, and no call.
    Nothing,
}

/// What a word in capital letters names, by what all members know but one.
pub fn named_by(
    alloc: Global,
    members: &Members,
    word: &[u8],
    but: Option<usize>,
) -> Result<Named, NoMemory>
    ensures { IfOk result (λ named. (s : State) → MembersStand members.now s → named ≡ naming.named but word.now s) }
{
    match member_named(members, word) {
        Some(at) => Ok(Named::Member(at)),
        None => {
            let way = way_named(alloc, members, word, but)?;
            Ok(named_as_node(word, way))
        }
    }
}

fn named_as_node(word: &[u8], way: Option<Way>) -> Named
    ensures { result ≡ naming.named_as_node word.now way }
{
    match way {
        Some(way) => Named::Node(way.route.dest),
        None => named_as_call(word),
    }
}

fn named_as_call(word: &[u8]) -> Named
    ensures { result ≡ naming.named_as_call (call_at word.now) }
{
    match Call::read(word) {
        Ok(call) => Named::Node(call),
        Err(_) => Named::Nothing,
    }
}

/// The first member of this alias or call.
fn member_named(members: &Members, word: &[u8]) -> Option<usize>
    ensures { (s : State) → MembersStand members.now s → result ≡ naming.member_named word.now s }
{
    for at in 0..members.len() {
        if is_member_named(members, at, word) {
            return Some(at);
        }
    }
    None
}

fn is_member_named(members: &Members, at: usize, word: &[u8]) -> bool
    ensures { (s : State) → MembersStand members.now s → result ≡ naming.is_member_named word.now s at }
{
    match (members.alias(at), members.call(at)) {
        (Some(alias), Some(call)) => is_name(&alias, &call, word),
        _ => false,
    }
}

fn is_name(alias: &Alias, call: &Call, word: &[u8]) -> bool
    ensures { result ≡ naming.is_name word.now alias.now call.now }
{
    is_alias(alias, word) || call.show().as_bytes() == word
}

/// Whether a word is an alias, without regard to case.
fn is_alias(alias: &Alias, word: &[u8]) -> bool
    ensures { result ≡ naming.is_alias word.now alias.now }
{
    alias.show().as_bytes().eq_ignore_ascii_case(word)
}

/// The best way to a destination of this alias: of the highest quality, then of the first member, then to the lowest call.
fn way_named(
    alloc: Global,
    members: &Members,
    word: &[u8],
    but: Option<usize>,
) -> Result<Option<Way>, NoMemory>
    ensures { IfOk result (λ way. (s : State) → MembersStand members.now s → way ≡ naming.way_named but word.now s) }
{
    let mut best = None;
    for at in 0..members.len() {
        best = better(best, way_named_at(alloc, members, at, word, but)?);
    }
    Ok(best)
}

/// The same of the member at a place, unless that is the one that is left out.
fn way_named_at(
    alloc: Global,
    members: &Members,
    at: usize,
    word: &[u8],
    but: Option<usize>,
) -> Result<Option<Way>, NoMemory>
    ensures { IfOk result (λ way. (s : State) → MembersStand members.now s
        → way ≡ naming.best_of (naming.ways_named_at but word.now s at)) }
{
    if is_but(but, at) {
        return Ok(None);
    }
    let dests = destinations_at(alloc, members, at)?;
    Ok(best_named(members, at, word, &dests))
}

/// The same of some of its destinations.
fn best_named(members: &Members, at: usize, word: &[u8], dests: &[Call]) -> Option<Way>
    ensures { (s : State) → MembersStand members.now s
        → result ≡ naming.best_of (flat_map (naming.ways_named_to word.now s at) dests.now) }
{
    let mut best = None;
    for dest in dests {
        best = better(best, way_named_to(members, at, word, dest));
    }
    best
}

/// Its best route to a destination of this alias that is no member. A destination has the alias of its best route.
fn way_named_to(members: &Members, at: usize, word: &[u8], dest: &Call) -> Option<Way>
    ensures { (s : State) → MembersStand members.now s
        → option_to_list result ≡ naming.ways_named_to word.now s at dest.now }
{
    if is_member(members, dest) {
        return None;
    }
    match best_at(members, at, dest) {
        Some(route) if is_alias(&route.alias, word) => Some(Way { member: at, route }),
        _ => None,
    }
}

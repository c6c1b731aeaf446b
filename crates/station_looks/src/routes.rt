//! The routes to what a word names. Called by `looks`.
ghost use Rattle.std.specs.Prelude.{◌≡◌, ◌++◌, map, IfOk, OnOk};
ghost use Rattle.station_members.specs.Standing.{MembersStand};
ghost use Rattle.station_members.specs.States.{State};
ghost use Rattle.station_looks.specs.Replies as replies;
ghost use Rattle.station_looks.specs.Rows as rows;

use crate::naming::{Named, named_by};
use crate::nodes::routes_at;
use crate::showing::shown;
use ax_address::{Alias, Call};
use radio_base::{NoMemory, TextOut};
use route_table::Route;
use station_lists::{MemberRoute, Told, add_routes, add_told};
use station_members::Members;
use std::alloc::Global;

/// Adds the routes to what a word names, or that it names nothing, or that no route leads there.
pub(crate) fn see_routes_to(
    alloc: Global,
    members: &Members,
    word: &[u8],
    text: &mut TextOut,
) -> Result<(), NoMemory>
    ensures { OnOk result ((s : State) → MembersStand members.now s
        → text.new ≡ text.old ++ replies.routes_named word.now s) }
{
    let named = named_by(alloc, members, word, None)?;
    match call_of(members, named) {
        Some(dest) => add_routes_to(alloc, members, word, &dest, text),
        None => add_told(&Told::BadCall(word), text),
    }
}

fn call_of(members: &Members, named: Named) -> Option<Call>
    ensures { (s : State) → MembersStand members.now s → result ≡ replies.call_of s named }
{
    match named {
        Named::Member(at) => members.call(at),
        Named::Node(call) => Some(call),
        Named::Nothing => None,
    }
}

fn add_routes_to(
    alloc: Global,
    members: &Members,
    word: &[u8],
    dest: &Call,
    text: &mut TextOut,
) -> Result<(), NoMemory>
    ensures { OnOk result ((s : State) → MembersStand members.now s
        → text.new ≡ text.old ++ replies.routes_among word.now dest.now s (rows.route_rows dest.now s)) }
{
    let routes = route_rows(alloc, members, dest)?;
    if routes.is_empty() {
        return add_told(&Told::NoRoute(word), text);
    }
    add_routes(alloc, &shown(members, dest), &routes, text)
}

/// The routes of each member to a node.
fn route_rows(alloc: Global, members: &Members, dest: &Call) -> Result<Vec<MemberRoute>, NoMemory>
    ensures { IfOk result (λ all. (s : State) → MembersStand members.now s → all.items ≡ rows.route_rows dest.now s) }
{
    let mut all = Vec::new(alloc);
    for at in 0..members.len() {
        add_routes_at(members, at, dest, &mut all)?;
    }
    Ok(all)
}

fn add_routes_at(
    members: &Members,
    at: usize,
    dest: &Call,
    all: &mut Vec<MemberRoute>,
) -> Result<(), NoMemory>
    ensures { OnOk result ((s : State) → MembersStand members.now s
        → all.new.items ≡ all.old.items ++ rows.by_member (rows.route_rows_at dest.now s) s at) }
{
    match members.alias(at) {
        Some(member) => add_rows(member, &routes_at(members, at, dest), all),
        None => Ok(()),
    }
}

fn add_rows(member: Alias, routes: &[Route], all: &mut Vec<MemberRoute>) -> Result<(), NoMemory>
    ensures { OnOk result (all.new.items ≡ all.old.items ++ map (rows.member_route member) routes.now) }
{
    for route in routes {
        all.push(MemberRoute {
            member,
            route: *route,
        })?;
    }
    Ok(())
}

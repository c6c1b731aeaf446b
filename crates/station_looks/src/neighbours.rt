//! The neighbours of members. Called by `looks`.
ghost use Rattle.std.specs.Prelude.{◌≡◌, ◌++◌, map, flat_map, IfOk, OnOk};
ghost use Rattle.station_lists.specs.Lists as lists;
ghost use Rattle.station_members.specs.Standing.{MembersStand};
ghost use Rattle.station_members.specs.States.{State};
ghost use Rattle.station_looks.specs.Rows as rows;

use crate::About;
use crate::adding::push_row;
use crate::nodes::{all_routes_at, link_at};
use crate::reached::neighbour_place;
use ax_address::Alias;
use radio_base::{NoMemory, TextOut};
use route_table::Route;
use station_lists::{NeighbourRow, add_neighbours};
use station_members::Members;
use std::alloc::Global;

/// Adds the neighbours: the destinations to which a direct route of a member leads.
pub(crate) fn see_neighbours(
    alloc: Global,
    members: &Members,
    about: &About,
    text: &mut TextOut,
) -> Result<(), NoMemory>
    ensures { OnOk result ((s : State) → MembersStand members.now s
        → text.new ≡ text.old ++ lists.neighbours_text (rows.neighbour_rows about.now s)) }
{
    let all = neighbour_rows(alloc, members, about)?;
    add_neighbours(alloc, &all, text)?;
    Ok(())
}

fn neighbour_rows<'a>(
    alloc: Global,
    members: &Members,
    about: &'a About,
) -> Result<Vec<NeighbourRow<'a>>, NoMemory>
    ensures { IfOk result (λ all. (s : State) → MembersStand members.now s
        → map lists.neighbour_line all.items ≡ map lists.neighbour_line (rows.neighbour_rows about.now s)) }
{
    let mut all = Vec::new(alloc);
    for at in 0..members.len() {
        add_neighbours_at(alloc, members, about, at, &mut all)?;
    }
    Ok(all)
}

fn add_neighbours_at<'a>(
    alloc: Global,
    members: &Members,
    about: &'a About,
    at: usize,
    all: &mut Vec<NeighbourRow<'a>>,
) -> Result<(), NoMemory>
    ensures { OnOk result ((s : State) → MembersStand members.now s
        → map lists.neighbour_line all.new.items ≡ map lists.neighbour_line all.old.items
        ++ map lists.neighbour_line (rows.by_member (rows.neighbour_rows_at about.now s) s at)) }
{
    match members.alias(at) {
        Some(member) => {
            let routes = all_routes_at(alloc, members, at)?;
            add_rows(members, about, at, member, &routes, all)
        }
        None => Ok(()),
    }
}

fn add_rows<'a>(
    members: &Members,
    about: &'a About,
    at: usize,
    member: Alias,
    routes: &[Route],
    all: &mut Vec<NeighbourRow<'a>>,
) -> Result<(), NoMemory>
    ensures { OnOk result ((s : State) → MembersStand members.now s
        → map lists.neighbour_line all.new.items ≡ map lists.neighbour_line all.old.items
        ++ map lists.neighbour_line (flat_map (rows.neighbour_by about.now s at member) routes.now)) }
{
    for route in routes {
        add_row(members, about, at, member, route, all)?;
    }
    Ok(())
}

/// Adds the row of a route, where that is a direct one.
fn add_row<'a>(
    members: &Members,
    about: &'a About,
    at: usize,
    member: Alias,
    route: &Route,
    all: &mut Vec<NeighbourRow<'a>>,
) -> Result<(), NoMemory>
    ensures { OnOk result ((s : State) → MembersStand members.now s
        → map lists.neighbour_line all.new.items ≡ map lists.neighbour_line all.old.items
        ++ map lists.neighbour_line (rows.neighbour_by about.now s at member route.now)) }
{
    if route.dest == route.neighbour {
        push_row(&row_of(members, about, at, member, route), all)
    } else {
        Ok(())
    }
}

fn row_of<'a>(
    members: &Members,
    about: &'a About,
    at: usize,
    member: Alias,
    route: &Route,
) -> NeighbourRow<'a>
    ensures { (s : State) → MembersStand members.now s
        → lists.neighbour_line result ≡ lists.neighbour_line (rows.neighbour_row about.now s at member route.now) }
{
    NeighbourRow {
        has_link: link_at(members, at, &route.dest).is_some(),
        member,
        call: route.dest,
        quality: route.quality,
        place: neighbour_place(members, about, at, &route.dest),
    }
}

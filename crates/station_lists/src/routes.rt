//! The routes to a node. Called by the crates that run a station.
ghost use Rattle.std.specs.Prelude.{◌≡◌, ◌++◌, IfOk, OnOk, string_bytes};
ghost use Rattle.station_lists.specs.Lists as lists;

use crate::ShownNode;
use ax_address::Alias;
use radio_base::{NoMemory, TextOut};
use route_table::Route;
use std::alloc::{AllocError, Global};

/// A route of a member.
#[derive(Clone, Copy, Debug, PartialEq, Eq)]
pub struct MemberRoute {
    pub member: Alias,
    pub route: Route,
}

/// Adds the routes of members to a node.
pub fn add_routes(
    alloc: Global,
    dest: &ShownNode,
    routes: &[MemberRoute],
    reply: &mut TextOut,
) -> Result<(), NoMemory>
    ensures { OnOk result (reply.new ≡ reply.old ++ lists.routes_text dest.now routes.now) }
{
    let head = head_line(alloc, dest)?;
    reply.text(head.as_str())?;
    for route in routes {
        let line = route_line(alloc, route)?;
        reply.text(line.as_str())?;
    }
    Ok(())
}

fn head_line(alloc: Global, dest: &ShownNode) -> Result<String, AllocError>
    ensures { IfOk result (λ s. string_bytes s ≡ lists.routes_head dest.now) }
{
    let dest = dest.text();
    let dest = dest.as_str();
    format!(in alloc; "Routes to {dest}:\r")
}

/// MEMBER QUALITY COUNT NEIGHBOUR
fn route_line(alloc: Global, row: &MemberRoute) -> Result<String, AllocError>
    ensures { IfOk result (λ s. string_bytes s ≡ lists.route_line row.now) }
{
    let member = row.member.show();
    let member = member.as_str();
    let quality = row.route.quality;
    let neighbour = row.route.neighbour.show();
    let neighbour = neighbour.as_str();
    match row.route.count {
        Some(count) => format!(in alloc; "{member} {quality} {count} {neighbour}\r"),
        None => format!(in alloc; "{member} {quality} locked {neighbour}\r"),
    }
}

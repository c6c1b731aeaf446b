//! The ports of a station, and the members on each. Called by `looks`, and by the crates that serve users.
ghost use Rattle.std.specs.Prelude.{◌≡◌, ◌++◌, ◌≤◌, ◌==◌, length, map, IfOk, OnOk};
ghost use Rattle.std.specs.Option.{option_to_list};
ghost use Rattle.station_lists.specs.Lists as lists;
ghost use Rattle.std.specs.List.{list_any, range_with_len};
ghost use Rattle.station_members.specs.Standing.{MembersStand};
ghost use Rattle.station_members.specs.States.{State};
ghost use Rattle.station_looks.specs.Ports as ports;
ghost use Rattle.station_looks.specs.Rows as rows;

use crate::About;
use crate::adding::push_some;
use radio_base::{NoMemory, TextOut};
use station_lists::{Destination, PortRow, add_ports};
use station_members::Members;
use std::alloc::Global;

/// Adds the ports, in their order, and to each the members on it.
pub(crate) fn see_ports(
    alloc: Global,
    members: &Members,
    about: &About,
    text: &mut TextOut,
) -> Result<(), NoMemory>
    ensures { OnOk result ((s : State) → MembersStand members.now s
        → text.new ≡ text.old ++ lists.ports_text (rows.port_rows about.now s)) }
{
    let names = about.names();
    let standing = standing_on(alloc, members, names.len())?;
    let all = port_rows(alloc, members, names, &standing)?;
    add_ports(alloc, &all, text)?;
    Ok(())
}

/// The members on each of so many ports.
fn standing_on(
    alloc: Global,
    members: &Members,
    count: usize,
) -> Result<Vec<Vec<Destination>>, NoMemory>
    requires { count ≤ 8 }
    ensures count { IfOk result (λ all. length all.items ≡ count) }
    ensures each { IfOk result (λ all. (s : State) → MembersStand members.now s
        → map rows.items_of all.items ≡ map (λ port. rows.on_port port s) (range_with_len 0 count)) }
{
    let mut all = Vec::new(alloc);
    for port in 0..count {
        all.push(members_on(alloc, members, port as u8)?)?;
    }
    Ok(all)
}

/// The rows of ports of these names, with these members on them.
fn port_rows<'a>(
    alloc: Global,
    members: &Members,
    names: &'a [String],
    standing: &'a [Vec<Destination>],
) -> Result<Vec<PortRow<'a>>, NoMemory>
    requires few { length names.now ≤ 8 }
    requires each { length standing.now ≡ length names.now }
    ensures { IfOk result (λ all. (s : State) → MembersStand members.now s
        → map rows.items_of standing.now ≡ map (λ port. rows.on_port port s) (range_with_len 0 (length names.now))
        → map lists.port_line all.items ≡ map lists.port_line (rows.port_rows_from s 0 names.now)) }
{
    let mut all = Vec::new(alloc);
    for (at, name) in names.iter().enumerate() {
        all.push(PortRow {
            number: (at + 1) as u8,
            name: name.as_str(),
            came: members.came(at as u8),
            went: members.went(at as u8),
            members: &standing[at],
        })?;
    }
    Ok(all)
}

/// The members on a port.
fn members_on(alloc: Global, members: &Members, port: u8) -> Result<Vec<Destination>, NoMemory>
    ensures { IfOk result (λ all. (s : State) → MembersStand members.now s → all.items ≡ rows.on_port port s) }
{
    let mut all = Vec::new(alloc);
    for at in 0..members.len() {
        push_some(standing_at(members, port, at), &mut all)?;
    }
    Ok(all)
}

/// The member at a place by its names, where it stands on a port.
fn standing_at(members: &Members, port: u8, at: usize) -> Option<Destination>
    ensures { (s : State) → MembersStand members.now s
        → option_to_list result ≡ rows.by_member (rows.on_port_at port s) s at }
{
    if !is_on(members, at, port) {
        return None;
    }
    match (members.alias(at), members.call(at)) {
        (Some(alias), Some(call)) => Some(Destination { alias, call }),
        _ => None,
    }
}

/// Whether the member at a place stands on a port.
pub fn is_on(members: &Members, at: usize, port: u8) -> bool
    ensures { (s : State) → MembersStand members.now s → result ≡ ports.is_on port s at }
{
    match members.rules(at) {
        Some(rules) => has_port(&rules.ports, port),
        None => false,
    }
}

fn has_port(ports: &[u8], port: u8) -> bool
    ensures { result ≡ list_any (λ p. p == port) ports.now }
{
    ports.iter().any(|one| *one == port)
}

/// The member on a port: the one at this place, or else the first there.
pub fn member_on(members: &Members, member: usize, port: u8) -> Option<usize>
    ensures { (s : State) → MembersStand members.now s → result ≡ ports.member_on member port s }
{
    if is_on(members, member, port) {
        return Some(member);
    }
    first_on(members, port)
}

fn first_on(members: &Members, port: u8) -> Option<usize>
    ensures { (s : State) → MembersStand members.now s → result ≡ ports.first_on port s }
{
    for at in 0..members.len() {
        if is_on(members, at, port) {
            return Some(at);
        }
    }
    None
}

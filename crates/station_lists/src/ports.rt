//! The ports of a station. Called by the crates that run a station.
ghost use Rattle.std.specs.Prelude.{◌≡◌, ◌++◌, IfOk, OnOk, flat_map, string_bytes};
ghost use Rattle.station_lists.specs.Lists as lists;

use crate::Destination;
use radio_base::{NoMemory, TextOut};
use station_prompt::name_of;
use std::alloc::{AllocError, Global};

/// A port.
#[derive(Clone, Copy, Debug)]
pub struct PortRow<'a> {
    /// From 1.
    pub number: u8,
    pub name: &'a str,
    /// How many frames came there.
    pub came: u64,
    /// How many frames went there.
    pub went: u64,
    /// The members on it.
    pub members: &'a [Destination],
}

/// Adds the ports, and to each the members on it.
pub fn add_ports(alloc: Global, all: &[PortRow<'_>], reply: &mut TextOut) -> Result<(), NoMemory>
    ensures { OnOk result (reply.new ≡ reply.old ++ lists.ports_text all.now) }
{
    reply.text("Ports:\r")?;
    for row in all {
        add_port(alloc, row, reply)?;
    }
    Ok(())
}

/// Adds a port: N NAME heard=H sent=S, and the members on it.
fn add_port(alloc: Global, row: &PortRow<'_>, reply: &mut TextOut) -> Result<(), NoMemory>
    ensures { OnOk result (reply.new ≡ reply.old ++ lists.port_line row.now) }
{
    let front = front_of(alloc, row)?;
    reply.text(front.as_str())?;
    add_members(row.members, reply)?;
    reply.text("\r")?;
    Ok(())
}

fn front_of(alloc: Global, row: &PortRow<'_>) -> Result<String, AllocError>
    ensures { IfOk result (λ s. string_bytes s ≡ lists.port_front row.now) }
{
    let number = row.number;
    let name = row.name;
    let came = row.came;
    let went = row.went;
    format!(in alloc; "{number} {name} heard={came} sent={went}")
}

/// Adds members, each behind a space.
fn add_members(members: &[Destination], reply: &mut TextOut) -> Result<(), NoMemory>
    ensures { OnOk result (reply.new ≡ reply.old ++ flat_map lists.member_on members.now) }
{
    for member in members {
        add_member(member, reply)?;
    }
    Ok(())
}

fn add_member(member: &Destination, reply: &mut TextOut) -> Result<(), NoMemory>
    ensures { OnOk result (reply.new ≡ reply.old ++ lists.member_on member.now) }
{
    reply.text(" ")?;
    reply.text(name_of(&member.alias, &member.call).as_str())?;
    Ok(())
}

//! The beacons of a file. Called by `station`, the last of all, since they name ports and members.
ghost use Rattle.std.specs.Prelude.{◌≡◌, ◌≤◌, ◌+◌, [], length, map, Ok, IfOk, IsTrue, MatchResult};
ghost use Rattle.std.specs.List.{list_all};
ghost use Rattle.toml.specs.View.{view, table_view};
ghost use Rattle.station_file.specs.Stations as stations;
ghost use Rattle.station_file.specs.Tables.{TellsOf};

use crate::fault::{Stop, at, text_at};
use crate::file_key::FileKey;
use crate::file_text::FileText;
use crate::items::port_numbers::has_port;
use crate::limits::{DAY_SECONDS, MAX_BEACON_TEXT, MAX_BEACONS, MAX_PORT_NAME};
use crate::nodes::Member;
use crate::ports::{Port, port_number};
use crate::section::Section;
use crate::tables::{know_keys, value_at};
use crate::values::{call, list, needed_number, needs, table, text};
use crate::why::Why;
use ax_address::Call;
use std::alloc::Global;
use toml::{Table, Value};

/// A text that a member sends on a port again and again.
#[derive(Debug, Drop)]
pub struct Beacon {
    /// The number of the port, from 1.
    pub port: u8,
    /// A member on that port.
    pub from: Call,
    pub to: Call,
    pub text: FileText,
    /// How many seconds stand between two of it.
    pub every: u32,
}

/// The beacons, in the order of the file.
#[tactic(auto, unfolding(crate::specs::Stations::beacons_of))]
pub fn read_beacons(
    alloc: Global,
    station: &Table,
    ports: &[Port],
    members: &[Member],
) -> Result<Vec<Beacon>, Stop>
    requires { length ports.now ≤ 8 }
    ensures read { MatchResult result
        (λ v. stations.beacons_of ports.now members.now (table_view station.now) ≡ Ok v.items)
        (λ e. TellsOf e (stations.beacons_of ports.now members.now (table_view station.now))) }
    ensures short { IfOk result (λ v. IsTrue (list_all stations.has_short_text v.items)) }
{
    let items = list(value_at(station, FileKey::Beacon), MAX_BEACONS);
    let items = at(alloc, Section::Station, FileKey::Beacon, items)?;
    let mut beacons = Vec::new(alloc);
    add_beacons(alloc, &mut beacons, ports, members, 1, items)?;
    Ok(beacons)
}

fn add_beacons(
    alloc: Global,
    beacons: &mut Vec<Beacon>,
    ports: &[Port],
    members: &[Member],
    number: u8,
    items: &[Value],
) -> Result<(), Stop>
    requires ports { length ports.now ≤ 8 }
    requires room { length beacons.old.items + length items.now ≤ 64 }
    requires number { number + length items.now ≤ 65 }
    requires short { IsTrue (list_all stations.has_short_text beacons.old.items) }
    ensures read { MatchResult result
        (λ _. stations.beacons_from ports.now members.now number beacons.old.items (map view items.now)
        ≡ Ok beacons.new.items)
        (λ e. TellsOf e (stations.beacons_from ports.now members.now number beacons.old.items (map view items.now))) }
    ensures short { IfOk result (λ _. IsTrue (list_all stations.has_short_text beacons.new.items)) }
{
    match items {
        [] => Ok(()),
        [item, more @ ..] => {
            let beacon = read_beacon(alloc, ports, members, number, item)?;
            beacons.push(beacon)?;
            add_beacons(alloc, beacons, ports, members, number + 1, more)?;
            Ok(())
        }
    }
}

#[tactic(auto, unfolding(crate::specs::Stations::beacon_at))]
fn read_beacon(
    alloc: Global,
    ports: &[Port],
    members: &[Member],
    number: u8,
    item: &Value,
) -> Result<Beacon, Stop>
    requires { length ports.now ≤ 8 }
    ensures read { MatchResult result (λ b. stations.beacon_at ports.now members.now number (view item.now) ≡ Ok b)
        (λ e. TellsOf e (stations.beacon_at ports.now members.now number (view item.now))) }
    ensures short { IfOk result (λ b. IsTrue (stations.has_short_text b)) }
{
    let section = Section::Beacon(number);
    let table = at(alloc, Section::Station, FileKey::Beacon, table(item))?;
    know_keys(alloc, section, table)?;
    let port = at(alloc, section, FileKey::Port, beacon_port(ports, table))?;
    let from = at(
        alloc,
        section,
        FileKey::From,
        sender_at(members, port, table),
    )?;
    let to = at(
        alloc,
        section,
        FileKey::To,
        call(value_at(table, FileKey::To)),
    )?;
    let text = text(value_at(table, FileKey::Text), 1, MAX_BEACON_TEXT);
    let text = text_at(alloc, section, FileKey::Text, text)?;
    let every = needed_number(value_at(table, FileKey::Every), 1, DAY_SECONDS);
    let every = at(alloc, section, FileKey::Every, every)?;
    Ok(Beacon {
        port,
        from,
        to,
        text,
        every,
    })
}

/// The number of the port that the beacon names.
#[tactic(auto, unfolding(crate::specs::Stations::beacon_port))]
fn beacon_port(ports: &[Port], table: &Table) -> Result<u8, Why>
    requires { length ports.now ≤ 8 }
    ensures { result ≡ stations.beacon_port ports.now (table_view table.now) }
{
    let name = text(value_at(table, FileKey::Port), 0, MAX_PORT_NAME)?;
    port_in(port_number(ports, name.as_bytes()))
}

fn port_in(number: Option<u8>) -> Result<u8, Why>
    ensures { result ≡ stations.port_in number }
{
    number.ok_or(Why::NoPort)
}

/// A member on the port.
#[tactic(auto, unfolding(crate::specs::Stations::sender_at))]
fn sender_at(members: &[Member], port: u8, table: &Table) -> Result<Call, Why>
    ensures { result ≡ stations.sender_at members.now port (table_view table.now) }
{
    let call = call(value_at(table, FileKey::From))?;
    needs(is_sender(members, port, &call), Why::NoMember)?;
    Ok(call)
}

fn is_sender(members: &[Member], port: u8, call: &Call) -> bool
    ensures { result ≡ stations.is_sender members.now port call.now }
{
    members.iter().any(|member| is_on(port, call, member))
}

fn is_on(port: u8, call: &Call, member: &Member) -> bool
    ensures { result ≡ stations.is_on port call.now member.now }
{
    member.declared.call == *call && has_port(member.ports.as_slice(), port)
}

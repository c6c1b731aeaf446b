//! The ports of a file. Called by `station`; `nodes` and `beacons` name them.
ghost use Rattle.std.specs.Prelude.{◌≡◌, ◌≤◌, ◌<◌, ◌+◌, [], length, map, option_map, position, Ok, Err, IfOk, IfSome, MatchResult};
ghost use Rattle.std.specs.List.{list_all};
ghost use Rattle.toml.specs.View.{view, table_view};
ghost use Rattle.station_file.specs.Items as lists;
ghost use Rattle.station_file.specs.Stations as stations;
ghost use Rattle.station_file.specs.Tables.{TellsOf};
ghost use Rattle.station_file.specs.Values.{seen};

use crate::fault::{Stop, at, text_at};
use crate::file_key::FileKey;
use crate::file_text::FileText;
use crate::limits::{MAX_PORT_NAME, MAX_PORTS, MAX_TNC};
use crate::section::Section;
use crate::tables::{know_keys, value_at};
use crate::values::{list, needs, number, table, text, text_or_none};
use crate::why::Why;
use std::alloc::Global;
use toml::{Table, Value};

/// A radio of a station.
#[derive(Debug, Drop)]
pub struct Port {
    pub name: FileText,
}

/// The number, from 1, of the port of that name, in letters of either case.
pub fn port_number(ports: &[Port], name: &[u8]) -> Option<u8>
    requires { length ports.now ≤ 8 }
    ensures { result ≡ lists.port_number ports.now name.now }
{
    match place_of(ports, name) {
        Some(place) => Some(place as u8 + 1),
        None => None,
    }
}

fn place_of(ports: &[Port], name: &[u8]) -> Option<usize>
    ensures place { result ≡ position (lists.is_named name.now) ports.now }
    ensures within { IfSome result (λ place. place < length ports.now) }
{
    ports.iter().position(|port| is_named(name, port))
}

fn is_named(name: &[u8], port: &Port) -> bool
    ensures { result ≡ lists.is_named name.now port.now }
{
    port.name.as_str().as_bytes().eq_ignore_ascii_case(name)
}

/// The ports of the file.
#[tactic(auto, unfolding(crate::specs::Stations::ports_of))]
pub fn read_ports(alloc: Global, station: &Table) -> Result<Vec<Port>, Stop>
    ensures read { MatchResult result (λ v. stations.ports_of (table_view station.now) ≡ Ok v.items)
        (λ e. TellsOf e (stations.ports_of (table_view station.now))) }
    ensures few { IfOk result (λ v. length v.items ≤ 8) }
{
    let items = list(value_at(station, FileKey::Port), MAX_PORTS);
    let items = at(alloc, Section::Station, FileKey::Port, items)?;
    let mut ports = Vec::new(alloc);
    add_ports(alloc, &mut ports, 1, items)?;
    Ok(ports)
}

fn add_ports(alloc: Global, ports: &mut Vec<Port>, number: u8, items: &[Value]) -> Result<(), Stop>
    requires room { length ports.old.items + length items.now ≤ 8 }
    requires number { number + length items.now ≤ 65 }
    ensures read { MatchResult result
        (λ _. stations.ports_from number ports.old.items (map view items.now) ≡ Ok ports.new.items)
        (λ e. TellsOf e (stations.ports_from number ports.old.items (map view items.now))) }
    ensures few { IfOk result (λ _. length ports.new.items ≤ 8) }
{
    match items {
        [] => Ok(()),
        [item, more @ ..] => {
            let port = read_port(alloc, ports, number, item)?;
            ports.push(port)?;
            add_ports(alloc, ports, number + 1, more)?;
            Ok(())
        }
    }
}

#[tactic(auto, unfolding(crate::specs::Stations::port_at))]
fn read_port(alloc: Global, before: &[Port], number: u8, item: &Value) -> Result<Port, Stop>
    requires { length before.now ≤ 8 }
    ensures { MatchResult result (λ p. stations.port_at before.now number (view item.now) ≡ Ok p)
        (λ e. TellsOf e (stations.port_at before.now number (view item.now))) }
{
    let section = Section::Port(number);
    let table = at(alloc, Section::Station, FileKey::Port, table(item))?;
    know_keys(alloc, section, table)?;
    let name = text_at(alloc, section, FileKey::Name, port_name(before, table))?;
    know_hub_keys(alloc, section, table)?;
    Ok(Port { name })
}

/// The name of a port that no port before has.
#[tactic(auto, unfolding(crate::specs::Stations::port_name))]
fn port_name<'t>(before: &[Port], table: &'t Table) -> Result<&'t str, Why>
    requires { length before.now ≤ 8 }
    ensures { seen result ≡ stations.port_name before.now (table_view table.now) }
{
    let name = text(value_at(table, FileKey::Name), 1, MAX_PORT_NAME)?;
    needs(has_name_bytes(name), Why::BadByte)?;
    needs(port_number(before, name.as_bytes()).is_none(), Why::Twice)?;
    Ok(name)
}

fn has_name_bytes(name: &str) -> bool
    ensures { result ≡ list_all stations.is_name_byte name.now }
{
    name.as_bytes().iter().all(|b| is_name_byte(*b))
}

fn is_name_byte(b: u8) -> bool
    ensures { result ≡ stations.is_name_byte b }
{
    b.is_ascii_alphanumeric() || b == b'-' || b == b'.' || b == b'_'
}

/// What the hub is told of a port's TNC is of its kind.
#[tactic(auto, unfolding(crate::specs::Stations::hub_keys))]
fn know_hub_keys(alloc: Global, section: Section, table: &Table) -> Result<(), Stop>
    ensures { MatchResult result (λ _. stations.hub_keys section (table_view table.now) ≡ Ok tt)
        (λ e. TellsOf e (stations.hub_keys section (table_view table.now))) }
{
    let tnc = text_or_none(value_at(table, FileKey::Tnc), MAX_TNC);
    at(alloc, section, FileKey::Tnc, tnc)?;
    know_octet(alloc, section, FileKey::TxDelay, table)?;
    know_octet(alloc, section, FileKey::Persist, table)?;
    know_octet(alloc, section, FileKey::SlotTime, table)?;
    know_octet(alloc, section, FileKey::TxTail, table)?;
    Ok(())
}

fn know_octet(alloc: Global, section: Section, key: FileKey, table: &Table) -> Result<(), Stop>
    ensures { MatchResult result (λ _. stations.octet section key (table_view table.now) ≡ Ok tt)
        (λ e. TellsOf e (stations.octet section key (table_view table.now))) }
{
    at(alloc, section, key, number(value_at(table, key), 0, 255, 0))?;
    Ok(())
}

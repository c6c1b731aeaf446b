//! The ports on which a node stands. Called by `nodes`, and by `beacons` for a beacon's own.
ghost use Rattle.std.specs.Prelude.{◌≡◌, ◌≤◌, ◌+◌, [], length, map, option_map, Ok, Err, MatchResult};
ghost use Rattle.toml.specs.View.{view};
ghost use Rattle.station_file.specs.Items as lists;

use crate::items::{in_item, item_needs, text_of};
use crate::limits::MAX_PORTS;
use crate::ports::{Port, port_number};
use crate::values::list;
use crate::why::{ItemFault, Why};
use arrayvec::ArrayVec;
use toml::Value;

/// The numbers of the ports that a list names, each of which is there once.
#[tactic(auto, unfolding(crate::specs::Items::ports_at))]
pub fn read_port_numbers(
    value: Option<&Value>,
    ports: &[Port],
) -> Result<ArrayVec<u8, MAX_PORTS>, Why>
    requires { length ports.now ≤ 8 }
    ensures { MatchResult result (λ v. lists.ports_at ports.now (option_map (λ v. view v.now) value.entry) ≡ Ok v.items)
        (λ e. lists.ports_at ports.now (option_map (λ v. view v.now) value.entry) ≡ Err e) }
{
    let mut numbers = ArrayVec::new();
    let items = list(value, MAX_PORTS)?;
    add_ports(&mut numbers, ports, 1, items)?;
    Ok(numbers)
}

fn add_ports(
    numbers: &mut ArrayVec<u8, MAX_PORTS>,
    ports: &[Port],
    number: usize,
    items: &[Value],
) -> Result<(), Why>
    requires ports { length ports.now ≤ 8 }
    requires room { length numbers.old.items + length items.now ≤ 8 }
    requires number { number + length items.now ≤ 65 }
    ensures { MatchResult result
        (λ _. lists.ports_from ports.now number numbers.old.items (map view items.now) ≡ Ok numbers.new.items)
        (λ e. lists.ports_from ports.now number numbers.old.items (map view items.now) ≡ Err e) }
{
    match items {
        [] => Ok(()),
        [item, more @ ..] => {
            let port = in_item(number, port_item(numbers.as_slice(), ports, item))?;
            numbers.push(port);
            add_ports(numbers, ports, number + 1, more)?;
            Ok(())
        }
    }
}

#[tactic(auto, unfolding(crate::specs::Items::port_item))]
fn port_item(before: &[u8], ports: &[Port], item: &Value) -> Result<u8, ItemFault>
    requires { length ports.now ≤ 8 }
    ensures { result ≡ lists.port_item ports.now before.now (view item.now) }
{
    let text = text_of(item)?;
    let port = port_in(port_number(ports, text))?;
    item_needs(!has_port(before, port), ItemFault::Twice)?;
    Ok(port)
}

fn port_in(number: Option<u8>) -> Result<u8, ItemFault>
    ensures { result ≡ lists.port_in number }
{
    number.ok_or(ItemFault::NoPort)
}

/// The number is among these.
pub fn has_port(numbers: &[u8], port: u8) -> bool
    ensures { result ≡ lists.has_port numbers.now port }
{
    numbers.iter().any(|number| *number == port)
}

//! What a station of a file runs, in lines. The command `check` tells it. Called by `station_check`.
ghost use Rattle.std.specs.Prelude.{◌≡◌, ◌≤◌, ◌+◌, ◌++◌, length, option_copied, Some, IfOk, OnOk};
ghost use Rattle.station_file.specs.Told as told;

use crate::beacons::Beacon;
use crate::nodes::Member;
use crate::ports::Port;
use crate::posts::Post;
use crate::station::StationFile;
use radio_base::{NoMemory, TextOut};
use std::alloc::Global;

/// What a station of this file runs: a line for itself, for each port and member, for its post and for each beacon.
pub fn check_text(alloc: Global, file: &StationFile) -> Result<TextOut, NoMemory>
    ensures { IfOk result (λ text. text ≡ told.check_told file.now) }
{
    let mut text = TextOut::new(alloc);
    tell_station(alloc, &mut text, file)?;
    tell_ports(alloc, &mut text, 1, file.ports())?;
    tell_members(alloc, &mut text, file.ports(), file.members())?;
    tell_post(alloc, &mut text, file.post())?;
    tell_beacons(alloc, &mut text, file.ports(), file.beacons())?;
    Ok(text)
}

fn tell_station(alloc: Global, text: &mut TextOut, file: &StationFile) -> Result<(), NoMemory>
    ensures { OnOk result (text.new ≡ text.old ++ told.station_told file.now.name) }
{
    let name = file.name();
    text.text(&format!(in alloc; "station {name}\n")?)
}

fn tell_ports(
    alloc: Global,
    text: &mut TextOut,
    number: u64,
    ports: &[Port],
) -> Result<(), NoMemory>
    requires { number + length ports.now ≤ 9 }
    ensures { OnOk result (text.new ≡ text.old ++ told.ports_told number ports.now) }
{
    match ports {
        [] => Ok(()),
        [port, more @ ..] => {
            tell_port(alloc, text, number, port)?;
            tell_ports(alloc, text, number + 1, more)?;
            Ok(())
        }
    }
}

fn tell_port(alloc: Global, text: &mut TextOut, number: u64, port: &Port) -> Result<(), NoMemory>
    ensures { OnOk result (text.new ≡ text.old ++ told.port_told number port.now) }
{
    let name = port.name.as_str();
    text.text(&format!(in alloc; "port {number} {name}\n")?)
}

fn tell_members(
    alloc: Global,
    text: &mut TextOut,
    ports: &[Port],
    members: &[Member],
) -> Result<(), NoMemory>
    ensures { OnOk result (text.new ≡ text.old ++ told.members_told ports.now members.now) }
{
    match members {
        [] => Ok(()),
        [member, more @ ..] => {
            tell_member(alloc, text, member)?;
            tell_standing(text, ports, member.ports.as_slice())?;
            tell_members(alloc, text, ports, more)?;
            Ok(())
        }
    }
}

fn tell_member(alloc: Global, text: &mut TextOut, member: &Member) -> Result<(), NoMemory>
    ensures { OnOk result (text.new ≡ text.old ++ told.member_told member.now) }
{
    let alias = member.declared.alias.show();
    let call = member.declared.call.show();
    let (alias, call) = (alias.as_str(), call.as_str());
    let users = yes_or_no(member.users);
    let digipeat = yes_or_no(member.digipeat);
    text.text(&format!(in alloc; "member {alias}:{call} users {users} digipeat {digipeat} ports")?)
}

fn yes_or_no(is_so: bool) -> &'static str
    ensures { result.now ≡ told.yes_or_no is_so }
{
    if is_so { "yes" } else { "no" }
}

/// The names of the ports of these numbers, each behind a space.
fn tell_standing(text: &mut TextOut, ports: &[Port], numbers: &[u8]) -> Result<(), NoMemory>
    ensures { OnOk result (text.new ≡ text.old ++ told.standing_told ports.now numbers.now) }
{
    match numbers {
        [] => text.text("\n"),
        [number, more @ ..] => {
            text.text(" ")?;
            text.text(name_of(ports, *number))?;
            tell_standing(text, ports, more)?;
            Ok(())
        }
    }
}

/// The name of the port of that number, from 1.
fn name_of(ports: &[Port], number: u8) -> &str
    ensures { result.now ≡ told.name_of ports.now number }
{
    let place = (number as usize).saturating_sub(1);
    if place < ports.len() {
        ports[place].name.as_str()
    } else {
        ""
    }
}

fn tell_post(alloc: Global, text: &mut TextOut, post: Option<&Post>) -> Result<(), NoMemory>
    ensures { OnOk result (text.new ≡ text.old ++ told.post_told (option_copied post.entry)) }
{
    match post {
        None => Ok(()),
        Some(post) => tell_post_of(alloc, text, post),
    }
}

fn tell_post_of(alloc: Global, text: &mut TextOut, post: &Post) -> Result<(), NoMemory>
    ensures { OnOk result (text.new ≡ text.old ++ told.post_told (Some post.now)) }
{
    let alias = post.alias.show();
    let call = post.call.show();
    let (alias, call) = (alias.as_str(), call.as_str());
    let every = post.every;
    let file = post.file.as_str();
    text.text(&format!(in alloc; "post {alias}:{call} every {every} s file {file}\n")?)
}

fn tell_beacons(
    alloc: Global,
    text: &mut TextOut,
    ports: &[Port],
    beacons: &[Beacon],
) -> Result<(), NoMemory>
    ensures { OnOk result (text.new ≡ text.old ++ told.beacons_told ports.now beacons.now) }
{
    match beacons {
        [] => Ok(()),
        [beacon, more @ ..] => {
            tell_beacon(alloc, text, beacon)?;
            tell_standing(text, ports, &[beacon.port])?;
            tell_beacons(alloc, text, ports, more)?;
            Ok(())
        }
    }
}

fn tell_beacon(alloc: Global, text: &mut TextOut, beacon: &Beacon) -> Result<(), NoMemory>
    ensures { OnOk result (text.new ≡ text.old ++ told.beacon_told beacon.now) }
{
    let from = beacon.from.show();
    let to = beacon.to.show();
    let (from, to) = (from.as_str(), to.as_str());
    let every = beacon.every;
    text.text(&format!(in alloc; "beacon {from}>{to} every {every} s port")?)
}

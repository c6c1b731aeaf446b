//! The members of a file that serve users. Called by `station`; the post, which `posts` reads, is a member too, with a call and an alias of
//! its own.
ghost use Rattle.std.specs.Prelude.{◌≡◌, ◌≤◌, ◌+◌, [], length, map, option_map, Ok, Err, IfOk, IsTrue, MatchResult};
ghost use Rattle.std.specs.List.{list_all};
ghost use Rattle.toml.specs.View.{view, table_view};
ghost use Rattle.station_file.specs.Stations as stations;
ghost use Rattle.station_file.specs.Tables.{TellsOf, value_at};
ghost use Rattle.station_file.specs.Values as values;

use crate::fault::{Stop, at};
use crate::file_key::FileKey;
use crate::items::locks::{Lock, read_locks};
use crate::items::port_numbers::read_port_numbers;
use crate::items::qualities::{NeighbourQuality, read_qualities};
use crate::items::vias::read_vias;
use crate::limits::{
    DAY_MS, MAX_LOCKS, MAX_MEMBERS, MAX_PORTS, MAX_QUALITIES, MAX_SETTINGS, MAX_VIAS,
};
use crate::ports::Port;
use crate::section::Section;
use crate::settings::read_settings;
use crate::tables::{know_keys, value_at};
use crate::values::{alias, call, flag, list, needs, number, table};
use crate::why::Why;
use arrayvec::ArrayVec;
use ax_address::{Alias, Call};
use network_file::{Declaration, Key, Setting, Via, value_of};
use std::alloc::Global;
use toml::{Table, Value};

/// A member that serves users, as a file declares it.
#[derive(Debug, Drop)]
pub struct Member {
    /// Its number, from 1 in the order of the file, its call and its alias.
    pub declared: Declaration,
    /// The numbers of the ports on which it stands, from 1.
    pub ports: ArrayVec<u8, MAX_PORTS>,
    /// Users are served.
    pub users: bool,
    /// Frames are repeated.
    pub digipeat: bool,
    /// How many milliseconds after its first tick it does its first round.
    pub first: u32,
    /// For how many milliseconds an acknowledgement is held back, 0 for none.
    pub t2: u32,
    /// The most bytes of a piece of a user's text.
    pub paclen: u32,
    /// What each key of a `set` line is set to, in the order of these.
    pub settings: ArrayVec<Setting, MAX_SETTINGS>,
    /// The peers that it reaches over repeaters.
    pub vias: ArrayVec<Via, MAX_VIAS>,
    /// The neighbours that have a path quality of their own.
    pub qualities: ArrayVec<NeighbourQuality, MAX_QUALITIES>,
    /// The routes that are locked in.
    pub locks: ArrayVec<Lock, MAX_LOCKS>,
}

/// The members that the file declares, but for the post.
#[tactic(auto, unfolding(crate::specs::Stations::members_of))]
pub fn read_members(alloc: Global, station: &Table, ports: &[Port]) -> Result<Vec<Member>, Stop>
    requires { length ports.now ≤ 8 }
    ensures read { MatchResult result (λ v. stations.members_of ports.now (table_view station.now) ≡ Ok v.items)
        (λ e. TellsOf e (stations.members_of ports.now (table_view station.now))) }
    ensures few { IfOk result (λ v. length v.items ≤ 8) }
    ensures small { IfOk result (λ v. IsTrue (list_all stations.has_small_pieces v.items)) }
{
    let items = member_items(value_at(station, FileKey::Node));
    let items = at(alloc, Section::Station, FileKey::Node, items)?;
    let mut members = Vec::new(alloc);
    add_members(alloc, &mut members, ports, 1, items)?;
    Ok(members)
}

/// One member or more.
#[tactic(auto, unfolding(crate::specs::Stations::member_items))]
fn member_items(value: Option<&Value>) -> Result<&[Value], Why>
    ensures value { values.seen_items result ≡ stations.member_items (option_map (λ v. view v.now) value.entry) }
    ensures few { IfOk result (λ items. length items.now ≤ 8) }
{
    let items = list(value, MAX_MEMBERS)?;
    needs(!items.is_empty(), Why::Missing)?;
    Ok(items)
}

fn add_members(
    alloc: Global,
    members: &mut Vec<Member>,
    ports: &[Port],
    number: u8,
    items: &[Value],
) -> Result<(), Stop>
    requires ports { length ports.now ≤ 8 }
    requires room { length members.old.items + length items.now ≤ 8 }
    requires number { number + length items.now ≤ 65 }
    requires small { IsTrue (list_all stations.has_small_pieces members.old.items) }
    ensures read { MatchResult result
        (λ _. stations.members_from ports.now number members.old.items (map view items.now) ≡ Ok members.new.items)
        (λ e. TellsOf e (stations.members_from ports.now number members.old.items (map view items.now))) }
    ensures few { IfOk result (λ _. length members.new.items ≤ 8) }
    ensures small { IfOk result (λ _. IsTrue (list_all stations.has_small_pieces members.new.items)) }
{
    match items {
        [] => Ok(()),
        [item, more @ ..] => {
            let member = read_member(alloc, members, ports, number, item)?;
            members.push(member)?;
            add_members(alloc, members, ports, number + 1, more)?;
            Ok(())
        }
    }
}

#[tactic(auto, unfolding(crate::specs::Stations::member_at))]
fn read_member(
    alloc: Global,
    before: &[Member],
    ports: &[Port],
    number: u8,
    item: &Value,
) -> Result<Member, Stop>
    requires { length ports.now ≤ 8 }
    ensures read { MatchResult result (λ m. stations.member_at ports.now before.now number (view item.now) ≡ Ok m)
        (λ e. TellsOf e (stations.member_at ports.now before.now number (view item.now))) }
    ensures small { IfOk result (λ m. IsTrue (stations.has_small_pieces m)) }
{
    let section = Section::Node(number);
    let table = at(alloc, Section::Station, FileKey::Node, table(item))?;
    know_keys(alloc, section, table)?;
    let call = at(alloc, section, FileKey::Call, new_call(before, table))?;
    let alias = at(alloc, section, FileKey::Alias, new_alias(before, table))?;
    let declared = Declaration {
        node: number,
        call,
        alias,
    };
    let member = member_of(alloc, declared, ports, table)?;
    Ok(member)
}

/// What else the table says of the member.
#[tactic(auto, unfolding(crate::specs::Stations::member_of))]
fn member_of(
    alloc: Global,
    declared: Declaration,
    ports: &[Port],
    table: &Table,
) -> Result<Member, Stop>
    requires { length ports.now ≤ 8 }
    ensures read { MatchResult result (λ m. stations.member_of ports.now declared (table_view table.now) ≡ Ok m)
        (λ e. TellsOf e (stations.member_of ports.now declared (table_view table.now))) }
    ensures small { IfOk result (λ m. IsTrue (stations.has_small_pieces m)) }
{
    let node = declared.node;
    let section = Section::Node(node);
    let ports = read_port_numbers(value_at(table, FileKey::Ports), ports);
    let ports = at(alloc, section, FileKey::Ports, ports)?;
    let users = flag(value_at(table, FileKey::Users), true);
    let users = at(alloc, section, FileKey::Users, users)?;
    let digipeat = flag(value_at(table, FileKey::Digipeat), true);
    let digipeat = at(alloc, section, FileKey::Digipeat, digipeat)?;
    let first = number(value_at(table, FileKey::First), 0, DAY_MS, 60_000);
    let first = at(alloc, section, FileKey::First, first)?;
    let t2 = number(value_at(table, FileKey::T2), 0, DAY_MS, 0);
    let t2 = at(alloc, section, FileKey::T2, t2)?;
    let paclen = number(value_at(table, FileKey::Paclen), 16, 256, 256);
    let paclen = at(alloc, section, FileKey::Paclen, paclen)?;
    let settings = read_settings(alloc, node, table)?;
    let vias = read_vias(value_at(table, FileKey::Via), node);
    let vias = at(alloc, section, FileKey::Via, vias)?;
    let qualities = read_qualities(value_at(table, FileKey::Qualities));
    let qualities = at(alloc, section, FileKey::Qualities, qualities)?;
    let least = value_of(settings.as_slice(), node, Key::MinimumQuality);
    let locks = read_locks(value_at(table, FileKey::Locks), &declared.call, least);
    let locks = at(alloc, section, FileKey::Locks, locks)?;
    Ok(Member {
        declared,
        ports,
        users,
        digipeat,
        first,
        t2,
        paclen,
        settings,
        vias,
        qualities,
        locks,
    })
}

/// Each member has at most so many qualities of neighbours.
pub fn need_few_qualities(alloc: Global, members: &[Member], most: usize) -> Result<(), Stop>
    ensures { MatchResult result (λ _. stations.all_few_qualities most members.now ≡ Ok tt)
        (λ e. TellsOf e (stations.all_few_qualities most members.now)) }
{
    match members {
        [] => Ok(()),
        [member, more @ ..] => {
            few_qualities(alloc, member, most)?;
            need_few_qualities(alloc, more, most)?;
            Ok(())
        }
    }
}

fn few_qualities(alloc: Global, member: &Member, most: usize) -> Result<(), Stop>
    ensures { MatchResult result (λ _. stations.few_qualities most member.now ≡ Ok tt)
        (λ e. TellsOf e (stations.few_qualities most member.now)) }
{
    let count = member.qualities.as_slice().len();
    let few = needs(count <= most, Why::TooMany { count, most });
    at(
        alloc,
        Section::Node(member.declared.node),
        FileKey::Qualities,
        few,
    )?;
    Ok(())
}

/// A call that no member before has.
#[tactic(auto, unfolding(crate::specs::Stations::new_call))]
pub fn new_call(before: &[Member], table: &Table) -> Result<Call, Why>
    ensures { result ≡ stations.new_call before.now (table_view table.now) }
{
    let call = call(value_at(table, FileKey::Call))?;
    needs(!has_call(before, &call), Why::Twice)?;
    Ok(call)
}

/// An alias that no member before has, also not in letters of the other case.
#[tactic(auto, unfolding(crate::specs::Stations::new_alias))]
pub fn new_alias(before: &[Member], table: &Table) -> Result<Alias, Why>
    ensures { result ≡ stations.new_alias before.now (table_view table.now) }
{
    let alias = alias(value_at(table, FileKey::Alias))?;
    needs(!has_alias(before, &alias), Why::Twice)?;
    Ok(alias)
}

fn has_call(members: &[Member], call: &Call) -> bool
    ensures { result ≡ stations.has_call members.now call.now }
{
    members.iter().any(|member| member.declared.call == *call)
}

fn has_alias(members: &[Member], alias: &Alias) -> bool
    ensures { result ≡ stations.has_alias members.now alias.now }
{
    members
        .iter()
        .any(|member| is_same_alias(&member.declared.alias, alias))
}

fn is_same_alias(one: &Alias, other: &Alias) -> bool
    ensures { result ≡ stations.same_alias one.now other.now }
{
    one.bytes().eq_ignore_ascii_case(&other.bytes())
}

//! What the keys of `set` lines are set to for a node of a file. Called by `nodes`.
ghost use Rattle.std.specs.Prelude.{◌≡◌, ◌≤◌, ◌+◌, ◌++◌, [], length, option_map, Ok, IfOk, MatchResult};
ghost use Rattle.network_file.specs.Keys.{least_of, most_of};
ghost use Rattle.toml.specs.View.{view, table_view};
ghost use Rattle.station_file.specs.Keys.{setting_keys};
ghost use Rattle.station_file.specs.Stations as stations;
ghost use Rattle.station_file.specs.Tables.{TellsOf};

use crate::fault::{Stop, at};
use crate::file_key::FileKey;
use crate::limits::MAX_SETTINGS;
use crate::section::{Section, setting_keys};
use crate::tables::value_at;
use crate::values::{needs, number_of};
use crate::why::Why;
use arrayvec::ArrayVec;
use network_file::{Key, Setting};
use std::alloc::Global;
use toml::{Table, Value};

/// What each key of a `set` line is set to, in the order of these.
pub fn read_settings(
    alloc: Global,
    node: u8,
    table: &Table,
) -> Result<ArrayVec<Setting, MAX_SETTINGS>, Stop>
    ensures { MatchResult result (λ v. stations.settings_of node (table_view table.now) ≡ Ok v.items)
        (λ e. TellsOf e (stations.settings_of node (table_view table.now))) }
{
    let mut settings = ArrayVec::new();
    add_settings(alloc, &mut settings, node, setting_keys(), table)?;
    Ok(settings)
}

fn add_settings(
    alloc: Global,
    settings: &mut ArrayVec<Setting, MAX_SETTINGS>,
    node: u8,
    keys: &[Key],
    table: &Table,
) -> Result<(), Stop>
    requires { length settings.old.items + length keys.now ≤ 18 }
    ensures { MatchResult result
        (λ _. stations.settings_from node (table_view table.now) settings.old.items keys.now ≡ Ok settings.new.items)
        (λ e. TellsOf e (stations.settings_from node (table_view table.now) settings.old.items keys.now)) }
{
    match keys {
        [] => Ok(()),
        [key, more @ ..] => {
            let setting = read_setting(alloc, node, *key, table)?;
            settings.push(setting);
            add_settings(alloc, settings, node, more, table)?;
            Ok(())
        }
    }
}

fn read_setting(alloc: Global, node: u8, key: Key, table: &Table) -> Result<Setting, Stop>
    ensures { MatchResult result (λ s. stations.setting_at node key (table_view table.now) ≡ Ok s)
        (λ e. TellsOf e (stations.setting_at node key (table_view table.now))) }
{
    let file_key = FileKey::Setting(key);
    let value = value_in(key, value_at(table, file_key));
    let value = at(alloc, Section::Node(node), file_key, value)?;
    Ok(Setting::new(node, key, value))
}

/// What the key is set to: the default of network files where nothing is said, but for `interval`, an hour.
fn value_in(key: Key, value: Option<&Value>) -> Result<u32, Why>
    ensures value { result ≡ stations.setting key (option_map (λ v. view v.now) value.entry) }
    ensures least { IfOk result (λ n. least_of key ≤ n) }
    ensures most { IfOk result (λ n. n ≤ most_of key) }
{
    match value {
        None => Ok(unset(key)),
        Some(value) => match switch_of(key, value) {
            Some(on) => Ok(on as u32),
            None => taken(key, value),
        },
    }
}

fn unset(key: Key) -> u32
    ensures value { result ≡ stations.unset key }
    ensures least { least_of key ≤ result }
    ensures most { result ≤ most_of key }
{
    match key {
        Key::Interval => 3_600_000,
        _ => key.default_value(),
    }
}

/// `links` and `srej` may be `true` or `false`.
fn switch_of(key: Key, value: &Value) -> Option<bool>
    ensures { result ≡ stations.switch_of key (view value.now) }
{
    match key {
        Key::Links => value.as_bool(),
        Key::SelectiveReject => value.as_bool(),
        _ => None,
    }
}

/// A number that the key allows.
#[tactic(auto, unfolding(crate::specs::Stations::taken))]
fn taken(key: Key, value: &Value) -> Result<u32, Why>
    ensures value { result ≡ stations.taken key (view value.now) }
    ensures least { IfOk result (λ n. least_of key ≤ n) }
    ensures most { IfOk result (λ n. n ≤ most_of key) }
{
    let number = number_of(value, key.least(), key.most())?;
    needs(key.takes(4, number), Why::NoModulus { value: number })?;
    Ok(number)
}

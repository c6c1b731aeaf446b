//! The settings of nodes, and their defaults. Used by `declaring`, `live` and `network`, by `node_settings` and `station_file`, and by the
//! crates of replays and traces.
ghost use Rattle.std.specs.Prelude.{◌≡◌, ◌≤◌, IsTrue, IfSome};
ghost use Rattle.network_file.specs.Keys as keys;

use crate::plan::keys::Key;
use std::marker::Model;

/// One setting of a node: a value that the key allows.
#[derive(Clone, Copy, Debug, PartialEq, Eq)]
pub struct Setting {
    pub(crate) node: u8,
    pub(crate) key: Key,
    pub(crate) value: u32,
}

impl Model for Setting {
    ghost use Rattle.std.specs.Prelude.{◌≤◌};
    ghost use Rattle.network_file.specs.Keys.{Assignment, least_of, most_of};

    ghost Value = { Assignment };

    ghost view = { λ s. record { node = s.node; key = s.key; value = s.value } };

    ghost invariant = { λ s. (least_of s.key ≤ s.value) × (s.value ≤ most_of s.key) };

    ghost inverse = { λ a. record { node = a.node; key = a.key; value = a.value } };
}

impl Setting {
    ghost use Rattle.std.specs.Prelude.{◌≡◌, ◌≤◌};
    ghost use Rattle.network_file.specs.Keys.{least_of, most_of};

    /// The key is set to the value for the node of that number.
    pub fn new(node: u8, key: Key, value: u32) -> Setting
        requires least { least_of key ≤ value }
        requires most { value ≤ most_of key }
        ensures { result ≡ record { node = node; key = key; value = value } }
    {
        Setting { node, key, value }
    }

    /// The node's number, from 1 to 16.
    pub fn node(&self) -> u8
        ensures { result ≡ self.now.node }
    {
        self.node
    }

    /// What is set.
    pub fn key(&self) -> Key
        ensures { result ≡ self.now.key }
    {
        self.key
    }

    /// To what it is set: a value that the key allows.
    pub fn value(&self) -> u32
        ensures value { result ≡ self.now.value }
        ensures least { least_of self.now.key ≤ result }
        ensures most { result ≤ most_of self.now.key }
    {
        self.value
    }
}

/// The default window: what an unused place of a buffer holds.
impl Default for Setting {
    fn default() -> Setting {
        Setting {
            node: 1,
            key: Key::Window,
            value: 4,
        }
    }
}

/// What the key is set to for the node, if it is.
pub fn set_to(settings: &[Setting], node: u8, key: Key) -> Option<u32>
    ensures value { result ≡ keys.set_to settings.now node key }
    ensures in_range { IfSome result (λ v. (keys.least_of key ≤ v) × (v ≤ keys.most_of key)) }
{
    for setting in settings {
        if is_of(setting, node, key) {
            return Some(setting.value);
        }
    }
    None
}

fn is_of(setting: &Setting, node: u8, key: Key) -> bool
    ensures value { result ≡ keys.is_of node key setting.now }
    ensures key { IsTrue result → setting.now.key ≡ key }
{
    setting.node == node && setting.key == key
}

/// What the key is set to for the node, or else its default.
#[tactic(auto, using(crate::proofs::KeyRanges::default_in_range))]
pub fn value_of(settings: &[Setting], node: u8, key: Key) -> u32
    ensures value { result ≡ keys.value_of settings.now node key }
    ensures least { keys.least_of key ≤ result }
    ensures most { result ≤ keys.most_of key }
{
    match set_to(settings, node, key) {
        Some(value) => value,
        None => key.default_value(),
    }
}

/// The node would serve users at a prompt and keep mail too, of which it does one alone.
pub fn clashes(settings: &[Setting], node: u8, key: Key, value: u32) -> bool
    ensures { result ≡ keys.clashes settings.now node key value }
{
    match key {
        Key::Mail => value == 1 && value_of(settings, node, Key::Prompt) == 1,
        Key::Prompt => value == 1 && value_of(settings, node, Key::Mail) == 1,
        _ => false,
    }
}

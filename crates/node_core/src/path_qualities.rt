//! The qualities of the paths to single neighbours. Called by `station`.
ghost use Rattle.std.specs.Prelude.{◌≡◌, ◌≤◌, [], false, length, OnOk};
ghost use Rattle.std.specs.Map.{lookup};
ghost use Rattle.indexmap.specs.IndexMap.{insert_entry};
ghost use Rattle.ax_address.specs.Callsign.{same_call};
ghost use Rattle.node_core.specs.Qualities.{is_full};

use crate::MAX_QUALITIES;
use ax_address::Call;
use indexmap::IndexMap;
use radio_base::NoMemory;
use std::alloc::Global;

/// The qualities of the paths to single neighbours, of which at most 16 have one.
#[derive(Drop)]
pub(crate) struct PathQualities {
    by_call: IndexMap<Call, u8>,
    ghost few: { length by_call.entries ≤ 16 },
}

impl PathQualities {
    /// None has one.
    pub(crate) fn new(alloc: Global) -> PathQualities
        ensures { result.by_call.entries ≡ [] }
    {
        PathQualities {
            by_call: IndexMap::new(alloc),
        }
    }

    /// That of the path to a neighbour: none where it has none of its own.
    pub(crate) fn get(&self, neighbour: &Call) -> Option<u8>
        ensures { result ≡ lookup (same_call neighbour.now) self.now.by_call.entries }
    {
        self.by_call.get(neighbour).copied()
    }

    /// Whether 16 others have one.
    pub(crate) fn is_full(&self, neighbour: &Call) -> bool
        ensures { result ≡ is_full neighbour.now self.now.by_call.entries }
    {
        self.by_call.len() >= MAX_QUALITIES && !self.by_call.contains_key(neighbour)
    }

    /// Another one, in the place of that which the neighbour has.
    pub(crate) fn put(&mut self, neighbour: &Call, quality: u8) -> Result<(), NoMemory>
        requires { is_full neighbour.now self.old.by_call.entries ≡ false }
        ensures { OnOk result (self.new.by_call.entries
            ≡ insert_entry same_call self.old.by_call.entries neighbour.now quality) }
    {
        self.by_call.insert(*neighbour, quality)?;
        Ok(())
    }
}

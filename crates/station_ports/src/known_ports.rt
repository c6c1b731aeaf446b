//! By which port a call is reached. Called by the crates that run a station.
ghost use Rattle.std.specs.Prelude.{◌≡◌, ◌≤◌, [], length, Some, OnOk, OnErr};
ghost use Rattle.indexmap.specs.IndexMap.{spare};
ghost use Rattle.station_ports.specs.Lasts.{last};
ghost use Rattle.station_ports.specs.Known as known;

use ax_address::Call;
use indexmap::IndexMap;
use radio_base::NoMemory;
use std::alloc::Global;
use std::marker::Model;

/// The most calls whose port is remembered (this project's profile).
const MAX_KNOWN: usize = 256;

/// The ports by which calls are reached, at most 256 of them: the one that was remembered last stands last.
#[derive(Drop)]
pub struct KnownPorts {
    ports: IndexMap<Call, u8>,
}

impl Model for KnownPorts {
    ghost use Rattle.std.specs.Prelude.{List, ℕ, length, ◌≤◌};
    ghost use Rattle.ax_address.specs.Callsign.{Callsign};

    ghost Value = { List (Callsign × ℕ) };

    ghost view = { λ k. k.ports.entries };

    ghost invariant = { λ k. length k.ports.entries ≤ 256 };
}

impl KnownPorts {
    /// None yet.
    pub fn new(alloc: Global) -> KnownPorts
        ensures { result ≡ [] }
    {
        KnownPorts {
            ports: IndexMap::new(alloc),
        }
    }

    /// Remembers by which port a call is reached. Where 256 others are remembered, the one that was remembered longest ago is forgotten.
    pub fn remember(&mut self, call: &Call, port: u8) -> Result<(), NoMemory>
        ensures ok { OnOk result (self.new ≡ known.remembered call.now port self.old) }
        ensures found { OnOk result (known.port_of call.now self.new ≡ Some port) }
        ensures err { OnErr result (self.new ≡ self.old) }
    {
        self.ports.reserve(1)?;
        let _ = self.ports.shift_remove(call);
        make_room(&mut self.ports);
        self.ports.insert(*call, port)?;
        Ok(())
    }

    /// The port by which a call is reached, where it is remembered.
    pub fn port_of(&self, call: &Call) -> Option<u8>
        ensures found { result ≡ known.port_of call.now self.now }
        ensures few { length self.now ≤ 256 }
    {
        self.ports.get(call).copied()
    }
}

/// Where 256 are remembered, the oldest goes.
fn make_room(ports: &mut IndexMap<Call, u8>)
    requires { length ports.old.entries ≤ 256 }
    ensures entries { ports.new.entries ≡ last 255 ports.old.entries }
    ensures room { spare ports.old ≤ spare ports.new }
{
    if ports.len() >= MAX_KNOWN {
        let _ = ports.shift_remove_index(0);
    }
}

//! Who speaks to a member by its alias. Called by the crates that run a station.
ghost use Rattle.std.specs.Prelude.{◌≡◌, ◌≤◌, [], length};
ghost use Rattle.station_ports.specs.Lasts.{last};
ghost use Rattle.station_ports.specs.Peers as peers;

use arrayvec::ArrayVec;
use ax_address::Call;
use std::marker::Model;

/// The peers that speak to a member by its alias, at most 64, the youngest last. No call takes memory.
#[derive(Drop)]
pub struct AliasPeers {
    peers: ArrayVec<Call, 64>,
}

impl Model for AliasPeers {
    ghost use Rattle.std.specs.Prelude.{List, length, ◌≤◌};
    ghost use Rattle.ax_address.specs.Callsign.{Callsign};

    ghost Value = { List Callsign };

    ghost view = { λ p. p.peers.items };

    ghost invariant = { λ p. length p.peers.items ≤ 64 };
}

impl AliasPeers {
    /// None yet.
    pub fn new() -> AliasPeers
        ensures { result ≡ [] }
    {
        AliasPeers {
            peers: ArrayVec::new(),
        }
    }

    /// This one does, and is the youngest. Where 64 others do, the oldest goes.
    pub fn add(&mut self, peer: &Call)
        ensures { self.new ≡ peers.with_peer peer.now self.old }
    {
        self.remove(peer);
        make_room(&mut self.peers);
        self.peers.push(*peer);
    }

    /// This one doesn't any more.
    pub fn remove(&mut self, peer: &Call)
        ensures { self.new ≡ peers.without peer.now self.old }
    {
        self.peers.retain(|one| *one != *peer);
    }

    /// Whether this one does.
    pub fn has(&self, peer: &Call) -> bool
        ensures found { result ≡ peers.is_peer peer.now self.now }
        ensures few { length self.now ≤ 64 }
    {
        self.peers.iter().any(|one| *one == *peer)
    }
}

/// Where 64 stand, the oldest goes.
fn make_room(peers: &mut ArrayVec<Call, 64>)
    ensures { peers.new.items ≡ last 63 peers.old.items }
{
    if peers.is_full() {
        peers.remove(0);
    }
}

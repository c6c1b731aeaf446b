//! What a table of links shows: its links by peer, and what waits at them. Called by `node_core`.
ghost use Rattle.std.specs.Prelude.{◌≡◌, is_some, map, slice_get};
ghost use Rattle.std.specs.Option.{option_copied};
ghost use Rattle.link_table.specs.Calls as calls;
ghost use Rattle.link_table.specs.Table.{Table};
ghost use Rattle.link_table.specs.Texts as texts;

use crate::{LinkOf, LinkTable};
use arrayvec::ArrayVec;
use ax_address::{Call, Path};

impl LinkTable {
    ghost use Rattle.link_table.specs.Standing.{LentStands, TableStands};
    ghost use Rattle.link_table.specs.Table.{link_with};

    /// The peers with whom links stand, in the order in which the links were made. A table that is spent tells of none.
    pub fn peers(&self) -> ArrayVec<Call, 64>
        ensures { (t : Table) → TableStands self.now t → result.items ≡ map (λ l. l.peer) t.links }
    {
        if self.spent {
            return ArrayVec::new();
        }
        self.core.peers()
    }

    /// The link with a peer: none where none stands.
    pub fn link(&self, peer: &Call) -> Option<&LinkOf>
        ensures { (t : Table) → TableStands self.now t
            → LentStands (option_copied result) (link_with peer.now t.links) }
    {
        match self.core.links.get(peer) {
            Some(entry) => Some(entry.link()),
            None => None,
        }
    }

    /// The repeaters over which the link with a peer goes: none where no link stands.
    pub fn link_path(&self, peer: &Call) -> Option<&Path>
        ensures { (t : Table) → TableStands self.now t → option_copied result ≡ calls.link_path peer.now t }
    {
        match self.core.links.get(peer) {
            Some(entry) => Some(entry.path()),
            None => None,
        }
    }

    /// Whether the link with a peer is of modulo 128: frames from it are read by that modulus. False where none stands.
    pub fn is_128(&self, peer: &Call) -> bool
        ensures { (t : Table) → TableStands self.now t → result ≡ calls.is_128 peer.now t }
    {
        match self.core.links.get(peer) {
            Some(entry) => entry.modulus().is_128(),
            None => false,
        }
    }

    /// Whether a link with this peer stands that the peer has set up: its set-up has made the link, or has set it up again since. A
    /// set-up of the peer that crosses with one of this node has not made it.
    pub fn is_called(&self, peer: &Call) -> bool
        ensures { (t : Table) → TableStands self.now t → result ≡ calls.is_called peer.now t }
    {
        self.core.is_called(peer)
    }

    /// The peers at whose link a text waits, in the order of the links. A table that is spent tells of none.
    pub fn texts(&self) -> ArrayVec<Call, 64>
        ensures { (t : Table) → TableStands self.now t → result.items ≡ texts.text_peers t.links }
    {
        if self.spent {
            return ArrayVec::new();
        }
        self.core.texts()
    }

    /// The first of these peers.
    pub fn first_text(&self) -> Option<Call>
        ensures { (t : Table) → TableStands self.now t → result ≡ slice_get (texts.text_peers t.links) 0 }
    {
        if self.spent {
            return None;
        }
        self.core.first_text()
    }

    /// How many payloads the link with a peer would still accept: 0 where no link stands that accepts any.
    pub fn room(&self, peer: &Call) -> usize
        ensures { (t : Table) → TableStands self.now t → result ≡ texts.room peer.now t }
    {
        self.core.room(peer)
    }

    /// Whether a notice waits.
    pub fn has_notices(&self) -> bool
        ensures { (t : Table) → TableStands self.now t → result ≡ is_some (slice_get t.pending.notices 0) }
    {
        !self.core.pending.notices.is_empty()
    }
}

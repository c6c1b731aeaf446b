//! Texts at the links of a node: where they wait, and taking them (the PIDs: AX.25 2.2, section 3.4). Called by `looks` and `table`.
ghost use Rattle.std.specs.Prelude.{◌≡◌, ◌<◌, ◌++◌, ◌∷◌, [], Some, OnErr, OnOk, if◌then◌else◌, is_some, length, slice_get, true};
ghost use Rattle.link_table.specs.Standing.{text_in, text_keys};

use crate::entry::LinkEntry;
use crate::held_links::HeldLinks;
use arrayvec::ArrayVec;
use ax_address::Call;
use indexmap::map::Slice;
use l3_datagram::Message;
use radio_base::{Moment, NoMemory};

impl HeldLinks {
    ghost use Rattle.ax_address.specs.Callsign.{Callsign};
    ghost use Rattle.link_table.specs.declared.entry.LinkEntry.{LinkEntry};
    ghost use Rattle.link_table.specs.Calls.{at_link};
    ghost use Rattle.link_table.specs.Standing.{CoreGoes, Rests, room_at, text_at};
    ghost use Rattle.link_table.specs.Texts.{take_text_of};

    /// Whether a text waits at the link with a peer.
    pub(crate) fn text_waits(&self, peer: &Call) -> bool
        ensures { result ≡ is_some (text_at peer.now self.now.links.entries) }
    {
        match self.links.get(peer) {
            Some(entry) => entry.text_waits(),
            None => false,
        }
    }

    /// The peers at whose link a text waits, in the order of the links.
    pub(crate) fn texts(&self) -> ArrayVec<Call, 64>
        requires { Rests self.now }
        ensures { result.items ≡ text_keys self.now.links.entries }
    {
        let mut peers = ArrayVec::new();
        for at in 0..self.links.len() {
            self.add_text_at(at, &mut peers);
        }
        peers
    }

    /// The first peer at whose link a text waits.
    pub(crate) fn first_text(&self) -> Option<Call>
        ensures { result ≡ slice_get (text_keys self.now.links.entries) 0 }
    {
        first_text(self.links.as_slice())
    }

    /// Names the peer of this link where a text waits at it.
    fn add_text_at(&self, at: usize, peers: &mut ArrayVec<Call, 64>)
        requires { length peers.old.items < 64 }
        ensures { (x : Callsign × LinkEntry) → slice_get self.now.links.entries at ≡ Some x →
            peers.new.items ≡ (if is_some (text_in x.1) then peers.old.items ++ x.0 ∷ [] else peers.old.items) }
    {
        if let Some((peer, entry)) = self.links.get_index(at) {
            add_text(peers, peer, entry);
        }
    }

    /// How many payloads the link with a peer would still accept.
    pub(crate) fn room(&self, peer: &Call) -> usize
        ensures { result ≡ room_at peer.now self.now.links.entries }
    {
        match self.links.get(peer) {
            Some(entry) => entry.room(),
            None => 0,
        }
    }

    /// Takes the text that waits at the link with a peer.
    pub(crate) fn take_text(
        &mut self,
        peer: &Call,
        out: &mut Message,
        now: Moment,
    ) -> Result<(), NoMemory>
        requires rests { Rests self.old }
        requires waits { is_some (text_at peer.now self.old.links.entries) ≡ true }
        ensures rests { OnOk result (Rests self.new) }
        ensures text { OnOk result (text_at peer.now self.old.links.entries ≡ Some out.new.items) }
        ensures err { OnErr result (out.new ≡ out.old) }
        ensures goes { OnOk result (CoreGoes (λ t. at_link peer.now (take_text_of t.own now.0) t) self.old self.new) }
    {
        let down = match self.links.get_mut(peer) {
            Some(entry) => {
                entry.take_text(&mut self.pending, out, now)?;
                entry.is_down()
            }
            None => return Ok(()),
        };
        self.drop_if_down(peer, down);
        Ok(())
    }
}

/// The first peer of these links at which a text waits.
fn first_text(links: Slice<'_, Call, LinkEntry>) -> Option<Call>
    ensures { result ≡ slice_get (text_keys links.entry) 0 }
{
    let mut rest = links;
    while let Some(((peer, entry), later)) = rest.split_first() {
        if entry.text_waits() {
            return Some(*peer);
        }
        rest = later;
    }
    None
}

/// Names the peer where a text waits at its link.
fn add_text(peers: &mut ArrayVec<Call, 64>, peer: &Call, entry: &LinkEntry)
    requires { length peers.old.items < 64 }
    ensures { peers.new.items
        ≡ (if is_some (text_in entry.now) then peers.old.items ++ peer.now ∷ [] else peers.old.items) }
{
    if entry.text_waits() {
        let _ = peers.try_push(*peer);
    }
}

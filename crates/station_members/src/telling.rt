//! What members have to tell. Called by `Members`.
ghost use Rattle.std.specs.Prelude.{◌≡◌};
ghost use Rattle.std.specs.Option.{option_map};
ghost use Rattle.node_core.specs.Standing.{entry_of};
ghost use Rattle.station_members.specs.Standing.{PlaneGoes, PlaneStands, told_by};
ghost use Rattle.station_members.specs.States as states;
ghost use Rattle.station_members.specs.States.{State};

use crate::backplane::Backplane;
use crate::nodes;
use ax_address::Call;
use ax_link::LinkNotice;
use node_core::NodeEntry;

impl Backplane {
    /// The first thing that the first member has to tell that has any, and its place.
    pub(crate) fn next_entry(&mut self) -> Option<(usize, NodeEntry)>
        ensures answer { (s : State) → PlaneStands self.old s → option_map told_by result ≡ states.first_told s }
        ensures goes { PlaneGoes states.fetch_told self.old self.new }
    {
        match nodes::first_telling(&self.nodes) {
            Some(at) => self.fetch_entry(at),
            None => None,
        }
    }

    fn fetch_entry(&mut self, at: usize) -> Option<(usize, NodeEntry)>
        ensures answer { (s : State) → PlaneStands self.old s → option_map told_by result ≡ states.told_at at s }
        ensures goes { PlaneGoes (states.fetch_told_at at) self.old self.new }
    {
        match nodes::fetch_entry(&mut self.nodes, at) {
            Some(entry) => {
                self.note_end(at, &entry);
                Some((at, entry))
            }
            None => None,
        }
    }

    /// With whom a member has no link any more, that doesn't speak to it by its alias.
    fn note_end(&mut self, at: usize, entry: &NodeEntry)
        ensures { PlaneGoes (states.note_end at (entry_of entry.now)) self.old self.new }
    {
        match ended_peer(entry) {
            Some(peer) => {
                if !nodes::has_link(&self.nodes, at, &peer) {
                    self.desk.unname(at, &peer);
                }
            }
            None => {}
        }
    }
}

/// The peer whose link has ended.
fn ended_peer(entry: &NodeEntry) -> Option<Call>
    ensures { result ≡ states.ended_peer (entry_of entry.now) }
{
    match entry {
        NodeEntry::Link(peer, LinkNotice::Closed) => Some(*peer),
        NodeEntry::Link(peer, LinkNotice::Refused) => Some(*peer),
        NodeEntry::Link(peer, LinkNotice::Failed) => Some(*peer),
        _ => None,
    }
}

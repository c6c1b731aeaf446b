//! What is seen at a place. Called by all that serve sessions.
ghost use Rattle.std.specs.Prelude.{◌≡◌};
ghost use Rattle.station_places.specs.Looks as looks;
ghost use Rattle.station_places.specs.Sides.{SidesStand, SidesState};

use crate::{Sides, ends, links};
use ax_address::Call;
use station_sessions::Place;

/// For how many payloads a link has room that has room for a text (this project's profile).
const LEAST_ROOM: usize = 34;

/// A console has room while fewer bytes wait for it (this project's profile).
const CONSOLE_ROOM: usize = 65_536;

impl Sides {
    /// Whether there is room for a text.
    pub fn has_room(&self, place: &Place) -> bool
        ensures { (s : SidesState) → SidesStand self.now s → result ≡ looks.has_room place.now s }
    {
        match place {
            Place::End { member, id } => ends::has_room(self.members.node(*member), *id),
            Place::Link { member, peer } => self.link_room(*member, peer) >= LEAST_ROOM,
            Place::Console(console) => self.outs.waiting(*console) < CONSOLE_ROOM,
        }
    }

    /// Whether there is room for a piece of a text of which some waits. Only at a link does any wait.
    pub fn goes_on(&self, place: &Place) -> bool
        ensures { (s : SidesState) → SidesStand self.now s → result ≡ looks.goes_on place.now s }
    {
        match place {
            Place::Link { member, peer } => self.link_room(*member, peer) > 0,
            Place::End { .. } | Place::Console(_) => false,
        }
    }

    /// Whether a text from there waits. What was typed at a console waits with its session.
    pub fn has_text(&self, place: &Place) -> bool
        ensures { (s : SidesState) → SidesStand self.now s → result ≡ looks.has_text place.now s }
    {
        match place {
            Place::End { member, id } => ends::has_message(self.members.node(*member), *id),
            Place::Link { member, peer } => links::has_text(self.members.node(*member), peer),
            Place::Console(_) => false,
        }
    }

    /// Whether it is the end of a circuit that has ended, or that isn't held. What has become of a link or console its session was told.
    pub fn has_ended(&self, place: &Place) -> bool
        ensures { (s : SidesState) → SidesStand self.now s → result ≡ looks.has_ended place.now s }
    {
        match place {
            Place::End { member, id } => ends::has_ended(self.members.node(*member), *id),
            Place::Link { .. } | Place::Console(_) => false,
        }
    }

    /// Whether it is an end that isn't held, or is held no longer.
    pub fn is_gone(&self, place: &Place) -> bool
        ensures { (s : SidesState) → SidesStand self.now s → result ≡ looks.is_gone place.now s }
    {
        match place {
            Place::End { member, id } => !ends::is_held(self.members.node(*member), *id),
            Place::Link { .. } | Place::Console(_) => false,
        }
    }

    /// For how many payloads the link of a member with a peer has room: 0 where none stands.
    pub fn link_room(&self, member: usize, peer: &Call) -> usize
        ensures { (s : SidesState) → SidesStand self.now s → result ≡ looks.link_room member peer.now s }
    {
        links::room(self.members.node(member), peer)
    }

    /// Whether the peer has set the link up.
    pub fn is_called(&self, member: usize, peer: &Call) -> bool
        ensures { (s : SidesState) → SidesStand self.now s → result ≡ looks.is_called member peer.now s }
    {
        links::is_called(self.members.node(member), peer)
    }

    /// Whether the link with a peer is being closed from here.
    pub fn is_closing(&self, member: usize, peer: &Call) -> bool
        ensures { (s : SidesState) → SidesStand self.now s → result ≡ looks.is_closing member peer.now s }
    {
        links::is_closing(self.members.node(member), peer)
    }
}

//! Texts at links and ends that no session has: at a link that its peer has set up a user comes, where users are served; all else is taken
//! and let fall. Called by `users`.
ghost use Rattle.std.specs.Prelude.{◌≡◌, IfOk, OnOk, Option};
ghost use Rattle.std.specs.Option.{option_copied};
ghost use Rattle.node_model.specs.States.{NodeState};
ghost use Rattle.station_members.specs.Looks.{LentStands};
ghost use Rattle.station_users.specs.Standing.{HallGoes, HallStands};
ghost use Rattle.station_users.specs.States.{UsersState};
ghost use Rattle.station_users.specs.Unclaimed as unclaimed;

use crate::hall::Hall;
use crate::turn::Turn;
use arrayvec::ArrayVec;
use ax_address::Call;
use circuit_table::MAX_ENDS;
use node_core::Node;
use radio_base::NoMemory;
use station_sessions::{Place, Session};

impl Hall {
    /// They are taken at each member, in order. Whether any was let fall.
    pub(crate) fn take_unclaimed(&mut self, turn: Turn) -> Result<bool, NoMemory>
        ensures goes { OnOk result (HallGoes (unclaimed.take_unclaimed turn.moment) self.old self.new) }
        ensures dropped { IfOk result (λ dropped. (u : UsersState) → HallStands self.old u
            → dropped ≡ unclaimed.takes_unclaimed turn.moment u) }
    {
        let mut dropped = false;
        for member in 0..self.sides.members.len() {
            dropped |= self.take_at(member, turn)?;
        }
        Ok(dropped)
    }

    #[tactic(auto, unfolding(crate::specs::Unclaimed::take_at, crate::specs::Unclaimed::takes_at))]
    fn take_at(&mut self, member: usize, turn: Turn) -> Result<bool, NoMemory>
        ensures goes { OnOk result (HallGoes (unclaimed.take_at turn.moment member) self.old self.new) }
        ensures dropped { IfOk result (λ dropped. (u : UsersState) → HallStands self.old u
            → dropped ≡ unclaimed.takes_at turn.moment member u) }
    {
        let at_links = self.take_link_texts(member, turn)?;
        let at_ends = self.drop_end_texts(member, turn)?;
        Ok(at_links | at_ends)
    }

    // ---- at links

    #[tactic(auto, unfolding(crate::specs::Unclaimed::take_link_texts, crate::specs::Unclaimed::takes_link_texts))]
    fn take_link_texts(&mut self, member: usize, turn: Turn) -> Result<bool, NoMemory>
        ensures goes { OnOk result (HallGoes (unclaimed.take_link_texts turn.moment member) self.old self.new) }
        ensures dropped { IfOk result (λ dropped. (u : UsersState) → HallStands self.old u
            → dropped ≡ unclaimed.takes_link_texts turn.moment member u) }
    {
        let peers = self.peers_at(member);
        let dropped = self.take_each(peers.as_slice(), member, turn)?;
        Ok(dropped)
    }

    /// With whom a member has a link at which a text waits.
    fn peers_at(&self, member: usize) -> ArrayVec<Call, 64>
        ensures { (u : UsersState) → HallStands self.now u → result.items ≡ unclaimed.peers_at member u }
    {
        peers_by(self.sides.members.node(member))
    }

    fn take_each(&mut self, peers: &[Call], member: usize, turn: Turn) -> Result<bool, NoMemory>
        ensures goes { OnOk result (HallGoes (unclaimed.take_each member turn.moment peers.now) self.old self.new) }
        ensures dropped { IfOk result (λ dropped. (u : UsersState) → HallStands self.old u
            → dropped ≡ unclaimed.takes_any member turn.moment peers.now u) }
    {
        match peers {
            [] => Ok(false),
            [peer, rest @ ..] => {
                let dropped = self.take_link_text(member, peer, turn)?;
                let others = self.take_each(rest, member, turn)?;
                Ok(dropped | others)
            }
        }
    }

    #[tactic(auto, unfolding(crate::specs::Unclaimed::take_link_text, crate::specs::Unclaimed::takes_link_text))]
    fn take_link_text(&mut self, member: usize, peer: &Call, turn: Turn) -> Result<bool, NoMemory>
        ensures goes { OnOk result
            (HallGoes (unclaimed.take_link_text member turn.moment peer.now) self.old self.new) }
        ensures dropped { IfOk result (λ dropped. (u : UsersState) → HallStands self.old u
            → dropped ≡ unclaimed.takes_link_text member turn.moment peer.now u) }
    {
        let place = Place::Link {
            member,
            peer: *peer,
        };
        if self.is_taken(&place) {
            return Ok(false);
        }
        self.come(member, peer, turn)?;
        let dropped = self.drop_untaken(&place, turn)?;
        Ok(dropped)
    }

    /// A user comes over the link with a peer, where one may.
    #[tactic(auto, unfolding(crate::specs::Unclaimed::come))]
    fn come(&mut self, member: usize, peer: &Call, turn: Turn) -> Result<(), NoMemory>
        ensures { OnOk result (HallGoes (unclaimed.come member peer.now turn.moment) self.old self.new) }
    {
        if self.may_come(member, peer) {
            let place = Place::Link {
                member,
                peer: *peer,
            };
            let session = Session::new(turn.alloc, *peer, member, None, place, turn.moment);
            self.greet(session, turn)?;
            Ok(())
        } else {
            Ok(())
        }
    }

    /// Whether a user may come over the link with a peer: the peer has set it up, and it isn't being closed.
    fn may_come(&self, member: usize, peer: &Call) -> bool
        ensures { (u : UsersState) → HallStands self.now u → result ≡ unclaimed.may_come member peer.now u }
    {
        self.serves(member)
            && self.sides.is_called(member, peer)
            && !self.sides.is_closing(member, peer)
    }

    /// What still no session has is let fall.
    fn drop_untaken(&mut self, place: &Place, turn: Turn) -> Result<bool, NoMemory>
        ensures goes { OnOk result (HallGoes (unclaimed.drop_untaken place.now turn.moment) self.old self.new) }
        ensures dropped { IfOk result (λ dropped. (u : UsersState) → HallStands self.old u
            → dropped ≡ unclaimed.drops_untaken place.now turn.moment u) }
    {
        if self.is_taken(place) {
            Ok(false)
        } else {
            let dropped = self.drop_there(place, turn)?;
            Ok(dropped)
        }
    }

    fn drop_there(&mut self, place: &Place, turn: Turn) -> Result<bool, NoMemory>
        ensures goes { OnOk result (HallGoes (unclaimed.drop_there place.now turn.moment) self.old self.new) }
        ensures dropped { IfOk result (λ dropped. (u : UsersState) → HallStands self.old u
            → dropped ≡ unclaimed.drops_there place.now turn.moment u) }
    {
        let dropped = self.sides.drop_texts(place, turn.moment)?;
        Ok(dropped)
    }

    // ---- at ends

    fn drop_end_texts(&mut self, member: usize, turn: Turn) -> Result<bool, NoMemory>
        ensures goes { OnOk result (HallGoes (unclaimed.drop_end_texts turn.moment member) self.old self.new) }
        ensures dropped { IfOk result (λ dropped. (u : UsersState) → HallStands self.old u
            → dropped ≡ unclaimed.drops_end_texts turn.moment member u) }
    {
        let mut dropped = false;
        for nth in 0..MAX_ENDS {
            dropped |= self.drop_end_text(member, nth, turn)?;
        }
        Ok(dropped)
    }

    /// What waits at an end that no session has is let fall.
    #[tactic(auto, unfolding(crate::specs::Unclaimed::drop_end_text, crate::specs::Unclaimed::drops_end_text))]
    fn drop_end_text(&mut self, member: usize, nth: usize, turn: Turn) -> Result<bool, NoMemory>
        ensures goes { OnOk result (HallGoes (unclaimed.drop_end_text member turn.moment nth) self.old self.new) }
        ensures dropped { IfOk result (λ dropped. (u : UsersState) → HallStands self.old u
            → dropped ≡ unclaimed.drops_end_text member turn.moment nth u) }
    {
        match self.end_at(member, nth) {
            Some(id) => Ok(self.drop_left(&Place::End { member, id }, turn)?),
            None => Ok(false),
        }
    }

    /// The end that is so far behind the first one that a member holds.
    fn end_at(&self, member: usize, nth: usize) -> Option<u64>
        ensures { (u : UsersState) → HallStands self.now u → result ≡ unclaimed.end_at member nth u }
    {
        end_by(self.sides.members.node(member), nth)
    }

    fn drop_left(&mut self, place: &Place, turn: Turn) -> Result<bool, NoMemory>
        ensures goes { OnOk result (HallGoes (unclaimed.drop_left place.now turn.moment) self.old self.new) }
        ensures dropped { IfOk result (λ dropped. (u : UsersState) → HallStands self.old u
            → dropped ≡ unclaimed.drops_left place.now turn.moment u) }
    {
        if self.is_left(place) {
            let dropped = self.drop_there(place, turn)?;
            Ok(dropped)
        } else {
            Ok(false)
        }
    }

    /// Whether a text waits there, and no session has it.
    fn is_left(&self, place: &Place) -> bool
        ensures { (u : UsersState) → HallStands self.now u → result ≡ unclaimed.is_left place.now u }
    {
        self.sides.has_text(place) && !self.is_taken(place)
    }
}

/// With whom the node of a member has a link at which a text waits.
fn peers_by(node: Option<&Node>) -> ArrayVec<Call, 64>
    ensures { (n : Option NodeState) → LentStands (option_copied node.entry) n → result.items ≡ unclaimed.peers_by n }
{
    match node {
        Some(node) => node.links().texts(),
        None => ArrayVec::new(),
    }
}

/// The end that is so far behind the first one that it holds.
fn end_by(node: Option<&Node>, nth: usize) -> Option<u64>
    ensures { (n : Option NodeState) → LentStands (option_copied node.entry) n → result ≡ unclaimed.end_by n nth }
{
    match node {
        Some(node) => node.circuits().held(nth),
        None => None,
    }
}

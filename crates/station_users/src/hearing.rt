//! What has happened at the members, as the sessions hear it. Called by `users`.
ghost use Rattle.std.specs.Prelude.{◌≡◌, OnOk};
ghost use Rattle.circuit_table.specs.Standing.{event_told};
ghost use Rattle.node_core.specs.Standing.{entry_of};
ghost use Rattle.station_users.specs.Hearing as hearing;
ghost use Rattle.station_users.specs.Outcomes as outcomes;
ghost use Rattle.station_users.specs.Standing.{AtGoes, HallGoes};
ghost use Rattle.station_users.specs.States.{at_far, at_nth};

use crate::hall::Hall;
use crate::outcomes::{far_ended, hear_link, hear_notice};
use crate::turn::Turn;
use ax_address::Call;
use ax_link::LinkNotice;
use circuit_l4::EndNotice;
use circuit_table::SetEvent;
use node_core::NodeEntry;
use radio_base::NoMemory;
use station_places::Sides;
use station_sessions::{Place, Presence, Session};

impl Hall {
    /// Hears what the member at a place has told.
    pub(crate) fn hear(
        &mut self,
        member: usize,
        entry: &NodeEntry,
        turn: Turn,
    ) -> Result<(), NoMemory>
        ensures { OnOk result (HallGoes (hearing.hear member (entry_of entry.now) turn.moment) self.old self.new) }
    {
        match entry {
            NodeEntry::Set(event) => self.hear_set(member, event, turn),
            NodeEntry::Link(peer, notice) => self.hear_link(member, peer, *notice, turn),
            NodeEntry::Overflow { .. } => Ok(()),
        }
    }

    // ---- circuits

    fn hear_set(&mut self, member: usize, event: &SetEvent, turn: Turn) -> Result<(), NoMemory>
        ensures { OnOk result (HallGoes (hearing.hear_set member (event_told event.now) turn.moment) self.old self.new) }
    {
        match event {
            SetEvent::Made {
                id,
                request: Some(request),
                partner,
                pair: _,
            } => self.greet_end(member, *id, partner, request, turn),
            SetEvent::Notice { id, notice } => self.hear_notice(member, *id, *notice, turn),
            SetEvent::Gone { id, facts: _ } => self.hear_gone(member, *id, turn),
            SetEvent::Made { request: None, .. }
            | SetEvent::Sent { .. }
            | SetEvent::Heeded { .. }
            | SetEvent::Dropped(_)
            | SetEvent::Lost(_) => Ok(()),
        }
    }

    fn hear_notice(
        &mut self,
        member: usize,
        id: u64,
        notice: EndNotice,
        turn: Turn,
    ) -> Result<(), NoMemory>
        ensures { OnOk result (HallGoes (hearing.hear_end_notice member id notice turn.moment) self.old self.new) }
    {
        match self.far_at(&Place::End { member, id }) {
            Some(nth) => {
                self.note_at(notice, nth, turn)?;
                Ok(())
            }
            None => Ok(()),
        }
    }

    fn note_at(&mut self, notice: EndNotice, nth: usize, turn: Turn) -> Result<(), NoMemory>
        ensures { OnOk result
            (HallGoes (at_nth nth (outcomes.hear_notice notice turn.moment)) self.old self.new) }
    {
        if nth < self.sessions.len() {
            hear_notice(notice, &mut self.sessions[nth], &self.sides, turn)?;
            Ok(())
        } else {
            Ok(())
        }
    }

    fn hear_gone(&mut self, member: usize, id: u64, turn: Turn) -> Result<(), NoMemory>
        ensures { OnOk result (HallGoes (hearing.hear_gone member id turn.moment) self.old self.new) }
    {
        match self.far_at(&Place::End { member, id }) {
            Some(nth) => {
                self.end_far(nth, turn)?;
                Ok(())
            }
            None => Ok(()),
        }
    }

    fn end_far(&mut self, nth: usize, turn: Turn) -> Result<(), NoMemory>
        ensures { OnOk result (HallGoes (at_nth nth (outcomes.far_ended turn.moment)) self.old self.new) }
    {
        if nth < self.sessions.len() {
            far_ended(&mut self.sessions[nth], &mut self.sides, turn)?;
            Ok(())
        } else {
            Ok(())
        }
    }

    // ---- links

    /// Something has become of the link with a peer.
    #[tactic(auto, unfolding(crate::specs::Hearing::hear_link))]
    fn hear_link(
        &mut self,
        member: usize,
        peer: &Call,
        notice: LinkNotice,
        turn: Turn,
    ) -> Result<(), NoMemory>
        ensures { OnOk result
            (HallGoes (hearing.hear_link member peer.now notice turn.moment) self.old self.new) }
    {
        self.leave_unless_opened(member, peer, notice);
        self.hear_far_link(member, peer, notice, turn)?;
        Ok(())
    }

    fn leave_unless_opened(&mut self, member: usize, peer: &Call, notice: LinkNotice)
        ensures { HallGoes (hearing.leave_unless_opened member peer.now notice) self.old self.new }
    {
        if notice != LinkNotice::Opened {
            self.user_left(member, peer);
        }
    }

    /// The user at the link has left.
    fn user_left(&mut self, member: usize, peer: &Call)
        ensures { HallGoes (hearing.user_left member peer.now) self.old self.new }
    {
        let place = Place::Link {
            member,
            peer: *peer,
        };
        for nth in 0..self.sessions.len() {
            self.leave_at(&place, nth);
        }
    }

    fn leave_at(&mut self, place: &Place, nth: usize)
        ensures { HallGoes (at_nth nth (hearing.leaves_at place.now)) self.old self.new }
    {
        if nth < self.sessions.len() {
            leave_at(place, &mut self.sessions[nth], &self.sides);
        }
    }

    fn hear_far_link(
        &mut self,
        member: usize,
        peer: &Call,
        notice: LinkNotice,
        turn: Turn,
    ) -> Result<(), NoMemory>
        ensures { OnOk result
            (HallGoes (hearing.hear_far_link member peer.now notice turn.moment) self.old self.new) }
    {
        let place = Place::Link {
            member,
            peer: *peer,
        };
        match self.far_at(&place) {
            Some(nth) => {
                self.note_link(member, peer, notice, nth, turn)?;
                Ok(())
            }
            None => Ok(()),
        }
    }

    fn note_link(
        &mut self,
        member: usize,
        peer: &Call,
        notice: LinkNotice,
        nth: usize,
        turn: Turn,
    ) -> Result<(), NoMemory>
        ensures { OnOk result
            (HallGoes (at_nth nth (outcomes.hear_link notice member peer.now turn.moment)) self.old self.new) }
    {
        if nth < self.sessions.len() {
            hear_link(
                notice,
                member,
                peer,
                &mut self.sessions[nth],
                &mut self.sides,
                turn,
            )?;
            Ok(())
        } else {
            Ok(())
        }
    }
}

/// The user of a session at this place has left.
fn leave_at(place: &Place, session: &mut Session, sides: &Sides)
    ensures { AtGoes (hearing.leaves_at place.now) sides.now session.old sides.now session.new }
{
    if session.is_at(place) {
        session.set_presence(Presence::Gone);
    }
}

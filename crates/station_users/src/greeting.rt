//! Users who come. Called by `hearing`, `unclaimed` and `consoles`.
ghost use Rattle.std.specs.Prelude.{◌≡◌, OnOk};
ghost use Rattle.station_lists.specs.Telling.{told_text};
ghost use Rattle.station_users.specs.Greeting as greeting;
ghost use Rattle.station_users.specs.Standing.{HallGoes, HallStands};
ghost use Rattle.station_users.specs.States.{UsersState};

use crate::connecting::is_post_at;
use crate::hall::Hall;
use crate::telling::{answer, tell};
use crate::things::let_go;
use crate::turn::Turn;
use ax_address::Call;
use circuit_l4::{Transport, read_transport};
use l3_datagram::{Datagram, HEAD_SIZE};
use node_core::UserAct;
use radio_base::NoMemory;
use station_lists::Told;
use station_sessions::{Place, Session};

/// The most sessions of a station (this project's profile).
const MAX_SESSIONS: usize = 64;

impl Hall {
    /// A user comes at an end that a request has opened, where users are served; else the end is closed.
    #[tactic(auto, unfolding(crate::specs::Greeting::greet_end))]
    pub(crate) fn greet_end(
        &mut self,
        member: usize,
        id: u64,
        partner: &Call,
        request: &Datagram,
        turn: Turn,
    ) -> Result<(), NoMemory>
        ensures { OnOk result
            (HallGoes (greeting.greet_end member id partner.now request.now.items turn.moment) self.old self.new) }
    {
        match user_of(request) {
            Some(user) => self.greet_user(user, member, id, partner, turn),
            None => self.close_end(member, id, turn),
        }
    }

    fn greet_user(
        &mut self,
        user: Call,
        member: usize,
        id: u64,
        partner: &Call,
        turn: Turn,
    ) -> Result<(), NoMemory>
        ensures { OnOk result
            (HallGoes (greeting.greet_user user member id partner.now turn.moment) self.old self.new) }
    {
        if self.serves(member) {
            let session = Session::new(
                turn.alloc,
                user,
                member,
                Some(*partner),
                Place::End { member, id },
                turn.moment,
            );
            self.greet(session, turn)?;
            Ok(())
        } else {
            self.close_end(member, id, turn)?;
            Ok(())
        }
    }

    fn close_end(&mut self, member: usize, id: u64, turn: Turn) -> Result<(), NoMemory>
        ensures { OnOk result (HallGoes (greeting.close_end member id turn.moment) self.old self.new) }
    {
        self.sides.act(member, &UserAct::Close { id }, turn.moment)?;
        Ok(())
    }

    /// Whether the member at a place serves users.
    pub(crate) fn serves(&self, member: usize) -> bool
        ensures { (u : UsersState) → HallStands self.now u → result ≡ greeting.serves member u }
    {
        !is_post_at(member, self.about.post) && self.has_users(member)
    }

    fn has_users(&self, member: usize) -> bool
        ensures { (u : UsersState) → HallStands self.now u → result ≡ greeting.has_users member u }
    {
        match self.sides.members.rules(member) {
            Some(rules) => rules.users,
            None => false,
        }
    }

    /// A session for a user; where there is none for him he is told why, and is let go.
    #[tactic(auto, unfolding(crate::specs::Greeting::greet))]
    pub(crate) fn greet(&mut self, session: Session, turn: Turn) -> Result<(), NoMemory>
        ensures { OnOk result (HallGoes (greeting.greet session turn.moment) self.old self.new) }
    {
        if self.is_stopping {
            self.turn_away(session, &Told::GoingDown, turn)?;
            Ok(())
        } else {
            self.admit(session, turn)?;
            Ok(())
        }
    }

    #[tactic(auto, unfolding(crate::specs::Greeting::admit))]
    fn admit(&mut self, session: Session, turn: Turn) -> Result<(), NoMemory>
        ensures { OnOk result (HallGoes (greeting.admit session turn.moment) self.old self.new) }
    {
        if self.sessions.len() >= MAX_SESSIONS {
            self.turn_away(session, &Told::NoRoom, turn)?;
            Ok(())
        } else {
            self.welcome(session, turn)?;
            Ok(())
        }
    }

    #[tactic(auto, unfolding(crate::specs::Greeting::welcome))]
    fn welcome(&mut self, session: Session, turn: Turn) -> Result<(), NoMemory>
        ensures { OnOk result (HallGoes (greeting.welcome session) self.old self.new) }
    {
        let mut session = session;
        tell(
            &mut session,
            &self.sides,
            &Told::Welcome(&self.about.name),
            turn.alloc,
        )?;
        self.sessions.push(session)?;
        Ok(())
    }

    /// A user is told why there is no session for him, and is let go. Pieces of that for which his link has no room are lost, as no session
    /// keeps them.
    #[tactic(auto, unfolding(crate::specs::Greeting::turn_away))]
    fn turn_away(&mut self, session: Session, why: &Told<'_>, turn: Turn) -> Result<(), NoMemory>
        ensures { OnOk result
            (HallGoes (greeting.turn_away (told_text why.now) session turn.moment) self.old self.new) }
    {
        let mut session = session;
        answer(&mut session, &mut self.sides, why, turn)?;
        let_go(&mut session, &mut self.sides, turn.moment)?;
        Ok(())
    }
}

/// The user whom a request names.
fn user_of(request: &Datagram) -> Option<Call>
    ensures { result ≡ greeting.user_of request.now.items }
{
    if request.len() < HEAD_SIZE {
        return None;
    }
    match read_transport(&request.as_slice()[HEAD_SIZE..]) {
        Ok(transport) => user_in(&transport),
        Err(_) => None,
    }
}

fn user_in(transport: &Transport) -> Option<Call>
    ensures { result ≡ greeting.user_in transport.now }
{
    match transport {
        Transport::Request { user, .. } => Some(*user),
        Transport::Accept { .. }
        | Transport::Refuse { .. }
        | Transport::Disconnect { .. }
        | Transport::Disconnected { .. }
        | Transport::Info { .. }
        | Transport::InfoAck { .. } => None,
    }
}

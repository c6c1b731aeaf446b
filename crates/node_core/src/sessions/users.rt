//! The user's side of a session: the end of a circuit that came here, or a link. Called by `bridging` and `serving`.
ghost use Rattle.std.specs.Prelude.{◌≡◌, IfOk, OnOk, slice_get};
ghost use Rattle.std.specs.Fn.{FnOnceReturnsAtMut};
ghost use Rattle.std.specs.Option.{option_copied};
ghost use Rattle.circuit_table.specs.CircuitSets.{partner_at};
ghost use Rattle.node_model.specs.Users as users;
ghost use Rattle.link_table.specs.Standing.{TextNotNoMemory};
ghost use Rattle.node_core.specs.Going.{SetHoldsTold};
ghost use Rattle.node_model.specs.States.{State};

use crate::sessions::Session;
use crate::station::Station;
use ax_address::Call;
use circuit_l4::EndPhase;
use circuit_table::{CircuitSet, NoEnd, SetRefusal};
use l3_datagram::Message;
use link_table::{LinkTable, TextRefusal};
use node_model::User;
use radio_base::{Moment, NoMemory};

/// With how many bytes queued at most an end has room for a text.
const MOST_QUEUED: usize = 57_344;

/// For how many payloads a link has room that has room for a text, which has at most 8,192 bytes.
const LEAST_ROOM: usize = 33;

/// The same where the acknowledgement of what is taken goes over that link first.
const LEAST_ROOM_BESIDE: usize = 34;

impl Station {
    ghost use Rattle.node_core.specs.Going.{ChangesBy, HoldsTold, StandsTold, Steps, Turns};

    /// Whether nothing is said to the user any more.
    pub(crate) fn is_deaf(&self, session: &Session) -> bool
        ensures { (n : State) → HoldsTold self.now n → result ≡ users.is_deaf session.now n }
    {
        session.has_said_bye() || has_ended(&self.set, session)
    }

    /// Whether an end has room for a text.
    pub(crate) fn end_has_room(&self, id: u64) -> bool
        ensures { (n : State) → HoldsTold self.now n → result ≡ users.end_has_room id n }
    {
        match self.set.facts(id) {
            Some(facts) => facts.phase == EndPhase::Up && facts.queued <= MOST_QUEUED,
            None => false,
        }
    }

    /// Whether the link with a peer has room for a text.
    fn link_has_room(&self, peer: &Call) -> bool
        ensures { (n : State) → HoldsTold self.now n → result ≡ users.link_has_room peer.now n }
    {
        self.set.router().carrier().room(peer) >= LEAST_ROOM
    }

    /// Whether the link with a peer has room for a message of the circuit of an end.
    fn link_has_room_beside(&self, peer: &Call, id: u64) -> bool
        ensures { (n : State) → HoldsTold self.now n → result ≡ users.link_has_room_beside peer.now id n }
    {
        self.set.router().carrier().room(peer) >= self.payloads_beside(peer, id)
    }

    /// For how many payloads that link then has room at least.
    fn payloads_beside(&self, peer: &Call, id: u64) -> usize
        ensures { (n : State) → HoldsTold self.now n → result ≡ users.payloads_beside peer.now id n }
    {
        if self.goes_over(peer, id) {
            LEAST_ROOM_BESIDE
        } else {
            LEAST_ROOM
        }
    }

    /// Whether the datagrams of an end go over the link with a peer.
    fn goes_over(&self, peer: &Call, id: u64) -> bool
        ensures { (n : State) → HoldsTold self.now n
            → result ≡ users.goes_over peer.now (users.hop_to (partner_at (users.end_at id n)) n) }
    {
        match self.set.partner(id) {
            Some(partner) => match self.set.router().table().next_hop(&partner) {
                Some(hop) => *peer == hop,
                None => false,
            },
            None => false,
        }
    }

    /// Whether the user's side has room for a text.
    pub(crate) fn has_room(&self, session: &Session) -> bool
        ensures { (n : State) → HoldsTold self.now n → result ≡ users.has_room session.now n }
    {
        match session.user() {
            User::AtEnd(id) => self.end_has_room(id),
            User::AtLink(peer) => !session.has_left() && self.link_has_room(&peer),
        }
    }

    /// Whether it has room for a message of the circuit of an end.
    fn has_room_beside(&self, session: &Session, id: u64) -> bool
        ensures { (n : State) → HoldsTold self.now n → result ≡ users.has_room_beside session.now id n }
    {
        match session.user() {
            User::AtEnd(user) => self.end_has_room(user),
            User::AtLink(peer) => !session.has_left() && self.link_has_room_beside(&peer, id),
        }
    }

    /// Whether a message of the circuit of an end can be given to the user, or is dropped.
    pub(crate) fn can_pass_on(&self, session: &Session, id: u64) -> bool
        ensures { (n : State) → HoldsTold self.now n → result ≡ users.can_pass_on session.now id n }
    {
        self.is_deaf(session) || self.has_room_beside(session, id)
    }

    /// Whether what is for the user can be given to it, or is dropped.
    pub(crate) fn can_give(&self, session: &Session) -> bool
        ensures { (n : State) → HoldsTold self.now n → result ≡ users.can_give session.now n }
    {
        self.is_deaf(session) || self.has_room(session)
    }

    /// Gives the user of a session a text, unless nothing is said to it any more.
    pub(crate) fn say(&mut self, nth: usize, text: &Message, now: Moment) -> Result<(), NoMemory>
        requires { StandsTold self.old }
        ensures { OnOk result (Steps (users.say now.0 nth text.now.items) self.old self.new) }
    {
        match self.listener(nth) {
            Some(user) => self.say_to(&user, text, now),
            None => Ok(()),
        }
    }

    /// Gives a user a text, where its side takes it.
    fn say_to(&mut self, user: &User, text: &Message, now: Moment) -> Result<(), NoMemory>
        requires { StandsTold self.old }
        ensures { OnOk result (Steps (users.say_to user.now now.0 text.now.items) self.old self.new) }
    {
        match user {
            User::AtEnd(id) => self.write_to(*id, text.as_slice(), now),
            User::AtLink(peer) => self.send(peer, text.as_slice(), now),
        }
    }

    /// The session in a place.
    pub(crate) fn session(&self, nth: usize) -> Option<&Session>
        ensures { option_copied result ≡ slice_get self.now.sessions.items nth }
    {
        self.sessions.get(nth)
    }

    /// Changes the session in a place, if there is one.
    pub(crate) fn with_session<F: FnOnce(&mut Session)>(&mut self, nth: usize, change: F)
        requires { F.IsAlwaysCallable change }
        ensures { ChangesBy nth (λ x y. FnOnceReturnsAtMut F.FnOnce change x tt y) self.old self.new }
    {
        if let Some(session) = self.sessions.get_mut(nth) {
            change(session);
        }
    }

    /// The user of a session, unless it has left.
    fn present(&self, nth: usize) -> Option<User>
        ensures { (n : State) → HoldsTold self.now n → result ≡ users.present (users.session_at nth n) }
    {
        let session = self.session(nth)?;
        if session.has_left() {
            None
        } else {
            Some(session.user())
        }
    }

    /// The user of a session, if anything is said to it.
    fn listener(&self, nth: usize) -> Option<User>
        ensures { (n : State) → HoldsTold self.now n → result ≡ users.listener (users.session_at nth n) n }
    {
        let session = self.session(nth)?;
        if self.is_deaf(session) {
            None
        } else {
            Some(session.user())
        }
    }

    /// Writes a text for the partner of an end, where that isn't refused.
    pub(crate) fn write_to(&mut self, id: u64, text: &[u8], now: Moment) -> Result<(), NoMemory>
        requires { StandsTold self.old }
        ensures { OnOk result (Steps (users.write_to now.0 id text.now) self.old self.new) }
    {
        if let Err(SetRefusal::NoMemory) = self.set.write(id, text, now) {
            return Err(NoMemory);
        }
        self.pump(now)?;
        Ok(())
    }

    /// Sends a text over the link with a peer, where that isn't refused.
    fn send(&mut self, peer: &Call, text: &[u8], now: Moment) -> Result<(), NoMemory>
        ensures { OnOk result (Steps (users.send now.0 peer.now text.now) self.old self.new) }
    {
        let links = self.set.router_mut().carrier_mut();
        not_spent(links.send_text(peer, text, now))?;
        Ok(())
    }

    /// Takes the next text of the user of a session, where one waits. Whether one did.
    pub(crate) fn take_text(&mut self, nth: usize, now: Moment) -> Result<bool, NoMemory>
        requires { StandsTold self.old }
        ensures { IfOk result (Turns (users.take_text now.0 nth) self.old self.new) }
    {
        match self.present(nth) {
            Some(user) => self.take_next(nth, &user, now),
            None => Ok(false),
        }
    }

    /// The same of this user.
    fn take_next(&mut self, nth: usize, user: &User, now: Moment) -> Result<bool, NoMemory>
        requires { StandsTold self.old }
        ensures { IfOk result (Turns (users.take_next user.now now.0 nth) self.old self.new) }
    {
        match user {
            User::AtEnd(id) => self.take_from_end(nth, *id, now),
            User::AtLink(peer) => self.take_from_link(nth, peer, now),
        }
    }

    /// The same of a user at an end.
    fn take_from_end(&mut self, nth: usize, id: u64, now: Moment) -> Result<bool, NoMemory>
        requires { StandsTold self.old }
        ensures { IfOk result (Turns (users.take_from_end now.0 nth id) self.old self.new) }
    {
        let mut text = Message::new();
        let taken = has_taken(self.set.take(id, &mut text, now));
        if taken {
            self.with_session(nth, |session| session.begin(text));
            self.pump(now)?;
        }
        Ok(taken)
    }

    /// The same of a user at a link.
    fn take_from_link(&mut self, nth: usize, peer: &Call, now: Moment) -> Result<bool, NoMemory>
        ensures { IfOk result (Turns (users.take_from_link now.0 nth peer.now) self.old self.new) }
    {
        let mut text = Message::new();
        let links = self.set.router_mut().carrier_mut();
        let taken = links.take_text(peer, &mut text, now)?;
        if taken {
            self.with_session(nth, |session| session.begin(text));
        }
        Ok(taken)
    }

    /// Closes the user's side of a session.
    pub(crate) fn close_user(&mut self, nth: usize, now: Moment) -> Result<(), NoMemory>
        requires { StandsTold self.old }
        ensures { OnOk result (Steps (users.close_user now.0 nth) self.old self.new) }
    {
        match self.present(nth) {
            Some(user) => self.close_side(&user, now),
            None => Ok(()),
        }
    }

    /// Closes the side of this user.
    fn close_side(&mut self, user: &User, now: Moment) -> Result<(), NoMemory>
        requires { StandsTold self.old }
        ensures { OnOk result (Steps (users.close_side user.now now.0) self.old self.new) }
    {
        match user {
            User::AtEnd(id) => self.close_end(*id, now),
            User::AtLink(peer) => self.close_link(peer, now),
        }
    }

    /// Closes the circuit of an end.
    pub(crate) fn close_end(&mut self, id: u64, now: Moment) -> Result<(), NoMemory>
        requires { StandsTold self.old }
        ensures { OnOk result (Steps (users.close now.0 id) self.old self.new) }
    {
        let _ = self.set.close(id, now);
        self.pump(now)?;
        Ok(())
    }

    fn close_link(&mut self, peer: &Call, now: Moment) -> Result<(), NoMemory>
        ensures { OnOk result (Steps (users.close_link now.0 peer.now) self.old self.new) }
    {
        self.set.router_mut().carrier_mut().close(peer, now)?;
        Ok(())
    }
}

/// Whether the user's side has ended.
fn has_ended(set: &CircuitSet<LinkTable>, session: &Session) -> bool
    ensures { (n : State) → SetHoldsTold set.now n → result ≡ users.has_ended session.now n }
{
    match session.user() {
        User::AtEnd(id) => match set.facts(id) {
            Some(facts) => facts.phase == EndPhase::Ended,
            None => true,
        },
        User::AtLink(_) => session.has_left(),
    }
}

/// Whether the user's side has ended and no text of it waits.
pub(crate) fn is_gone(set: &CircuitSet<LinkTable>, session: &Session) -> bool
    ensures { (n : State) → SetHoldsTold set.now n → result ≡ users.is_gone session.now n }
{
    match session.user() {
        User::AtEnd(id) => set.facts(id).is_none(),
        User::AtLink(_) => session.has_left(),
    }
}

/// Whether a message was taken.
pub(crate) fn has_taken(taken: Result<bool, NoEnd>) -> bool
    ensures { result ≡ users.has_taken taken }
{
    match taken {
        Ok(taken) => taken,
        Err(_) => false,
    }
}

/// A text was sent or refused, but not for want of memory.
fn not_spent(outcome: Result<(), TextRefusal>) -> Result<(), NoMemory>
    ensures { OnOk result (TextNotNoMemory outcome) }
{
    match outcome {
        Err(TextRefusal::NoMemory) => Err(NoMemory),
        Ok(()) | Err(TextRefusal::NoLink | TextRefusal::TooLong | TextRefusal::Full) => Ok(()),
    }
}

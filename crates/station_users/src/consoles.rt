//! Consoles: users who are there themselves. Called by `users`.
ghost use Rattle.std.specs.Prelude.{◌≡◌, ◌≤◌, IfOk, OnOk};
ghost use Rattle.station_users.specs.Consoles as consoles;
ghost use Rattle.station_users.specs.Standing.{HallGoes, HallStands};
ghost use Rattle.station_users.specs.States.{UsersState, at_nth};
ghost use Rattle.station_users.specs.Steps.{at_session};

use crate::hall::Hall;
use crate::turn::Turn;
use ax_address::Call;
use radio_base::{NoMemory, TextOut};
use station_sessions::{Place, Presence, Session};
use std::alloc::Global;

/// How many consoles there are.
const CONSOLES: u8 = 8;

/// The most bytes of a text that is typed.
const MAX_TYPED: usize = 8_192;

/// The most bytes that were typed at a console and wait.
const MAX_WAITING: usize = 65_536;

impl Hall {
    /// A console is opened under a call that no member has. An open one is hung up first.
    pub(crate) fn open(&mut self, console: u8, call: &Call, turn: Turn) -> Result<(), NoMemory>
        ensures { OnOk result (HallGoes (consoles.open_console console call.now turn.moment) self.old self.new) }
    {
        if self.is_refused(console, call) {
            return Ok(());
        }
        self.hang_up(console);
        let place = Place::Console(console);
        let session = Session::new(turn.alloc, *call, 0, None, place, turn.moment);
        self.greet(session, turn)?;
        Ok(())
    }

    /// Whether there is no such console, or a member has the call.
    fn is_refused(&self, console: u8, call: &Call) -> bool
        ensures { (u : UsersState) → HallStands self.now u → result ≡ consoles.is_refused console call.now u }
    {
        console >= CONSOLES || self.sides.members.place_of(call).is_some()
    }

    /// A text is typed at a console that is open, where it isn't too much.
    pub(crate) fn type_text(&mut self, console: u8, text: &[u8]) -> Result<(), NoMemory>
        ensures { OnOk result (HallGoes (consoles.type_text console text.now) self.old self.new) }
    {
        match self.user_at(&Place::Console(console)) {
            Some(nth) => {
                self.type_nth(text, nth)?;
                Ok(())
            }
            None => Ok(()),
        }
    }

    fn type_nth(&mut self, text: &[u8], nth: usize) -> Result<(), NoMemory>
        ensures { OnOk result (HallGoes (at_nth nth (consoles.type_at text.now)) self.old self.new) }
    {
        if nth < self.sessions.len() {
            type_at(text, &mut self.sessions[nth], self.alloc)?;
            Ok(())
        } else {
            Ok(())
        }
    }

    /// A console is hung up.
    pub(crate) fn hang_up(&mut self, console: u8)
        ensures { HallGoes (consoles.hang_up console) self.old self.new }
    {
        match self.user_at(&Place::Console(console)) {
            Some(nth) => self.leave_nth(nth),
            None => {}
        }
    }

    fn leave_nth(&mut self, nth: usize)
        ensures { HallGoes (at_nth nth (at_session consoles.hung_up)) self.old self.new }
    {
        if nth < self.sessions.len() {
            self.sessions[nth].set_presence(Presence::Gone);
        }
    }

    /// Whether a console is open.
    pub(crate) fn is_open(&self, console: u8) -> bool
        ensures { (u : UsersState) → HallStands self.now u → result ≡ consoles.is_open console u }
    {
        self.user_at(&Place::Console(console)).is_some()
    }
}

/// A text is typed, where what is typed is taken.
fn type_at(text: &[u8], session: &mut Session, alloc: Global) -> Result<(), NoMemory>
    ensures { OnOk result (session.new ≡ consoles.typed text.now session.old) }
{
    if takes(session, text) {
        session.type_text(text_of(text, alloc)?)?;
        Ok(())
    } else {
        Ok(())
    }
}

fn text_of(octets: &[u8], alloc: Global) -> Result<TextOut, NoMemory>
    ensures { IfOk result (λ text. text ≡ octets.now) }
{
    let mut text = TextOut::new(alloc);
    text.octets(octets)?;
    Ok(text)
}

/// Whether what is typed at a console is taken.
fn takes(session: &Session, text: &[u8]) -> bool
    ensures { result ≡ consoles.takes text.now session.now }
{
    session.presence() == Presence::Here
        && !text.is_empty()
        && text.len() <= MAX_TYPED
        && has_room_for(session, text.len())
}

/// Whether so many bytes more may wait.
fn has_room_for(session: &Session, size: usize) -> bool
    requires { size ≤ 8192 }
    ensures { result ≡ consoles.has_room_for size session.now }
{
    session.typed_size() <= MAX_WAITING - size
}

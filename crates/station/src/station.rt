//! The whole machine. Called by whoever runs a station.
ghost use Rattle.std.specs.Prelude.{◌≡◌, ◌<◌, ◌↔◌, length, slice_get, IfSome, IsErr, IsTrue, OnOk};
ghost use Rattle.station.specs.States as states;
ghost use Rattle.station.specs.States.{StationState};
ghost use Rattle.station_members.specs.Looks.{place_of};
ghost use Rattle.station_users.specs.Consoles.{is_open};
ghost use Rattle.station_users.specs.Standing.{UsersStand};
ghost use Rattle.station_users.specs.States.{UsersState};

use crate::station_out::StationOut;
use crate::works::Works;
use ax_address::Call;
use radio_base::{Moment, NoMemory};
use station_entries::StationEntry;
use station_users::Users;
use std::alloc::Global;
use std::marker::Model;

/// A station: its members and their users. A pure machine, which reads no clock and no stream.
///
/// - Inputs, with their moments: `hear`, `tick`, `round`, `open`, `type_text`, `hang_up`, `stop`. After each, frames are sent, what was told
///   is read and users are served, turn after turn, while something is done, at most 1,000 times.
/// - Output, to be fetched after each input until nothing waits: `next_out`, `next_entry`. What nobody fetches is kept.
/// - Looks: the others.
///
/// Once a call has answered NoMemory it is spent, and answers that ever after. What each call does stands in `specs/States.antt`.
#[derive(Drop)]
pub struct Station {
    works: Works,
    spent: bool,
}

impl Model for Station {
    ghost use Rattle.std.specs.Coded.{codes};
    ghost use Rattle.station_users.specs.contracts.users.Users.{the_row as users_row};
    ghost use Rattle.station.specs.Standing.{Kept, view_of};

    ghost Value = { Kept };

    ghost coded = { Prim.hlevel (codes, users_row.coded) };

    ghost view = { λ s. view_of s.works s.spent };
}

impl Station {
    ghost use Rattle.station.specs.Standing.{StationGo, StationStand, entries_left, outs_left};

    /// A station of these users, and of the members at which they are.
    pub fn new(alloc: Global, users: Users) -> Station
        ensures { (u : UsersState) → UsersStand users u → StationStand result (states.new_state u) }
    {
        Station {
            works: Works::new(alloc, users),
            spent: false,
        }
    }

    /// A frame comes at a port, from 0.
    pub fn hear(&mut self, port: u8, octets: &[u8], now: Moment) -> Result<(), NoMemory>
        ensures goes { OnOk result (StationGo (states.hear port octets.now now) self.old self.new) }
        ensures memory { IsErr result ↔ IsTrue self.new.spent }
        ensures spent { IsTrue self.old.spent → self.new ≡ self.old }
    {
        if self.spent {
            return Err(NoMemory);
        }
        let outcome = self.works.hear(port, octets, now);
        self.spent = outcome.is_err();
        outcome
    }

    /// Time has passed.
    pub fn tick(&mut self, now: Moment) -> Result<(), NoMemory>
        ensures goes { OnOk result (StationGo (states.tick now) self.old self.new) }
        ensures memory { IsErr result ↔ IsTrue self.new.spent }
        ensures spent { IsTrue self.old.spent → self.new ≡ self.old }
    {
        if self.spent {
            return Err(NoMemory);
        }
        let outcome = self.works.tick(now);
        self.spent = outcome.is_err();
        outcome
    }

    /// Each member does a round, in their order.
    pub fn round(&mut self, now: Moment) -> Result<(), NoMemory>
        ensures goes { OnOk result (StationGo (states.round now) self.old self.new) }
        ensures memory { IsErr result ↔ IsTrue self.new.spent }
        ensures spent { IsTrue self.old.spent → self.new ≡ self.old }
    {
        if self.spent {
            return Err(NoMemory);
        }
        let outcome = self.works.round(now);
        self.spent = outcome.is_err();
        outcome
    }

    /// A console, from 0 to 7, is opened under a call that no member has; an open one is hung up first. Else nothing is done.
    pub fn open(&mut self, console: u8, call: &Call, now: Moment) -> Result<(), NoMemory>
        ensures goes { OnOk result (StationGo (states.open_console console call.now now) self.old self.new) }
        ensures memory { IsErr result ↔ IsTrue self.new.spent }
        ensures spent { IsTrue self.old.spent → self.new ≡ self.old }
    {
        if self.spent {
            return Err(NoMemory);
        }
        let outcome = self.works.open(console, call, now);
        self.spent = outcome.is_err();
        outcome
    }

    /// A text is typed at a console that is open, where it isn't too much.
    pub fn type_text(&mut self, console: u8, text: &[u8], now: Moment) -> Result<(), NoMemory>
        ensures goes { OnOk result (StationGo (states.type_text console text.now now) self.old self.new) }
        ensures memory { IsErr result ↔ IsTrue self.new.spent }
        ensures spent { IsTrue self.old.spent → self.new ≡ self.old }
    {
        if self.spent {
            return Err(NoMemory);
        }
        let outcome = self.works.type_text(console, text, now);
        self.spent = outcome.is_err();
        outcome
    }

    /// A console is hung up, where it is open.
    pub fn hang_up(&mut self, console: u8, now: Moment) -> Result<(), NoMemory>
        ensures goes { OnOk result (StationGo (states.hang_up console now) self.old self.new) }
        ensures memory { IsErr result ↔ IsTrue self.new.spent }
        ensures spent { IsTrue self.old.spent → self.new ≡ self.old }
    {
        if self.spent {
            return Err(NoMemory);
        }
        let outcome = self.works.hang_up(console, now);
        self.spent = outcome.is_err();
        outcome
    }

    /// The station goes down: its users are told so, and are let go.
    pub fn stop(&mut self, now: Moment) -> Result<(), NoMemory>
        ensures goes { OnOk result (StationGo (states.stop now) self.old self.new) }
        ensures memory { IsErr result ↔ IsTrue self.new.spent }
        ensures spent { IsTrue self.old.spent → self.new ≡ self.old }
    {
        if self.spent {
            return Err(NoMemory);
        }
        let outcome = self.works.stop(now);
        self.spent = outcome.is_err();
        outcome
    }

    /// What it puts out next, the oldest thing. None where nothing waits.
    pub fn next_out(&mut self) -> Option<StationOut>
        ensures answer { (s : StationState) → StationStand self.old s → result ≡ states.next_out s }
        ensures goes { StationGo states.fetch_out self.old self.new }
        ensures fewer { IfSome result (λ _. outs_left self.new < outs_left self.old) }
        ensures spent { self.new.spent ≡ self.old.spent }
    {
        self.works.next_out()
    }

    /// What it tells next of what has happened at its members, the oldest thing. None where nothing waits.
    pub fn next_entry(&mut self) -> Option<StationEntry>
        ensures answer { (s : StationState) → StationStand self.old s → result ≡ slice_get s.entries 0 }
        ensures goes { StationGo states.fetch_entry self.old self.new }
        ensures fewer { IfSome result (λ _. entries_left self.new < entries_left self.old) }
        ensures spent { self.new.spent ≡ self.old.spent }
    {
        self.works.next_entry()
    }

    /// The place of the member of this call, where there is one.
    pub fn member_of(&self, call: &Call) -> Option<usize>
        ensures { (s : StationState) → StationStand self.now s → result ≡ place_of call.now (states.members_of s) }
    {
        self.works.users.members().place_of(call)
    }

    /// Whether a console is open.
    pub fn is_open(&self, console: u8) -> bool
        ensures { (s : StationState) → StationStand self.now s → result ≡ is_open console s.users }
    {
        self.works.users.is_open(console)
    }

    /// How many sessions there are.
    pub fn sessions(&self) -> usize
        ensures { (s : StationState) → StationStand self.now s → result ≡ length s.users.sessions }
    {
        self.works.users.len()
    }

    /// Whether memory ran out in an earlier call.
    pub fn is_spent(&self) -> bool
        ensures { result ≡ self.now.spent }
    {
        self.spent
    }
}

//! The users of a station. What each call does stands in `specs/`. Called by `station`.
ghost use Rattle.std.specs.Prelude.{◌≡◌, ◌↔◌, length, slice_get, IfOk, IfSome, IsErr, IsTrue, OnOk};
ghost use Rattle.std.specs.Option.{option_map};
ghost use Rattle.node_core.specs.Standing.{entry_of};
ghost use Rattle.station_members.specs.Standing.{MembersStand, told_by};
ghost use Rattle.station_members.specs.States as members;
ghost use Rattle.station_members.specs.States.{State};
ghost use Rattle.station_users.specs.Consoles as consoles;
ghost use Rattle.station_users.specs.Ending as ending;
ghost use Rattle.station_users.specs.Hearing as hearing;
ghost use Rattle.station_users.specs.Serving as serving;
ghost use Rattle.station_users.specs.States as states;
ghost use Rattle.station_users.specs.States.{UsersState, at_members};
ghost use Rattle.station_users.specs.Unclaimed as unclaimed;

use crate::hall::Hall;
use ax_address::Call;
use node_core::NodeEntry;
use radio_base::{Moment, NoMemory};
use station_looks::About;
use station_members::Members;
use station_places::ConsoleOut;
use station_ports::PortFrame;
use std::alloc::Global;
use std::marker::Model;

/// The users of a station, a session each, and its members, at which they act. A pure machine, which reads no clock and no stream.
///
/// - What comes to members: `hear_frame`, `tick_members`, `round`.
/// - What comes to users: `tick`, `open`, `type_text`, `hang_up`, `stop`.
/// - After each input, while something is done: `settle_frames`, `hear` of each `next_entry`, `take_unclaimed`, `serve`; and then `settled`.
/// - Output: `next_frame`, `next_out`. Looks: the others.
///
/// Once a call has answered NoMemory they are spent, and answer that ever after. What each call does stands in `specs/`.
#[derive(Drop)]
pub struct Users {
    hall: Hall,
    spent: bool,
}

impl Model for Users {
    ghost use Rattle.std.specs.Coded.{codes};
    ghost use Rattle.station_members.specs.contracts.members.Members.{the_row as members_row};
    ghost use Rattle.station_users.specs.Standing.{Kept, view_of};

    ghost Value = { Kept };

    ghost coded = { Prim.hlevel (codes, members_row.coded) };

    ghost view = { λ u. view_of u.hall u.spent };
}

impl Users {
    ghost use Rattle.station_users.specs.Standing.{UsersGo, UsersStand};

    /// No users yet, at these members.
    pub fn new(alloc: Global, about: About, members: Members) -> Users
        ensures { (s : State) → MembersStand members s → UsersStand result (states.new_state about s) }
    {
        Users {
            hall: Hall::new(alloc, about, members),
            spent: false,
        }
    }

    // ---- what comes to members

    /// A frame comes at a port, from 0.
    pub fn hear_frame(&mut self, port: u8, octets: &[u8], now: Moment) -> Result<(), NoMemory>
        ensures goes { OnOk result (UsersGo (at_members (members.hear port octets.now now)) self.old self.new) }
        ensures memory { IsErr result ↔ IsTrue self.new.spent }
        ensures spent { IsTrue self.old.spent → self.new ≡ self.old }
    {
        if self.spent {
            return Err(NoMemory);
        }
        let outcome = self.hall.hear_frame(port, octets, now);
        self.spent = outcome.is_err();
        outcome
    }

    /// Time has passed for all members.
    pub fn tick_members(&mut self, now: Moment) -> Result<(), NoMemory>
        ensures goes { OnOk result (UsersGo (at_members (members.tick now)) self.old self.new) }
        ensures memory { IsErr result ↔ IsTrue self.new.spent }
        ensures spent { IsTrue self.old.spent → self.new ≡ self.old }
    {
        if self.spent {
            return Err(NoMemory);
        }
        let outcome = self.hall.tick_members(now);
        self.spent = outcome.is_err();
        outcome
    }

    /// Each member does a round, in their order.
    pub fn round(&mut self, now: Moment) -> Result<(), NoMemory>
        ensures goes { OnOk result (UsersGo (at_members (members.round now)) self.old self.new) }
        ensures memory { IsErr result ↔ IsTrue self.new.spent }
        ensures spent { IsTrue self.old.spent → self.new ≡ self.old }
    {
        if self.spent {
            return Err(NoMemory);
        }
        let outcome = self.hall.round(now);
        self.spent = outcome.is_err();
        outcome
    }

    /// Each frame that waits at a member is sent, member by member. Whether there was one.
    pub fn settle_frames(&mut self, now: Moment) -> Result<bool, NoMemory>
        ensures goes { OnOk result (UsersGo (at_members (members.send_all now)) self.old self.new) }
        ensures sent { IfOk result (λ sent. (u : UsersState) → UsersStand self.old u
            → sent ≡ members.sends_any now u.sides.members) }
        ensures memory { IsErr result ↔ IsTrue self.new.spent }
        ensures spent { IsTrue self.old.spent → self.new ≡ self.old }
    {
        if self.spent {
            return Err(NoMemory);
        }
        let outcome = self.hall.settle_frames(now);
        self.spent = outcome.is_err();
        outcome
    }

    // ---- what comes to users

    /// Hears what the member at a place has told.
    pub fn hear(&mut self, member: usize, entry: &NodeEntry, now: Moment) -> Result<(), NoMemory>
        ensures goes { OnOk result (UsersGo (hearing.hear member (entry_of entry.now) now) self.old self.new) }
        ensures memory { IsErr result ↔ IsTrue self.new.spent }
        ensures spent { IsTrue self.old.spent → self.new ≡ self.old }
    {
        if self.spent {
            return Err(NoMemory);
        }
        let turn = self.hall.turn(now);
        let outcome = self.hall.hear(member, entry, turn);
        self.spent = outcome.is_err();
        outcome
    }

    /// Texts at links and ends that no session has: at a link that its peer has set up a user comes, where users are served; all else is
    /// taken and let fall. Whether any was let fall.
    pub fn take_unclaimed(&mut self, now: Moment) -> Result<bool, NoMemory>
        ensures goes { OnOk result (UsersGo (unclaimed.take_unclaimed now) self.old self.new) }
        ensures dropped { IfOk result (λ dropped. (u : UsersState) → UsersStand self.old u
            → dropped ≡ unclaimed.takes_unclaimed now u) }
        ensures memory { IsErr result ↔ IsTrue self.new.spent }
        ensures spent { IsTrue self.old.spent → self.new ≡ self.old }
    {
        if self.spent {
            return Err(NoMemory);
        }
        let turn = self.hall.turn(now);
        let outcome = self.hall.take_unclaimed(turn);
        self.spent = outcome.is_err();
        outcome
    }

    /// Each session does at most one thing, in the order of their making; then those that are over leave. Whether any did one.
    pub fn serve(&mut self, now: Moment) -> Result<bool, NoMemory>
        ensures goes { OnOk result (UsersGo (serving.serve now) self.old self.new) }
        ensures served { IfOk result (λ served. (u : UsersState) → UsersStand self.old u → served ≡ serving.serves now u) }
        ensures memory { IsErr result ↔ IsTrue self.new.spent }
        ensures spent { IsTrue self.old.spent → self.new ≡ self.old }
    {
        if self.spent {
            return Err(NoMemory);
        }
        let turn = self.hall.turn(now);
        let outcome = self.hall.serve(turn);
        self.spent = outcome.is_err();
        outcome
    }

    /// Before the next input comes: each session notes whether something waits at its far side.
    pub fn settled(&mut self)
        ensures goes { UsersGo serving.settled self.old self.new }
        ensures spent { self.new.spent ≡ self.old.spent }
    {
        self.hall.settled();
    }

    /// Time has passed for users: those at the prompt from whom nothing came for too long are let go.
    pub fn tick(&mut self, now: Moment) -> Result<(), NoMemory>
        ensures goes { OnOk result (UsersGo (ending.tick now) self.old self.new) }
        ensures memory { IsErr result ↔ IsTrue self.new.spent }
        ensures spent { IsTrue self.old.spent → self.new ≡ self.old }
    {
        if self.spent {
            return Err(NoMemory);
        }
        let turn = self.hall.turn(now);
        let outcome = self.hall.tick(turn);
        self.spent = outcome.is_err();
        outcome
    }

    /// The station goes down: all users are told so and let go, and all far sides are closed.
    pub fn stop(&mut self, now: Moment) -> Result<(), NoMemory>
        ensures goes { OnOk result (UsersGo (ending.stop now) self.old self.new) }
        ensures memory { IsErr result ↔ IsTrue self.new.spent }
        ensures spent { IsTrue self.old.spent → self.new ≡ self.old }
    {
        if self.spent {
            return Err(NoMemory);
        }
        let turn = self.hall.turn(now);
        let outcome = self.hall.stop(turn);
        self.spent = outcome.is_err();
        outcome
    }

    /// A console, from 0 to 7, is opened under a call that no member has. An open one is hung up first.
    pub fn open(&mut self, console: u8, call: &Call, now: Moment) -> Result<(), NoMemory>
        ensures goes { OnOk result (UsersGo (consoles.open_console console call.now now) self.old self.new) }
        ensures memory { IsErr result ↔ IsTrue self.new.spent }
        ensures spent { IsTrue self.old.spent → self.new ≡ self.old }
    {
        if self.spent {
            return Err(NoMemory);
        }
        let turn = self.hall.turn(now);
        let outcome = self.hall.open(console, call, turn);
        self.spent = outcome.is_err();
        outcome
    }

    /// A text is typed at a console that is open, where it isn't too much.
    pub fn type_text(&mut self, console: u8, text: &[u8]) -> Result<(), NoMemory>
        ensures goes { OnOk result (UsersGo (consoles.type_text console text.now) self.old self.new) }
        ensures memory { IsErr result ↔ IsTrue self.new.spent }
        ensures spent { IsTrue self.old.spent → self.new ≡ self.old }
    {
        if self.spent {
            return Err(NoMemory);
        }
        let outcome = self.hall.type_text(console, text);
        self.spent = outcome.is_err();
        outcome
    }

    /// A console is hung up.
    pub fn hang_up(&mut self, console: u8)
        ensures goes { UsersGo (consoles.hang_up console) self.old self.new }
        ensures spent { self.new.spent ≡ self.old.spent }
    {
        self.hall.hang_up(console);
    }

    // ---- what is fetched

    /// The next thing that the first member has to tell that has any, the oldest one, and the member's place. None where there is none.
    pub fn next_entry(&mut self) -> Option<(usize, NodeEntry)>
        ensures answer { (u : UsersState) → UsersStand self.old u
            → option_map told_by result ≡ members.first_told u.sides.members }
        ensures goes { UsersGo (at_members members.fetch_told) self.old self.new }
        ensures spent { self.new.spent ≡ self.old.spent }
    {
        self.hall.next_entry()
    }

    /// The next frame that goes on a port, the oldest one. None where none waits.
    pub fn next_frame(&mut self) -> Option<PortFrame>
        ensures answer { (u : UsersState) → UsersStand self.old u → result ≡ slice_get u.sides.members.desk.air.frames 0 }
        ensures goes { UsersGo (at_members members.fetch_frame) self.old self.new }
        ensures spent { self.new.spent ≡ self.old.spent }
    {
        self.hall.next_frame()
    }

    /// What a console is given next, the oldest thing. None where nothing waits.
    pub fn next_out(&mut self) -> Option<ConsoleOut>
        ensures answer { (u : UsersState) → UsersStand self.old u → result ≡ slice_get u.sides.outs 0 }
        ensures goes { UsersGo consoles.fetch_out self.old self.new }
        ensures spent { self.new.spent ≡ self.old.spent }
    {
        self.hall.next_out()
    }

    // ---- looks

    /// How many things wait for consoles.
    pub fn outs_len(&self) -> usize
        ensures { (u : UsersState) → UsersStand self.now u → result ≡ length u.sides.outs }
    {
        self.hall.sides.outs.len()
    }

    /// How many sessions there are.
    pub fn len(&self) -> usize
        ensures { (u : UsersState) → UsersStand self.now u → result ≡ length u.sessions }
    {
        self.hall.sessions.len()
    }

    /// Whether a console is open.
    pub fn is_open(&self, console: u8) -> bool
        ensures { (u : UsersState) → UsersStand self.now u → result ≡ consoles.is_open console u }
    {
        self.hall.is_open(console)
    }

    /// The members.
    pub fn members(&self) -> &Members
        ensures { (u : UsersState) → UsersStand self.now u → MembersStand result.now u.sides.members }
    {
        &self.hall.sides.members
    }

    /// Whether memory ran out in an earlier call.
    pub fn is_spent(&self) -> bool
        ensures { result ≡ self.now.spent }
    {
        self.spent
    }
}

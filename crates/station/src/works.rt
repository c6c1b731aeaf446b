//! The works of a station: its members and users, what waits to be fetched, and each input. Called by `Station`.
ghost use Rattle.std.specs.Prelude.{◌≡◌, ◌<◌, length, slice_get, IfSome, OnOk};
ghost use Rattle.station.specs.Standing.{WorksGo, WorksStand};
ghost use Rattle.station.specs.States as states;
ghost use Rattle.station.specs.States.{StationState};
ghost use Rattle.station_users.specs.Standing.{UsersStand};
ghost use Rattle.station_users.specs.States.{UsersState};

use crate::outs::{Outs, Waiting};
use crate::station_out::StationOut;
use ax_address::Call;
use radio_base::{Moment, NoMemory};
use station_entries::StationEntry;
use station_users::Users;
use std::alloc::Global;
use std::collections::VecDeque;

/// The works of a station.
#[derive(Drop)]
pub(crate) struct Works {
    pub(crate) alloc: Global,
    pub(crate) users: Users,
    pub(crate) outs: Outs,
    pub(crate) entries: VecDeque<StationEntry>,
}

impl Works {
    /// Nothing waits.
    pub(crate) fn new(alloc: Global, users: Users) -> Works
        ensures { (u : UsersState) → UsersStand users u → WorksStand result (states.new_state u) }
    {
        Works {
            alloc,
            users,
            outs: Outs::new(alloc),
            entries: VecDeque::new(alloc),
        }
    }

    pub(crate) fn hear(&mut self, port: u8, octets: &[u8], now: Moment) -> Result<(), NoMemory>
        ensures { OnOk result (WorksGo (states.hear port octets.now now) self.old self.new) }
    {
        self.users.hear_frame(port, octets, now)?;
        self.settle(now)?;
        Ok(())
    }

    /// All frames that the tick brings are put out before users are looked at.
    pub(crate) fn tick(&mut self, now: Moment) -> Result<(), NoMemory>
        ensures { OnOk result (WorksGo (states.tick now) self.old self.new) }
    {
        self.users.tick_members(now)?;
        self.fetch_frames()?;
        self.users.tick(now)?;
        self.settle(now)?;
        Ok(())
    }

    pub(crate) fn round(&mut self, now: Moment) -> Result<(), NoMemory>
        ensures { OnOk result (WorksGo (states.round now) self.old self.new) }
    {
        self.users.round(now)?;
        self.settle(now)?;
        Ok(())
    }

    pub(crate) fn open(&mut self, console: u8, call: &Call, now: Moment) -> Result<(), NoMemory>
        ensures { OnOk result (WorksGo (states.open_console console call.now now) self.old self.new) }
    {
        self.users.open(console, call, now)?;
        self.settle(now)?;
        Ok(())
    }

    pub(crate) fn type_text(
        &mut self,
        console: u8,
        text: &[u8],
        now: Moment,
    ) -> Result<(), NoMemory>
        ensures { OnOk result (WorksGo (states.type_text console text.now now) self.old self.new) }
    {
        self.users.type_text(console, text)?;
        self.settle(now)?;
        Ok(())
    }

    pub(crate) fn hang_up(&mut self, console: u8, now: Moment) -> Result<(), NoMemory>
        ensures { OnOk result (WorksGo (states.hang_up console now) self.old self.new) }
    {
        self.users.hang_up(console);
        self.settle(now)?;
        Ok(())
    }

    pub(crate) fn stop(&mut self, now: Moment) -> Result<(), NoMemory>
        ensures { OnOk result (WorksGo (states.stop now) self.old self.new) }
    {
        self.users.stop(now)?;
        self.settle(now)?;
        Ok(())
    }

    /// What it puts out next.
    pub(crate) fn next_out(&mut self) -> Option<StationOut>
        ensures answer { (s : StationState) → WorksStand self.old s → result ≡ states.next_out s }
        ensures goes { WorksGo states.fetch_out self.old self.new }
        ensures fewer { IfSome result (λ _. length self.new.outs.waiting.items < length self.old.outs.waiting.items) }
    {
        match self.outs.next() {
            None => None,
            Some(Waiting::Frame(frame)) => Some(StationOut::Frame(frame)),
            Some(Waiting::Console) => match self.users.next_out() {
                Some(out) => Some(StationOut::Console(out)),
                None => None,
            },
        }
    }

    /// What it tells next.
    pub(crate) fn next_entry(&mut self) -> Option<StationEntry>
        ensures answer { (s : StationState) → WorksStand self.old s → result ≡ slice_get s.entries 0 }
        ensures goes { WorksGo states.fetch_entry self.old self.new }
        ensures fewer { IfSome result (λ _. length self.new.entries.items < length self.old.entries.items) }
    {
        self.entries.pop_front()
    }
}

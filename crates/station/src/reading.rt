//! What members have told is read. Called by `settling`.
ghost use Rattle.std.specs.Prelude.{◌≡◌, [], map, IfOk, OnOk};
ghost use Rattle.node_core.specs.Standing.{entry_of};
ghost use Rattle.station_members.specs.Standing.{told_by};
ghost use Rattle.station.specs.Standing.{WorksGo, WorksStand};
ghost use Rattle.station.specs.States as states;
ghost use Rattle.station.specs.States.{StationState};

use crate::works::Works;
use ax_address::Call;
use node_core::NodeEntry;
use radio_base::{Moment, NoMemory};
use station_entries::told_of;

/// The most entries of members that are read in a turn: others are read in the next one (this project's profile).
const MOST_READ: u32 = 1_000_000;

impl Works {
    /// Each thing that members have told is read. Whether there was any. What they tell meanwhile is read in the next turn.
    #[tactic(auto, unfolding(crate::specs::States::read_entries, crate::specs::States::reads))]
    pub(crate) fn read_entries(&mut self, now: Moment) -> Result<bool, NoMemory>
        ensures goes { OnOk result (WorksGo (states.read_entries now) self.old self.new) }
        ensures read { IfOk result (λ read. (s : StationState) → WorksStand self.old s → read ≡ states.reads s) }
    {
        let mut told = Vec::new(self.alloc);
        self.fetch_told(&mut told)?;
        self.read_each(told.as_slice(), now)?;
        Ok(!told.is_empty())
    }

    fn fetch_told(&mut self, told: &mut Vec<(usize, NodeEntry)>) -> Result<(), NoMemory>
        requires { told.old.items ≡ [] }
        ensures goes { OnOk result (WorksGo states.without_told self.old self.new) }
        ensures told { OnOk result ((s : StationState) → WorksStand self.old s
            → map told_by told.new.items ≡ states.all_told s) }
    {
        for _ in 0..MOST_READ {
            let Some(entry) = self.users.next_entry() else {
                return Ok(());
            };
            told.push(entry)?;
        }
        Ok(())
    }

    fn read_each(&mut self, told: &[(usize, NodeEntry)], now: Moment) -> Result<(), NoMemory>
        ensures { OnOk result (WorksGo (states.read_each now (map told_by told.now)) self.old self.new) }
    {
        for (at, entry) in told {
            self.read(*at, entry, now)?;
        }
        Ok(())
    }

    /// It is told on, and heard by the users.
    fn read(&mut self, at: usize, entry: &NodeEntry, now: Moment) -> Result<(), NoMemory>
        ensures { OnOk result (WorksGo (states.read at (entry_of entry.now) now) self.old self.new) }
    {
        self.tell(at, entry)?;
        self.users.hear(at, entry, now)?;
        Ok(())
    }

    fn tell(&mut self, at: usize, entry: &NodeEntry) -> Result<(), NoMemory>
        ensures { OnOk result (WorksGo (states.tell at (entry_of entry.now)) self.old self.new) }
    {
        match self.users.members().call(at) {
            Some(member) => self.tell_of(member, entry),
            None => Ok(()),
        }
    }

    fn tell_of(&mut self, member: Call, entry: &NodeEntry) -> Result<(), NoMemory>
        ensures { OnOk result (WorksGo (states.tell_of member (entry_of entry.now)) self.old self.new) }
    {
        match told_of(member, entry) {
            Some(told) => {
                self.entries.push_back(told)?;
                Ok(())
            }
            None => Ok(()),
        }
    }
}

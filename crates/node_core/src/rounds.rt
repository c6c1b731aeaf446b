//! Rounds and ticks. Called by `node` and `acting`.
ghost use Rattle.std.specs.Prelude.{◌≤◌, ◌*◌, OnOk, length};
ghost use Rattle.ax_link.specs.State.{count_end};
ghost use Rattle.node_core.specs.Broadcasts.{round_frame};
ghost use Rattle.node_core.specs.Inputs as inputs;
ghost use Rattle.node_model.specs.Links as links;
ghost use Rattle.node_core.specs.Broadcasts as rounds;
ghost use Rattle.node_model.specs.States as states;

use crate::broadcasts::{entries_of_frame, frame_count, write_broadcast};
use crate::station::Station;
use ax_address::Entry;
use ax_frame::FrameBytes;
use link_table::{Octets, Written};
use radio_base::{LinkModulus, Moment, NoMemory};

impl Station {
    ghost use Rattle.node_core.specs.Going.{GoesWhereTold, StandsTold, StationGoes};
    ghost use Rattle.node_core.specs.Standing.{IsDrained};

    /// Time has passed, and all that follows an input.
    pub(crate) fn tick(&mut self, now: Moment) -> Result<(), NoMemory>
        requires drained { IsDrained self.old }
        requires stands { StandsTold self.old }
        requires moment { now.0 ≤ count_end }
        ensures goes { OnOk result (GoesWhereTold (λ n. inputs.after_input now.0 (rounds.tick now.0 n))
            self.old self.new) }
        ensures drained { OnOk result (IsDrained self.new) }
    {
        self.do_tick(now)?;
        self.settle(now)?;
        Ok(())
    }

    /// Time has passed: for the links, for the ends of circuits, and for the round of the interval.
    fn do_tick(&mut self, now: Moment) -> Result<(), NoMemory>
        requires drained { IsDrained self.old }
        requires moment { now.0 ≤ count_end }
        ensures { OnOk result (GoesWhereTold (rounds.tick now.0) self.old self.new) }
    {
        self.tick_links(now)?;
        self.tick_set(now)?;
        self.round_if_due(now)?;
        Ok(())
    }

    fn tick_links(&mut self, now: Moment) -> Result<(), NoMemory>
        ensures goes { OnOk result (StationGoes (states.at_links (links.tick_links now.0)) self.old self.new) }
        ensures drained { OnOk result (IsDrained self.old → IsDrained self.new) }
    {
        self.set.router_mut().carrier_mut().tick(now)?;
        Ok(())
    }

    fn tick_set(&mut self, now: Moment) -> Result<(), NoMemory>
        requires { IsDrained self.old }
        ensures { OnOk result (GoesWhereTold (states.at_set (links.ticks now.0)) self.old self.new) }
    {
        self.set.tick(now)?;
        Ok(())
    }

    /// Does the round of the interval where it is due. The first one is due an interval after the first tick.
    fn round_if_due(&mut self, now: Moment) -> Result<(), NoMemory>
        requires { now.0 ≤ count_end }
        ensures { OnOk result (StationGoes (rounds.round_if_due now.0) self.old self.new) }
    {
        if self.interval == 0 {
            return Ok(());
        }
        match self.next_round {
            Some(due) => {
                if due <= now.0 {
                    self.do_round()?;
                    self.set_next_round(now);
                }
            }
            None => self.set_next_round(now),
        }
        Ok(())
    }

    /// The next round is due an interval from now on.
    fn set_next_round(&mut self, now: Moment)
        requires { now.0 ≤ count_end }
        ensures { StationGoes (rounds.next_round_at now.0) self.old self.new }
    {
        self.next_round = Some(now.0.saturating_add(self.interval));
    }

    /// The counts of the routes go down, and the routes are broadcast.
    pub(crate) fn do_round(&mut self) -> Result<(), NoMemory>
        ensures { OnOk result (StationGoes rounds.do_round self.old self.new) }
    {
        self.set.router_mut().table_mut().round();
        self.broadcast_routes()?;
        Ok(())
    }

    /// Broadcasts the routes.
    fn broadcast_routes(&mut self) -> Result<(), NoMemory>
        ensures { OnOk result (StationGoes rounds.broadcast_routes self.old self.new) }
    {
        let entries = self.set.router().table().all_entries(self.alloc)?;
        // The same room serves one frame after another.
        let mut octets = FrameBytes::new();
        for nth in 0..frame_count(&entries) {
            self.broadcast(&entries, nth, &mut octets)?;
        }
        Ok(())
    }

    /// Puts out the broadcast's frame of a number, which is written where it can be long.
    fn broadcast(
        &mut self,
        entries: &[Entry],
        nth: usize,
        octets: &mut FrameBytes,
    ) -> Result<(), NoMemory>
        requires { 11 * nth ≤ length entries.now }
        ensures { OnOk result (StationGoes
            (λ n. states.put (round_frame n.settings.call n.settings.alias entries.now nth) n) self.old self.new) }
    {
        let page = entries_of_frame(entries, nth);
        write_broadcast(&self.call(), &self.alias, page, octets);
        self.put(Written {
            octets: Octets::new(self.alloc, octets)?,
            modulus: Some(LinkModulus::Modulo8),
        })?;
        Ok(())
    }
}

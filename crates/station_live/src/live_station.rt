//! A station that lives on the reads of a stream. Called by who runs it.
ghost use Rattle.std.specs.Prelude.{◌≡◌, ◌++◌, OnOk};
ghost use Rattle.station.specs.Standing.{Kept, StationStand};
ghost use Rattle.station.specs.States.{StationState};
ghost use Rattle.station_live.specs.Lives as lives;
ghost use Rattle.station_live.specs.Lives.{Live};
ghost use Rattle.station_live.specs.Standing.{LiveGoes, LiveStands};

use crate::sending::{add_entries, add_outs};
use crate::taking::take_items;
use kiss_framing::Deframer;
use radio_base::{Moment, NoMemory, TextOut};
use station::Station;
use station_entries::add_status;
use std::alloc::Global;

/// A station that lives on the reads of a stream.
#[derive(Drop)]
pub struct LiveStation {
    pub(crate) alloc: Global,
    pub(crate) station: Station,
    pub(crate) deframer: Deframer,
    /// How many milliseconds stand between two lines of its status; 0 for none.
    every: u64,
    /// When the next one is due; none before the first read.
    next_status: Option<u64>,
}

impl LiveStation {
    /// Nothing was read yet. So many milliseconds stand between two lines of its status, 0 for none.
    pub fn new(alloc: Global, station: Station, every: u64) -> LiveStation
        ensures { (s : StationState) → StationStand station s → LiveStands result (lives.new_live s every) }
    {
        LiveStation {
            alloc,
            station,
            deframer: Deframer::new(),
            every,
            next_status: None,
        }
    }

    /// Takes a read in: its items, and then a tick. What is sent then is added to the frames as KISS bytes, and what is told to the lines.
    #[tactic(auto, unfolding(crate::specs::Lives::after_read, crate::specs::Lives::ticked, crate::specs::Lives::sent_at, crate::specs::Lives::told_at))]
    pub fn take(
        &mut self,
        bytes: &[u8],
        now: Moment,
        frames: &mut TextOut,
        lines: &mut TextOut,
    ) -> Result<(), NoMemory>
        ensures goes { OnOk result (LiveGoes (lives.after_read bytes.now now) self.old self.new) }
        ensures frames { OnOk result ((l : Live) → LiveStands self.old l
            → frames.new ≡ frames.old ++ lives.sent_at bytes.now now l) }
        ensures lines { OnOk result ((l : Live) → LiveStands self.old l
            → lines.new ≡ lines.old ++ lives.told_at bytes.now now l) }
    {
        self.take_items(bytes, now)?;
        self.station.tick(now)?;
        add_outs(&mut self.station, frames)?;
        add_entries(self.alloc, &mut self.station, now, lines)?;
        self.tell_status(now, lines)?;
        Ok(())
    }

    fn take_items(&mut self, bytes: &[u8], now: Moment) -> Result<(), NoMemory>
        ensures { OnOk result (LiveGoes (lives.with_items bytes.now now) self.old self.new) }
    {
        take_items(
            self.alloc,
            &mut self.deframer,
            &mut self.station,
            bytes,
            now,
        )?;
        Ok(())
    }

    /// Tells the status where that is due: the first time so long after the first read.
    fn tell_status(&mut self, now: Moment, lines: &mut TextOut) -> Result<(), NoMemory>
        ensures goes { OnOk result (LiveGoes (lives.with_status now) self.old self.new) }
        ensures lines { OnOk result ((l : Live) → LiveStands self.old l
            → lines.new ≡ lines.old ++ lives.status_at now l) }
    {
        if self.every == 0 {
            return Ok(());
        }
        match self.next_status {
            Some(due) if now.0 < due => Ok(()),
            Some(_) => {
                self.next_status = Some(now.0.saturating_add(self.every));
                add_status(self.alloc, now, self.station.sessions(), lines)?;
                Ok(())
            }
            None => {
                self.next_status = Some(now.0.saturating_add(self.every));
                Ok(())
            }
        }
    }
}

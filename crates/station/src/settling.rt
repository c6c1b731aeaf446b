//! What follows an input: turn after turn, while something is done. Called by `works`.
ghost use Rattle.std.specs.Prelude.{◌≡◌, IfOk, OnOk};
ghost use Rattle.station.specs.Standing.{WorksGo, WorksStand};
ghost use Rattle.station.specs.States as states;
ghost use Rattle.station.specs.States.{StationState};

use crate::works::Works;
use radio_base::{Moment, NoMemory};

/// The most turns that follow an input: what is left then waits for the next one (this project's profile).
const MOST_TURNS: u32 = 1_000;

/// The most frames that are put out at a time: others wait until the next time (this project's profile).
const MOST_FRAMES: u32 = 1_000_000;

impl Works {
    /// Turn after turn, at most 1,000, while something is done.
    #[tactic(auto, unfolding(crate::specs::States::settle))]
    pub(crate) fn settle(&mut self, now: Moment) -> Result<(), NoMemory>
        ensures { OnOk result (WorksGo (states.settle now) self.old self.new) }
    {
        self.take_turns(now)?;
        self.users.settled();
        Ok(())
    }

    fn take_turns(&mut self, now: Moment) -> Result<(), NoMemory>
        ensures { OnOk result (WorksGo (states.all_turns now) self.old self.new) }
    {
        for _ in 0..MOST_TURNS {
            if !self.turn(now)? {
                return Ok(());
            }
        }
        Ok(())
    }

    /// Frames are sent, what was told is read, texts that nobody has are let fall, and each session does at most one thing. Whether
    /// anything was done.
    #[tactic(auto, unfolding(crate::specs::States::turn, crate::specs::States::does))]
    fn turn(&mut self, now: Moment) -> Result<bool, NoMemory>
        ensures goes { OnOk result (WorksGo (states.turn now) self.old self.new) }
        ensures does { IfOk result (λ does. (s : StationState) → WorksStand self.old s → does ≡ states.does now s) }
    {
        let sent = self.send(now)?;
        let read = self.read_entries(now)?;
        let dropped = self.take_unclaimed(now)?;
        let served = self.serve(now)?;
        Ok(sent || read || dropped || served)
    }

    /// All frames that wait at members are sent, and those that go on ports are put out. Whether there was one.
    #[tactic(auto, unfolding(crate::specs::States::send, crate::specs::States::sends))]
    fn send(&mut self, now: Moment) -> Result<bool, NoMemory>
        ensures goes { OnOk result (WorksGo (states.send now) self.old self.new) }
        ensures sent { IfOk result (λ sent. (s : StationState) → WorksStand self.old s → sent ≡ states.sends now s) }
    {
        let sent = self.users.settle_frames(now)?;
        self.fetch_frames()?;
        Ok(sent)
    }

    /// The frames that go on ports wait to be fetched.
    pub(crate) fn fetch_frames(&mut self) -> Result<(), NoMemory>
        ensures { OnOk result (WorksGo states.put_frames self.old self.new) }
    {
        for _ in 0..MOST_FRAMES {
            let Some(frame) = self.users.next_frame() else {
                return Ok(());
            };
            self.outs.put_frame(frame)?;
        }
        Ok(())
    }

    /// Texts that nobody has are let fall. Whether any was.
    #[tactic(auto, unfolding(crate::specs::States::take_unclaimed, crate::specs::States::takes_unclaimed))]
    fn take_unclaimed(&mut self, now: Moment) -> Result<bool, NoMemory>
        ensures goes { OnOk result (WorksGo (states.take_unclaimed now) self.old self.new) }
        ensures dropped { IfOk result (λ dropped. (s : StationState) → WorksStand self.old s
            → dropped ≡ states.takes_unclaimed now s) }
    {
        let dropped = self.users.take_unclaimed(now)?;
        Ok(dropped)
    }

    /// Each session does at most one thing; what consoles are given since the last turn waits to be fetched. Whether any did one.
    #[tactic(auto, unfolding(crate::specs::States::serve, crate::specs::States::serves))]
    fn serve(&mut self, now: Moment) -> Result<bool, NoMemory>
        ensures goes { OnOk result (WorksGo (states.serve now) self.old self.new) }
        ensures served { IfOk result (λ served. (s : StationState) → WorksStand self.old s → served ≡ states.serves now s) }
    {
        let served = self.users.serve(now)?;
        self.note_consoles()?;
        Ok(served)
    }

    fn note_consoles(&mut self) -> Result<(), NoMemory>
        ensures { OnOk result (WorksGo states.note_consoles self.old self.new) }
    {
        let count = self.users.outs_len();
        self.outs.note_consoles(count)?;
        Ok(())
    }
}

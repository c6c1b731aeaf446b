//! What is taken from places, and how they are closed. Called by all that serve sessions.
ghost use Rattle.std.specs.Prelude.{◌≡◌, ◌↔◌, IfOk, IsErr, IsErrOf, IsTrue, OnErr, OnOk};
ghost use Rattle.node_core.specs.Standing.{IsAnswer};
ghost use Rattle.node_core.specs.declared.acts.ActRefusal.TheVariants as refusals;
ghost use Rattle.station_places.specs.Sides.{SidesGo, SidesStand, SidesState};
ghost use Rattle.station_places.specs.Taking as taking;

use crate::Sides;
use node_core::{ActDone, ActRefusal, TakenMessage, UserAct};
use radio_base::{Moment, NoMemory};
use station_sessions::Place;

/// How many texts are let fall at once at most (this project's profile).
const MOST_TEXTS: usize = 65_536;

impl Sides {
    /// Takes the first text from there, where one waits.
    pub fn take_from(
        &mut self,
        place: &Place,
        now: Moment,
    ) -> Result<Option<TakenMessage>, NoMemory>
        ensures goes { OnOk result (SidesGo (taking.take_from place.now now) self.old self.new) }
        ensures text { IfOk result (λ text. (s : SidesState) → SidesStand self.old s → text ≡ taking.taken place.now now s) }
        ensures memory { IsErr result → IsTrue self.new.members.spent }
        ensures outs { self.new.outs ≡ self.old.outs }
    {
        match place {
            Place::End { member, id } => {
                text_of(self.members.act(*member, &UserAct::Take { id: *id }, now))
            }
            Place::Link { member, peer } => {
                text_of(self.members.act(*member, &UserAct::TakeText(*peer), now))
            }
            Place::Console(_) => Ok(None),
        }
    }

    /// Takes texts from there until none waits, 65,536 at most, and lets them fall. Whether there was any.
    pub fn drop_texts(&mut self, place: &Place, now: Moment) -> Result<bool, NoMemory>
        ensures goes { OnOk result (SidesGo (taking.drop_texts place.now now) self.old self.new) }
        ensures any { IfOk result (λ any. (s : SidesState) → SidesStand self.old s → any ≡ taking.drops_any place.now now s) }
        ensures memory { IsErr result → IsTrue self.new.members.spent }
        ensures outs { self.new.outs ≡ self.old.outs }
    {
        match self.take_from(place, now)? {
            Some(_) => {
                self.drop_up_to(MOST_TEXTS - 1, place, now)?;
                Ok(true)
            }
            None => Ok(false),
        }
    }

    /// Takes so many texts from there at most.
    fn drop_up_to(&mut self, most: usize, place: &Place, now: Moment) -> Result<(), NoMemory>
        ensures goes { OnOk result (SidesGo (taking.drop_up_to most place.now now) self.old self.new) }
        ensures memory { IsErr result → IsTrue self.new.members.spent }
        ensures outs { self.new.outs ≡ self.old.outs }
    {
        for _ in 0..most {
            if self.take_from(place, now)?.is_none() {
                return Ok(());
            }
        }
        Ok(())
    }

    /// Closes it, once all that was given to it is acknowledged.
    pub fn close_at(&mut self, place: &Place, now: Moment) -> Result<(), NoMemory>
        ensures goes { OnOk result (SidesGo (taking.close_at place.now now) self.old self.new) }
        ensures err { OnErr result (self.new.outs ≡ self.old.outs) }
    {
        match place {
            Place::End { member, id } => self.act(*member, &UserAct::Close { id: *id }, now),
            Place::Link { member, peer } => self.act(*member, &UserAct::CloseLink(*peer), now),
            Place::Console(console) => self.outs.close(*console),
        }
    }
}

/// The text that was taken, if one was.
fn text_of(outcome: Result<ActDone, ActRefusal>) -> Result<Option<TakenMessage>, NoMemory>
    ensures answer { OnOk result (IsAnswer outcome) }
    ensures text { IfOk result (λ text. text ≡ taking.text_in outcome) }
    ensures memory { IsErr result ↔ IsErrOf outcome refusals.NoMemory }
{
    match outcome {
        Ok(ActDone::Took(message)) => Ok(Some(message)),
        Ok(_) => Ok(None),
        Err(ActRefusal::NoMemory) => Err(NoMemory),
        Err(_) => Ok(None),
    }
}

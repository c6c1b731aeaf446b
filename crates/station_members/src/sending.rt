//! The frames that members put out go. Called by `Members`.
ghost use Rattle.std.specs.Prelude.{◌≡◌, ◌||◌, IfOk, OnOk};
ghost use Rattle.station_members.specs.Standing.{PlaneGoes, PlaneStands};
ghost use Rattle.station_members.specs.States as states;
ghost use Rattle.station_members.specs.States.{State};

use crate::backplane::Backplane;
use crate::nodes;
use crate::routing::Parcel;
use link_table::Written;
use radio_base::{Moment, NoMemory};

impl Backplane {
    /// Each frame that waits at a member is sent, member by member. Whether there was one.
    pub(crate) fn send_all(&mut self, now: Moment) -> Result<bool, NoMemory>
        ensures goes { OnOk result (PlaneGoes (states.send_all now) self.old self.new) }
        ensures sent { IfOk result (λ sent. (s : State) → PlaneStands self.old s → sent ≡ states.sends_any now s) }
    {
        let mut sent = false;
        for at in 0..self.nodes.len() {
            let any = self.send_waiting(at, now)?;
            sent = either(sent, any);
        }
        Ok(sent)
    }

    /// Each frame that waits at the member at a place is sent. Whether there was one.
    fn send_waiting(&mut self, at: usize, now: Moment) -> Result<bool, NoMemory>
        ensures goes { OnOk result (PlaneGoes (states.send_waiting now at) self.old self.new) }
        ensures sent { IfOk result (λ sent. (s : State) → PlaneStands self.old s → sent ≡ states.has_frames at s) }
    {
        let frames = nodes::fetch_frames(self.alloc, &mut self.nodes, at)?;
        self.send_each(at, &frames, now)?;
        Ok(!frames.is_empty())
    }

    fn send_each(&mut self, from: usize, frames: &[Written], now: Moment) -> Result<(), NoMemory>
        ensures { OnOk result (PlaneGoes (states.send_each now from frames.now) self.old self.new) }
    {
        for frame in frames {
            self.send_one(from, frame, now)?;
        }
        Ok(())
    }

    fn send_one(&mut self, from: usize, frame: &Written, now: Moment) -> Result<(), NoMemory>
        ensures { OnOk result (PlaneGoes (states.send_one now from frame.now) self.old self.new) }
    {
        let parcel = self.desk.route(self.alloc, from, frame, now)?;
        self.deliver(from, &parcel, now)?;
        Ok(())
    }

    /// What passes in the backplane comes to whom it is for.
    fn deliver(&mut self, from: usize, parcel: &Parcel, now: Moment) -> Result<(), NoMemory>
        ensures { OnOk result (PlaneGoes (states.deliver now from parcel.now) self.old self.new) }
    {
        match parcel {
            Parcel::Nothing => Ok(()),
            Parcel::For { to, octets } => {
                nodes::give_frame(&mut self.nodes, *to, octets.as_slice(), now)?;
                Ok(())
            }
            Parcel::ForFellows(octets) => {
                self.deliver_all(from, octets.as_slice(), now)?;
                Ok(())
            }
        }
    }

    /// To each fellow, in their order.
    fn deliver_all(&mut self, from: usize, octets: &[u8], now: Moment) -> Result<(), NoMemory>
        ensures { OnOk result (PlaneGoes (states.deliver_all now from octets.now) self.old self.new) }
    {
        for to in 0..self.nodes.len() {
            self.deliver_to(from, to, octets, now)?;
        }
        Ok(())
    }

    fn deliver_to(
        &mut self,
        from: usize,
        to: usize,
        octets: &[u8],
        now: Moment,
    ) -> Result<(), NoMemory>
        ensures { OnOk result (PlaneGoes (states.deliver_to now from octets.now to) self.old self.new) }
    {
        if to == from {
            Ok(())
        } else {
            nodes::give_frame(&mut self.nodes, to, octets, now)?;
            Ok(())
        }
    }
}

fn either(one: bool, other: bool) -> bool
    ensures { result ≡ (one || other) }
{
    one || other
}

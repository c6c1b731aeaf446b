//! The lines on frames: they go to nodes, are lost, or go where they go by themselves. Called by `doing`.
ghost use Rattle.std.specs.Prelude.{◌≡◌, ◌∷◌, [], ℕ, Bool, Some, OnOk, filter, slice_get};
ghost use Rattle.network_file.specs.Plan.{hearers};
ghost use Rattle.net_model.specs.declared.air.Aired.{Aired};
ghost use Rattle.net_model.specs.Lines as lines;
ghost use Rattle.net_world.specs.Running.{GoesOn, Runs, course};

use crate::world::World;
use net_model::{Event, ReplayRefusal, place_of_frame};
use network_file::heard_by;
use radio_base::{LinkModulus, NoMemory};

impl World<'_> {
    /// Settles an unsettled frame, which goes to a node, or tells why not.
    pub(crate) fn deliver(&mut self, line: u32, frame: u32, node: u8) -> Result<(), ReplayRefusal>
        ensures { Runs (course self.old) (course self.new) (lines.deliver line frame node) result }
    {
        match self.air.delivery_fault(self.channels, frame, false, node) {
            Some(why) => {
                self.tell(line, Event::Refused { why })?;
                Ok(())
            }
            None => {
                let at = place_of_frame(frame);
                self.air.settle(at);
                self.deliver_at(line, at, node)
            }
        }
    }

    /// A settled frame goes to a node again, or it is told why not.
    pub(crate) fn repeat(&mut self, line: u32, frame: u32, node: u8) -> Result<(), ReplayRefusal>
        ensures { Runs (course self.old) (course self.new) (lines.repeat line frame node) result }
    {
        match self.air.delivery_fault(self.channels, frame, true, node) {
            Some(why) => {
                self.tell(line, Event::Refused { why })?;
                Ok(())
            }
            None => self.deliver_at(line, place_of_frame(frame), node),
        }
    }

    /// Settles an unsettled frame, which goes nowhere, or tells why not.
    pub(crate) fn lose(&mut self, line: u32, frame: u32) -> Result<(), NoMemory>
        ensures { OnOk result (GoesOn (course self.old) (course self.new) (lines.lose line frame)) }
    {
        match self.air.lost_fault(frame, false) {
            Some(why) => {
                self.tell(line, Event::Refused { why })?;
                Ok(())
            }
            None => {
                self.air.settle(place_of_frame(frame));
                self.tell(line, Event::Settled { frame })?;
                Ok(())
            }
        }
    }

    /// The frame at a place goes to a node.
    fn deliver_at(&mut self, line: u32, at: usize, node: u8) -> Result<(), ReplayRefusal>
        ensures { Runs (course self.old) (course self.new) (lines.deliver_at line at node) result }
    {
        match self.air.frames().get(at) {
            Some(frame) => {
                let modulus = frame.modulus;
                let frame = (at + 1) as u32;
                self.tell(line, Event::Delivered { frame, node })?;
                self.hear_frame(line, at, node, modulus)
            }
            None => Ok(()),
        }
    }

    /// The node of that number hears the frame at a place, which was written with this modulus.
    fn hear_frame(
        &mut self,
        line: u32,
        frame_at: usize,
        number: u8,
        modulus: LinkModulus,
    ) -> Result<(), ReplayRefusal>
        ensures { (f : Aired) → slice_get self.old.air frame_at ≡ Some f
            → Runs (course self.old) (course self.new)
            (lines.hear line number (lines.kiss_bytes f.octets.items) modulus) result }
    {
        let at = self.place_of(number);
        self.frame_reaches(line, frame_at, at)?;
        self.put_in_air(line, at, modulus)
    }

    /// So many times, the oldest unsettled frame is settled and goes to each node that hears its sender.
    pub(crate) fn flow(&mut self, line: u32, count: u32) -> Result<(), ReplayRefusal>
        ensures { Runs (course self.old) (course self.new) (lines.flow line count) result }
    {
        for _ in 0..count {
            let Some(at) = self.air.oldest() else {
                return Ok(());
            };
            self.flow_once(line, at)?;
        }
        Ok(())
    }

    /// Settles the frame at a place, which goes to each node that hears its sender.
    fn flow_once(&mut self, line: u32, at: usize) -> Result<(), ReplayRefusal>
        ensures { Runs (course self.old) (course self.new) (λ w. lines.spread line at (lines.settle at w)) result }
    {
        self.air.settle(at);
        self.spread(line, at)
    }

    /// The frame at a place goes to each node that hears its sender.
    fn spread(&mut self, line: u32, at: usize) -> Result<(), ReplayRefusal>
        ensures { Runs (course self.old) (course self.new) (lines.spread line at) result }
    {
        match self.air.frames().get(at) {
            Some(frame) => {
                let sender = frame.sender;
                self.spread_from(line, at, sender)
            }
            None => Ok(()),
        }
    }

    fn spread_from(&mut self, line: u32, at: usize, sender: u8) -> Result<(), ReplayRefusal>
        ensures { Runs (course self.old) (course self.new)
            (lines.deliver_all line at (hearers self.old.channels.now sender)) result }
    {
        let heard = heard_by(self.channels, sender);
        for number in 1..17u8 {
            self.deliver_if_heard(line, at, &heard, number)?;
        }
        Ok(())
    }

    /// The frame at a place goes to the node of that number, if it is one of those that hear it.
    fn deliver_if_heard(
        &mut self,
        line: u32,
        at: usize,
        heard: &[bool],
        number: u8,
    ) -> Result<(), ReplayRefusal>
        ensures { (test : ℕ → Bool) → slice_get heard.now number ≡ Some (test number)
            → Runs (course self.old) (course self.new) (lines.deliver_all line at (filter test (number ∷ []))) result }
    {
        match heard.get(number as usize) {
            Some(true) => self.deliver_at(line, at, number),
            _ => Ok(()),
        }
    }

    /// So many times, settles the oldest unsettled frame, which goes nowhere.
    pub(crate) fn cut(&mut self, line: u32, count: u32) -> Result<(), NoMemory>
        ensures { OnOk result (GoesOn (course self.old) (course self.new) (lines.cut line count)) }
    {
        for _ in 0..count {
            let Some(at) = self.air.oldest() else {
                return Ok(());
            };
            self.air.settle(at);
            let frame = (at + 1) as u32;
            self.tell(line, Event::Settled { frame })?;
        }
        Ok(())
    }
}

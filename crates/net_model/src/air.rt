//! The frames that were put in the air. Called by net_world.
ghost use Rattle.std.specs.Prelude.{◌≡◌, ◌≤◌, ◌-◌, Some, length, take, not};
ghost use Rattle.std.specs.List.{position_or_len};
ghost use Rattle.net_model.specs.declared.air.Aired.{Aired};
ghost use Rattle.net_model.specs.World as airs;

use crate::limits::MAX_FRAMES;
use crate::refusals::{LineRefusal, ReplayRefusal};
use link_table::Octets;
use network_file::{Channel, can_hear};
use radio_base::LinkModulus;
use std::alloc::Global;
use std::marker::Model;

/// A frame that a node has put in the air.
#[derive(Debug, Drop)]
pub struct Aired {
    /// The node's number.
    pub sender: u8,
    /// What its sequence numbers count modulo: that of the link that wrote it.
    pub modulus: LinkModulus,
    /// It has gone where it goes, or is lost.
    pub settled: bool,
    pub octets: Octets,
}

/// The frames in the air, in the order in which they were put there.
#[derive(Drop)]
pub struct Air {
    frames: Vec<Aired>,
    /// Every frame before this place is settled.
    first_open: usize,
}

impl Model for Air {
    ghost use Rattle.std.specs.Prelude.{List, ◌≤◌, length, take};
    ghost use Rattle.net_model.specs.declared.air.Aired.{Aired};
    ghost use Rattle.net_model.specs.World.{AllSettled};

    ghost Value = { List Aired };

    ghost view = { λ a. a.frames.items };

    ghost invariant = { λ a. AllSettled (take a.first_open a.frames.items) × (a.first_open ≤ length a.frames.items)
        × (length a.frames.items ≤ 100000) };
}

impl Air {
    ghost use Rattle.std.specs.Prelude.{◌≡◌, ◌≤◌, ◌<◌, ◌++◌, ◌∷◌, [], length, slice_get, OnOk, OnErr, IfErr, IfSome};
    ghost use Rattle.net_model.specs.World.{in_air, most_frames, oldest, settled_at, frame_of, lost_fault, delivery_fault};
    ghost use Rattle.net_model.specs.declared.refusals.ReplayRefusal.TheVariants.{FramesFull};

    /// No frame is in the air.
    pub fn new(alloc: Global) -> Air
        ensures { result ≡ [] }
    {
        Air {
            frames: Vec::new(alloc),
            first_open: 0,
        }
    }

    /// The frames.
    pub fn frames(&self) -> &[Aired]
        ensures value { result.now ≡ self.now }
        ensures few { length self.now ≤ most_frames }
    {
        &self.frames
    }

    /// Why there is no frame of that number, from 1, that is settled (or unsettled, where `settled` is false); None where there is one.
    pub fn lost_fault(&self, number: u32, settled: bool) -> Option<LineRefusal>
        ensures { result ≡ lost_fault settled (frame_of self.now number) }
    {
        match self.frames.get(place_of_frame(number)) {
            None => Some(LineRefusal::NoFrame),
            Some(frame) => wrong_state(frame, settled),
        }
    }

    /// Why the frame of that number, from 1, which has to be settled or unsettled, can't go to the node.
    pub fn delivery_fault(
        &self,
        channels: &[Channel],
        number: u32,
        settled: bool,
        node: u8,
    ) -> Option<LineRefusal>
        ensures { result ≡ delivery_fault channels.now node settled (frame_of self.now number) }
    {
        match self.frames.get(place_of_frame(number)) {
            None => Some(LineRefusal::NoFrame),
            Some(frame) => frame_fault(channels, frame, settled, node),
        }
    }

    /// Puts a frame in the air, as the last.
    pub fn put(
        &mut self,
        sender: u8,
        octets: Octets,
        modulus: LinkModulus,
    ) -> Result<(), ReplayRefusal>
        ensures ok { OnOk result (self.new ≡ self.old ++ in_air sender octets modulus ∷ []) }
        ensures room { OnOk result (length self.old < most_frames) }
        ensures full { result ≡ Err FramesFull → most_frames ≤ length self.old }
        ensures err { OnErr result (self.new ≡ self.old) }
    {
        if self.frames.len() >= MAX_FRAMES {
            return Err(ReplayRefusal::FramesFull);
        }
        self.frames.push(Aired {
            sender,
            octets,
            modulus,
            settled: false,
        })?;
        Ok(())
    }

    /// The place of the oldest frame that isn't settled.
    pub fn oldest(&mut self) -> Option<usize>
        ensures place { result ≡ oldest self.old }
        ensures within { IfSome result (λ at. at < length self.old) }
        ensures few { length self.old ≤ most_frames }
        ensures same { self.new ≡ self.old }
    {
        let at = open_from(&self.frames, self.first_open);
        self.first_open = at;
        if at < self.frames.len() {
            Some(at)
        } else {
            None
        }
    }

    /// Settles the frame at a place, if there is one.
    pub fn settle(&mut self, at: usize)
        ensures { self.new ≡ settled_at at self.old }
    {
        if at < self.frames.len() {
            self.frames[at].settled = true;
        }
    }
}

/// The place of the frame of that number. Frames are numbered from 1.
pub fn place_of_frame(number: u32) -> usize
    ensures { result ≡ number - 1 }
{
    (number as usize).saturating_sub(1)
}

/// The place of the first frame that isn't settled, or how many there are. Those before `from` are settled.
fn open_from(frames: &[Aired], from: usize) -> usize
    requires settled { airs.AllSettled (take from frames.now) }
    requires within { from ≤ length frames.now }
    ensures place { result ≡ position_or_len (λ (f : Aired). not f.settled) frames.now }
    ensures settled { airs.AllSettled (take result frames.now) }
    ensures bound { result ≤ length frames.now }
{
    for at in from..frames.len() {
        if !frames[at].settled {
            return at;
        }
    }
    frames.len()
}

/// Why a frame that has to be settled, or unsettled, isn't.
fn wrong_state(frame: &Aired, settled: bool) -> Option<LineRefusal>
    ensures { result ≡ airs.wrong_state settled frame.now }
{
    if frame.settled == settled {
        None
    } else if settled {
        Some(LineRefusal::NotSettled)
    } else {
        Some(LineRefusal::Settled)
    }
}

/// Why a frame that has to be settled, or unsettled, can't go to the node.
fn frame_fault(channels: &[Channel], frame: &Aired, settled: bool, node: u8) -> Option<LineRefusal>
    ensures { result ≡ airs.delivery_fault channels.now node settled (Some frame.now) }
{
    match wrong_state(frame, settled) {
        Some(why) => Some(why),
        None if can_hear(channels, frame.sender, node) => None,
        None => Some(LineRefusal::NoChannel),
    }
}

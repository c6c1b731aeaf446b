//! Texts that go over a link, in pieces or in segments (the PIDs: AX.25 2.2, section 3.4; the pieces: this project's profile).
//! Called by `offers` and `send_calls`.
ghost use Rattle.std.specs.Prelude.{◌≡◌, ◌≤◌, ◌+◌, ◌/◌, List, ℕ, OnOk, length};
ghost use Rattle.ax_link.specs.Standing.{IsDrained};
ghost use Rattle.ax_link.specs.Table as table;
ghost use Rattle.ax_segment.specs.Segments.{segments_of};
ghost use Rattle.link_table.specs.Frames.{plain_text, segmented};
ghost use Rattle.link_table.specs.Texts as sending;
ghost use Rattle.link_table.specs.Works as works;

use crate::TextRefusal;
use crate::entry::LinkEntry;
use crate::pending::Pending;
use crate::texts::MAX_TEXT;
use ax_segment::{FULL_PIECE, Split};
use radio_base::{MAX_INFO, Moment, NoMemory, Payload, TEXT_PID};

impl LinkEntry {
    ghost use Rattle.link_table.specs.Standing.{EntryGoes, answer_in, held_of, size_of};

    /// Why a text isn't sent over the link, if it isn't.
    pub(crate) fn text_answer(&self, text: &[u8]) -> Result<(), TextRefusal>
        ensures { result ≡ answer_in text.now self.now }
    {
        if !self.takes_texts() {
            return Err(TextRefusal::NoLink);
        }
        if text.len() > MAX_TEXT {
            return Err(TextRefusal::TooLong);
        }
        if self.room() < self.payload_count(text) {
            return Err(TextRefusal::Full);
        }
        Ok(())
    }

    /// How many payloads a text becomes on the link.
    fn payload_count(&self, text: &[u8]) -> usize
        ensures { result ≡ length (sending.payloads_of (size_of self.now.link) text.now) }
    {
        if self.in_segments(text) {
            return segment_count(text);
        }
        piece_count(text)
    }

    /// Whether a text goes in segments: the link is of modulo 128, and the text has over 256 bytes.
    fn in_segments(&self, text: &[u8]) -> bool
        ensures { result ≡ sending.in_segments (size_of self.now.link) text.now }
    {
        self.modulus().is_128() && text.len() > MAX_INFO
    }

    /// Sends a text over the link, in segments or in pieces.
    pub(crate) fn send_text(
        &mut self,
        pending: &mut Pending,
        text: &[u8],
        now: Moment,
    ) -> Result<(), NoMemory>
        requires drained { IsDrained (held_of self.old.link) }
        requires few { length text.now ≤ sending.most_text }
        ensures drained { OnOk result (IsDrained (held_of self.new.link)) }
        ensures goes { OnOk result (EntryGoes
            (sending.send_text_of self.old.route.own text.now now.0) self.old self.new pending.old pending.new) }
    {
        if self.in_segments(text) {
            self.send_segments(pending, text, now)?;
            return Ok(());
        }
        self.send_pieces(pending, text, now)?;
        Ok(())
    }

    /// Hands a text to the link in pieces of 256 bytes.
    fn send_pieces(
        &mut self,
        pending: &mut Pending,
        text: &[u8],
        now: Moment,
    ) -> Result<(), NoMemory>
        requires drained { IsDrained (held_of self.old.link) }
        ensures drained { OnOk result (IsDrained (held_of self.new.link)) }
        ensures goes { OnOk result (EntryGoes
            (sending.send_each self.old.route.own (sending.payloads plain_text (sending.cut text.now)) now.0)
            self.old self.new pending.old pending.new) }
    {
        let mut rest = text;
        while !rest.is_empty() {
            let (piece, later) = rest.split_at(rest.len().min(MAX_INFO));
            let payload = Payload::of(TEXT_PID, piece);
            self.give(pending, &payload, now)?;
            rest = later;
        }
        Ok(())
    }

    /// Hands a text to the link in segments.
    fn send_segments(
        &mut self,
        pending: &mut Pending,
        text: &[u8],
        now: Moment,
    ) -> Result<(), NoMemory>
        requires drained { IsDrained (held_of self.old.link) }
        requires some { 1 ≤ length text.now }
        requires few { length text.now ≤ sending.most_text }
        ensures drained { OnOk result (IsDrained (held_of self.new.link)) }
        ensures goes { OnOk result (EntryGoes
            (sending.send_each self.old.route.own
            (sending.payloads segmented (segments_of plain_text text.now)) now.0)
            self.old self.new pending.old pending.new) }
    {
        match Split::new(TEXT_PID, text) {
            Ok(mut split) => self.send_split(pending, &mut split, now),
            Err(_) => unreachable!(),
        }
    }

    /// Hands the segments that are still to be given to the link.
    fn send_split(
        &mut self,
        pending: &mut Pending,
        split: &mut Split<'_>,
        now: Moment,
    ) -> Result<(), NoMemory>
        requires drained { IsDrained (held_of self.old.link) }
        ensures drained { OnOk result (IsDrained (held_of self.new.link)) }
        ensures goes { OnOk result (EntryGoes
            (sending.send_each self.old.route.own (sending.payloads segmented split.old) now.0)
            self.old self.new pending.old pending.new) }
    {
        while let Some(segment) = split.next() {
            self.give(pending, &segment, now)?;
        }
        Ok(())
    }

    /// Hands a payload to the link. Where the link doesn't take it, nothing is done.
    fn give(
        &mut self,
        pending: &mut Pending,
        payload: &Payload,
        now: Moment,
    ) -> Result<(), NoMemory>
        requires drained { IsDrained (held_of self.old.link) }
        ensures drained { OnOk result (IsDrained (held_of self.new.link)) }
        ensures goes { OnOk result (EntryGoes
            (works.step_link self.old.route.own (table.Send payload.now) now.0)
            self.old self.new pending.old pending.new) }
    {
        match self.link.send(payload, now) {
            Ok(()) => {
                self.lift(pending)?;
                Ok(())
            }
            Err(_) => Ok(()),
        }
    }
}

fn piece_count(text: &[u8]) -> usize
    ensures { result ≡ length (sending.payloads plain_text (sending.cut text.now)) }
{
    (text.len() + MAX_INFO - 1) / MAX_INFO
}

fn segment_count(text: &[u8]) -> usize
    ensures { result ≡ length (sending.payloads segmented (segments_of plain_text text.now)) }
{
    text.len() / FULL_PIECE + 1
}

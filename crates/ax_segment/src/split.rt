//! Messages are cut into segments. Called by `link_table`.
ghost use Rattle.std.specs.Prelude.{◌≡◌, ℕ, ◌+◌, ◌<◌, ◌≤◌, ◌++◌, ◌∷◌, [], ◌↔◌, length, take, drop, IsOk, MatchOption, MatchResult};
ghost use Rattle.ax_segment.specs.Segments.{segments_of, IsSplittable, HasCause};

use crate::{FIRST_BIT, FULL_PIECE, LONGEST_MESSAGE};
use arrayvec::ArrayVec;
use radio_base::{Payload, SEGMENT_PID};
use std::marker::Model;

/// Why a message has no segments.
#[derive(Clone, Copy, Debug, PartialEq, Eq)]
pub enum SplitRefusal {
    /// It has no byte.
    Empty,
    /// It needs more than 128 segments: it has more than 32,639 bytes.
    TooLong,
}

/// The segments of a message that are still to be given, in order.
#[derive(Drop)]
pub struct Split<'a> {
    pid: u8,
    begun: bool,
    left: &'a [u8],
}

impl<'a> Model for Split<'a> {
    ghost use Rattle.std.specs.Prelude.{List, ℕ, ◌≤◌, length};
    ghost use Rattle.ax_segment.specs.Splitting.{still_to_give};
    ghost use Rattle.ax_segment.specs.declared.TheConstants.{LONGEST_MESSAGE};

    ghost Value = { List (List ℕ) };

    ghost view = { λ s. still_to_give s.begun s.pid s.left.now };

    ghost invariant = { λ s. length s.left.now ≤ LONGEST_MESSAGE };
}

impl<'a> Split<'a> {
    /// All segments of a message with this PID.
    #[tactic(auto, using(crate::proofs::Cutting::length_segments))]
    pub fn new(pid: u8, message: &'a [u8]) -> Result<Split<'a>, SplitRefusal>
        ensures exact { MatchResult result
            (λ split. (split ≡ segments_of pid message.now) × IsSplittable pid message.now)
            (λ refusal. HasCause refusal pid message.now) }
        ensures longest { IsOk result ↔ ((1 ≤ length message.now) × (length message.now ≤ LONGEST_MESSAGE)) }
    {
        if message.is_empty() {
            return Err(SplitRefusal::Empty);
        }
        if message.len() > LONGEST_MESSAGE {
            return Err(SplitRefusal::TooLong);
        }
        Ok(Split {
            pid,
            begun: false,
            left: message,
        })
    }

    /// Gives the next segment: none once all were given.
    pub fn next(&mut self) -> Option<Payload>
        ensures { MatchOption result ((self.old ≡ []) × (self.new ≡ []))
            (λ payload. (payload.pid ≡ 0x08) × (self.old ≡ payload.info.items ∷ self.new)) }
    {
        if !self.begun {
            let (bytes, left) = self.left.split_at((FULL_PIECE - 1).min(self.left.len()));
            let header = FIRST_BIT + (self.left.len() / FULL_PIECE) as u8;
            self.begun = true;
            self.left = left;
            return Some(segment(&[header, self.pid], bytes));
        }
        if self.left.is_empty() {
            return None;
        }
        let (bytes, left) = self.left.split_at(FULL_PIECE.min(self.left.len()));
        let header = ((self.left.len() - 1) / FULL_PIECE) as u8;
        self.left = left;
        Some(segment(&[header], bytes))
    }
}

/// A segment of these octets and bytes.
fn segment(start: &[u8], bytes: &[u8]) -> Payload
    requires { length start.now + length bytes.now ≤ 256 }
    ensures pid { result.pid ≡ 0x08 }
    ensures info { result.info.items ≡ start.now ++ bytes.now }
{
    let mut info = ArrayVec::new();
    append(&mut info, start);
    append(&mut info, bytes);
    Payload {
        pid: SEGMENT_PID,
        info,
    }
}

fn append(info: &mut ArrayVec<u8, 256>, octets: &[u8])
    requires { length info.old.items + length octets.now ≤ 256 }
    ensures { info.new.items ≡ info.old.items ++ octets.now }
{
    match info.try_extend_from_slice(octets) {
        Ok(()) => {}
        Err(_) => unreachable!(),
    }
}

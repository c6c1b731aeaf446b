//! The bytes of a message that is being gathered. Called by `gather`.
ghost use Rattle.std.specs.Prelude.{◌≡◌, ◌+◌, ◌≤◌, ◌++◌, [], length, IfOk, vec_len, vec_capacity, false};
ghost use Rattle.circuit_reassembly.specs.Fragments.{gather_step};
ghost use Rattle.circuit_reassembly.specs.Holding.{held_at, answer_at, answered, gathering};

use crate::LONGEST;
use radio_base::NoMemory;
use std::alloc::Global;

/// What became of a fragment.
#[derive(Clone, Copy, Debug, PartialEq, Eq)]
pub(crate) enum Took {
    /// It is held, and more follow.
    More,
    /// It completes the message, which stands whole in `bytes`.
    Whole,
    /// It has no room, and wasn't taken.
    Nothing,
}

/// The bytes that are held of a message.
#[derive(Drop)]
pub(crate) struct Held {
    pub(crate) bytes: Vec<u8>,
    /// What `bytes` has was handed up, and is no longer held.
    pub(crate) handed_up: bool,
    ghost reserved: { 8192 ≤ vec_capacity bytes },
    ghost few: { length bytes.items ≤ 8192 },
}

impl Held {
    pub(crate) fn new(alloc: Global) -> Result<Held, NoMemory>
        ensures { IfOk result (λ h. gathering h.handed_up h.bytes.items ≡ record { held = []; buffer = [] }) }
    {
        Ok(Held {
            bytes: Vec::with_capacity(alloc, LONGEST)?,
            handed_up: false,
        })
    }

    /// Takes in the next fragment.
    pub(crate) fn take_in(&mut self, piece: &[u8], more: bool) -> Took
        ensures does { gathering self.new.handed_up self.new.bytes.items
            ≡ answered (gather_step (held_at self.old.handed_up self.old.bytes.items) piece.now more) }
        ensures answer { answer_at result self.new.bytes.items
            ≡ (gather_step (held_at self.old.handed_up self.old.bytes.items) piece.now more).1 }
    {
        self.let_go();
        self.take_behind(piece, more)
    }

    /// Lets go of what was handed up.
    pub(crate) fn let_go(&mut self)
        ensures held { self.new.bytes.items ≡ held_at self.old.handed_up self.old.bytes.items }
        ensures begun { self.new.handed_up ≡ false }
    {
        if self.handed_up {
            self.bytes.clear();
            self.handed_up = false;
        }
    }

    /// Takes in the next fragment, where nothing was handed up since the last one.
    fn take_behind(&mut self, piece: &[u8], more: bool) -> Took
        requires { self.old.handed_up ≡ false }
        ensures does { gathering self.new.handed_up self.new.bytes.items
            ≡ answered (gather_step self.old.bytes.items piece.now more) }
        ensures answer { answer_at result self.new.bytes.items ≡ (gather_step self.old.bytes.items piece.now more).1 }
    {
        if self.bytes.as_slice().len() + piece.len() > LONGEST {
            return Took::Nothing;
        }
        append(&mut self.bytes, piece);
        if more {
            return Took::More;
        }
        self.handed_up = true;
        Took::Whole
    }
}

/// Appends a piece for which there is room.
fn append(bytes: &mut Vec<u8>, piece: &[u8])
    requires { vec_len bytes.old + length piece.now ≤ vec_capacity bytes.old }
    ensures items { bytes.new.items ≡ bytes.old.items ++ piece.now }
    ensures capacity { vec_capacity bytes.old ≤ vec_capacity bytes.new }
{
    match bytes.extend_from_slice(piece) {
        Ok(()) => {}
        Err(_) => unreachable!(),
    }
}

//! Fragments are gathered to messages. Called by `circuit_l4`.
ghost use Rattle.std.specs.Prelude.{◌≡◌, ◌≤◌, [], length, IfOk};
ghost use Rattle.circuit_reassembly.specs.Fragments.{gather_step};
ghost use Rattle.circuit_reassembly.specs.Answering.{StepsOn, answer_of};
ghost use Rattle.circuit_reassembly.specs.Kept.{kept, share, still};

use crate::held::{Held, Took};
use radio_base::NoMemory;
use std::alloc::Global;
use std::marker::Model;

/// What a fragment completes.
#[derive(Clone, Copy, Debug, PartialEq, Eq)]
pub enum Gathered<'a> {
    /// Nothing yet: more fragments follow.
    More,
    /// The message.
    Whole(&'a [u8]),
}

/// A message would have more than 8,192 bytes.
#[derive(Clone, Copy, Debug, PartialEq, Eq)]
pub struct Oversize;

/// Gathers fragments to messages.
#[derive(Drop)]
pub struct Gather {
    held: Held,
}

impl Model for Gather {
    ghost use Rattle.circuit_reassembly.specs.Holding.{gathering};
    ghost use Rattle.circuit_reassembly.specs.Kept.{Gathering};

    ghost Value = { Gathering };

    ghost view = { λ g. gathering g.held.handed_up g.held.bytes.items };
}

impl Gather {
    ghost use Rattle.std.specs.Borrow.{sem};

    /// A gather that holds nothing, with room for the longest message.
    pub fn new(alloc: Global) -> Result<Gather, NoMemory>
        ensures { IfOk result (λ g. g ≡ still []) }
    {
        Ok(Gather {
            held: Held::new(alloc)?,
        })
    }

    /// Takes in the next fragment, and hands up the message that it completes.
    ///
    /// `Oversize` comes exactly where the message would pass 8,192 bytes. Then nothing is changed.
    pub fn push(&mut self, piece: &[u8], more: bool) -> Result<Gathered<'_>, Oversize>
        requires { length piece.now ≤ 236 }
        ensures* goes_on { sem 𝓛 (StepsOn self.entry piece.now more) }
        ensures exact { answer_of result ≡ (gather_step self.old.held piece.now more).1 }
    {
        match self.held.take_in(piece, more) {
            Took::More => Ok(Gathered::More),
            Took::Whole => Ok(Gathered::Whole(self.held.bytes.as_slice())),
            Took::Nothing => Err(Oversize),
        }
    }

    /// Lets go of a message that was handed up: nothing of it is kept any more.
    pub fn let_go(&mut self)
        ensures { self.new ≡ still self.old.held }
    {
        self.held.let_go();
    }

    /// A gather keeps at most 8,192 octets, those of a message that it has handed up among them.
    pub fn kept(&self) -> usize
        ensures exact { result ≡ kept self.now }
        ensures most { result ≤ share }
    {
        self.held.bytes.as_slice().len()
    }
}

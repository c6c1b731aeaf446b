//! A sink in memory, which fails where it was told to. Called by tests.
ghost use Rattle.std.specs.Prelude.{◌≡◌, ◌≤◌, ◌↔◌, Some, IsErr, IfOk, OnErr};
ghost use Rattle.std.specs.Io.KnownBytes.{WriteAppends};
ghost use Rattle.radio_base.specs.Causes.{HasCause};
ghost use Rattle.radio_base.specs.Streams.{TakesSome};
ghost use Rattle.radio_base.specs.Memory.{WriteFails, write_size, new_store, after_write, after_failed_write};

use crate::calls::next_fails;
use crate::{Failed, NoMemory, Sink};
use std::alloc::Global;
use std::marker::Model;

/// Room in memory for bytes, of which some writes fail. It tells what was written.
#[derive(Drop)]
pub struct MemSink {
    bytes: Vec<u8>,
    room: usize,
    piece: usize,
    fails: Vec<u64>,
    calls: u64,
    faults: u64,
}

impl Model for MemSink {
    ghost use Rattle.radio_base.specs.Memory.{Store};

    ghost Value = { Store };

    ghost view = { λ s. record { written = s.bytes.items; room = s.room; piece = s.piece; fails = s.fails.items; calls = s.calls; faults = s.faults } };

    ghost use Rattle.radio_base.specs.Stored.{IsStored};

    ghost invariant = { IsStored };
}

impl MemSink {
    /// A sink with room for `room` bytes that takes at most `piece` of them at a time, and whose
    /// writes fail exactly where their number, from 1, stands in `fails` or the room is used up.
    pub fn new(alloc: Global, room: usize, piece: usize, fails: &[u64]) -> Result<MemSink, NoMemory>
        requires { 1 ≤ piece }
        ensures { IfOk result (λ s. s ≡ new_store room piece fails.now) }
    {
        Ok(MemSink {
            bytes: Vec::with_capacity(alloc, room)?,
            room,
            piece,
            fails: Vec::from_slice(alloc, fails)?,
            calls: 0,
            faults: 0,
        })
    }

    /// All bytes that were written.
    pub fn bytes(&self) -> &[u8]
        ensures { result.now ≡ self.now.written }
    {
        &self.bytes
    }
}

impl Sink for MemSink {
    ghost written = { λ s. Some s.written };

    ghost faults = { λ s. s.faults };

    fn write(&mut self, piece: &[u8]) -> Result<usize, Failed>
        ensures fails { IsErr result ↔ WriteFails self.old piece.now }
        ensures size { IfOk result (λ n. n ≡ write_size self.old piece.now) }
        ensures ok { IfOk result (λ n. self.new ≡ after_write self.old piece.now n) }
        ensures err { OnErr result (self.new ≡ after_failed_write self.old) }

        // What each sink says.
        ensures some { TakesSome result piece.now }
        ensures bytes { WriteAppends (Some self.old.written) (Some self.new.written) result piece.now }
        ensures cause { HasCause self.old.faults self.new.faults result }
    {
        let fails = next_fails(self.calls, &self.fails);
        self.calls = self.calls.saturating_add(1);
        if piece.is_empty() {
            return Ok(0);
        }
        if fails || self.bytes.len() == self.room {
            self.faults = self.faults.saturating_add(1);
            return Err(Failed);
        }
        let count = piece
            .len()
            .min(self.piece)
            .min(self.room - self.bytes.len());
        match self.bytes.extend_from_slice(&piece[..count]) {
            Ok(()) => Ok(count),
            Err(_) => unreachable!(),
        }
    }
}

//! A source in memory, which fails where it was told to. Called by tests.
ghost use Rattle.std.specs.Prelude.{◌≡◌, ◌≤◌, ◌+◌, ◌-◌, ◌↔◌, ◌++◌, [], Some, drop, take, min, length, IsErr, IfOk, OnErr};
ghost use Rattle.std.specs.Io.{ReadsAtMost};
ghost use Rattle.std.specs.Io.KnownBytes.{ReadConsumes};
ghost use Rattle.radio_base.specs.Causes.{HasCause};
ghost use Rattle.radio_base.specs.Streams.{Noted};
ghost use Rattle.radio_base.specs.Memory.{NextFails, read_size, new_supply, after_read, after_failed_read};

use crate::calls::next_fails;
use crate::{Failed, NoMemory, Source};
use std::alloc::Global;
use std::marker::Model;

/// Bytes in memory, of which some reads fail. It tells what is left and what was read.
#[derive(Drop)]
pub struct MemSource {
    bytes: Vec<u8>,
    at: usize,
    sizes: Vec<usize>,
    piece: usize,
    fails: Vec<u64>,
    calls: u64,
    faults: u64,
}

impl Model for MemSource {
    ghost use Rattle.std.specs.Prelude.{drop};
    ghost use Rattle.radio_base.specs.Memory.{Supply};

    ghost Value = { Supply };

    ghost view = { λ s. record { left = drop s.at s.bytes.items; reads = s.sizes.items; piece = s.piece; fails = s.fails.items; calls = s.calls; faults = s.faults } };

    ghost use Rattle.radio_base.specs.Supplied.{IsSupplied};

    ghost invariant = { IsSupplied };
}

impl MemSource {
    /// A source of these bytes that gives at most `piece` of them at a time, and whose reads fail
    /// exactly where their number, from 1, stands in `fails`.
    pub fn new(
        alloc: Global,
        bytes: &[u8],
        piece: usize,
        fails: &[u64],
    ) -> Result<MemSource, NoMemory>
        requires { 1 ≤ piece }
        ensures { IfOk result (λ s. s ≡ new_supply bytes.now piece fails.now) }
    {
        Ok(MemSource {
            bytes: Vec::from_slice(alloc, bytes)?,
            at: 0,
            sizes: Vec::with_capacity(alloc, bytes.len())?,
            piece,
            fails: Vec::from_slice(alloc, fails)?,
            calls: 0,
            faults: 0,
        })
    }
}

impl Source for MemSource {
    ghost left = { λ s. Some s.left };

    ghost reads = { λ s. Some s.reads };

    ghost faults = { λ s. s.faults };

    fn read(&mut self, buf: &mut [u8]) -> Result<usize, Failed>
        ensures fails { IsErr result ↔ NextFails self.old.calls self.old.fails }
        ensures size { IfOk result (λ n. n ≡ read_size self.old (length buf.old)) }
        ensures filled { IfOk result (λ n. buf.new ≡ take n self.old.left ++ drop n buf.old) }
        ensures ok { IfOk result (λ n. self.new ≡ after_read self.old n) }
        ensures err { OnErr result (self.new ≡ after_failed_read self.old) }
        ensures unfilled { OnErr result (buf.new ≡ buf.old) }

        // What each source says.
        ensures bound { ReadsAtMost result buf.new }
        ensures bytes { ReadConsumes (Some self.old.left) (Some self.new.left) result buf.new }
        ensures sizes { Noted (Some self.old.reads) (Some self.new.reads) result }
        ensures cause { HasCause self.old.faults self.new.faults result }
    {
        let fails = next_fails(self.calls, &self.fails);
        self.calls = self.calls.saturating_add(1);
        if fails {
            self.faults = self.faults.saturating_add(1);
            return Err(Failed);
        }
        let count = copy_front(&self.bytes[self.at..], self.piece, buf);
        self.at += count;
        if count > 0 {
            self.sizes.push_reserved(count);
        }
        Ok(count)
    }
}

/// Copies bytes from the front, at most `piece` of them and no more than there is room for.
fn copy_front(bytes: &[u8], piece: usize, buf: &mut [u8]) -> usize
    ensures count { result ≡ min (min (length buf.old) piece) (length bytes.now) }
    ensures copied { buf.new ≡ take result bytes.now ++ drop result buf.old }
    ensures front { take result buf.new ≡ take result bytes.now }
{
    let count = buf.len().min(piece).min(bytes.len());
    buf[..count].copy_from_slice(&bytes[..count]);
    count
}

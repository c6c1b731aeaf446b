//! The real streams' adapters over streams that fail. Called by `rt test`.
ghost use Rattle.std.specs.Prelude.{◌≤◌, IfOk};

use node_cmd::{Reading, SystemClock, Writing};
use radio_base::{Clock, Failed, Moment, Sink, Source};
use std::cell::Cell;
use std::io::{Read, Write};
use std::process::Abort;
use std::time::Duration;
use std::{io, time};

/// How many bytes a stream gives or takes at each of its calls; None is an error, and so is each call behind these.
#[derive(Drop)]
struct Counts {
    counts: [Option<usize>; 4],
    calls: usize,
}

impl Counts {
    fn new(counts: [Option<usize>; 4]) -> Counts {
        Counts { counts, calls: 0 }
    }

    fn next(&mut self, most: usize) -> io::Result<usize>
        ensures { IfOk result (λ n. n ≤ most) }
    {
        let answer = self.counts.get(self.calls).copied().flatten();
        self.calls = self.calls.saturating_add(1);
        match answer {
            Some(count) => Ok(count.min(most)),
            None => Err(io::Error::from(io::ErrorKind::Other)),
        }
    }
}

/// A stream that gives these bytes.
#[derive(Drop)]
struct Gives {
    counts: Counts,
    bytes: &'static [u8],
}

impl Read for Gives {
    fn read(&mut self, buf: &mut [u8]) -> io::Result<usize> {
        let count = self.counts.next(buf.len().min(self.bytes.len()))?;
        let (given, left) = self.bytes.split_at(count);
        buf[..count].copy_from_slice(given);
        self.bytes = left;
        Ok(count)
    }
}

/// A stream that shows the bytes that it took, the last eight of them as a number.
#[derive(Drop)]
struct Takes<'a> {
    counts: Counts,
    taken: &'a Cell<u64>,
}

impl Write for Takes<'_> {
    fn write(&mut self, piece: &[u8]) -> io::Result<usize> {
        let count = self.counts.next(piece.len())?;
        for byte in &piece[..count] {
            let shown = self.taken.get().wrapping_mul(256);
            self.taken.set(shown | u64::from(*byte));
        }
        Ok(count)
    }

    fn flush(&mut self) -> io::Result<()> {
        Ok(())
    }
}

/// A clock that shows what a cell holds, or can't be read. Since 1970 more time has gone by.
#[derive(Drop)]
struct Shown<'a>(&'a Cell<Option<u64>>);

impl time::Clock for Shown<'_> {
    fn monotonic(&self) -> io::Result<Duration> {
        match self.0.get() {
            Some(millis) => Ok(Duration::from_millis(millis)),
            None => Err(io::Error::from(io::ErrorKind::Other)),
        }
    }

    fn since_1970(&self) -> io::Result<Duration> {
        match self.0.get() {
            Some(millis) => Ok(Duration::from_millis(millis.saturating_add(1_000_000))),
            None => Err(io::Error::from(io::ErrorKind::Other)),
        }
    }
}

/// Asserts what a read answers, and what stands in its buffer then.
fn expect_read(
    rt: &impl Abort,
    source: &mut Reading<Gives>,
    wanted: Result<usize, Failed>,
    bytes: &[u8],
) {
    let mut buf = *b"....";
    assert_eq!(rt; source.read(&mut buf), wanted);
    assert!(rt; buf.as_slice() == bytes);
}

#[test]
fn an_error_of_a_read_is_a_fault_and_no_byte_is_lost(rt: HostRuntime) {
    let mut source = Reading::new(Gives {
        counts: Counts::new([Some(2), None, Some(4), Some(4)]),
        bytes: b"abc",
    });
    expect_read(&rt, &mut source, Ok(2), b"ab..");
    expect_read(&rt, &mut source, Err(Failed), b"....");
    expect_read(&rt, &mut source, Ok(1), b"c...");
    expect_read(&rt, &mut source, Ok(0), b"....");
    assert!(rt; source.faults() == 1);
}

/// Asserts what a write answers.
fn expect_write(
    rt: &impl Abort,
    sink: &mut Writing<Takes<'_>>,
    bytes: &[u8],
    wanted: Result<usize, Failed>,
) {
    assert_eq!(rt; sink.write(bytes), wanted);
}

#[test]
fn an_error_of_a_write_or_a_write_of_no_bytes_is_a_fault(rt: HostRuntime) {
    let taken = Cell::new(0);
    let mut sink = Writing::new(Takes {
        counts: Counts::new([Some(2), None, Some(0), Some(1)]),
        taken: &taken,
    });
    expect_write(&rt, &mut sink, b"abc", Ok(2));
    expect_write(&rt, &mut sink, b"c", Err(Failed));
    expect_write(&rt, &mut sink, b"c", Err(Failed));
    expect_write(&rt, &mut sink, b"c", Ok(1));
    assert!(rt; sink.faults() == 2);
    assert_eq!(rt; taken.get(), u64::from_be_bytes(*b"\0\0\0\0\0abc"));
}

#[test]
fn a_lower_reading_or_none_counts_as_the_last_one(rt: HostRuntime) {
    let shown = Cell::new(Some(5));
    let mut clock = SystemClock::new(Shown(&shown));
    for (reading, moment) in [(Some(5), 5), (Some(3), 5), (None, 5), (Some(7), 7)] {
        shown.set(reading);
        assert_eq!(rt; clock.now(), Moment(moment));
    }
}

//! The whole program over streams in memory. Called by `rt test`.
ghost use Rattle.std.specs.Prelude.{◌≤◌};

use node_cmd::{Ran, Status, run};
use radio_base::{MemClock, MemSink, MemSource};
use std::alloc::{AllocError, Global};
use std::process::Abort;

/// A run that reads and writes the given number of bytes at a time, and whose given reads and writes
/// fail.
#[derive(Drop)]
pub(crate) struct Case<'a> {
    pub(crate) words: &'a [&'a str],
    pub(crate) file: &'a [u8],
    pub(crate) piece: usize,
    pub(crate) failing_reads: &'a [u64],
    pub(crate) failing_writes: &'a [u64],
}

pub(crate) fn replay_of(file: &[u8]) -> Case<'_> {
    Case {
        words: &["replay"],
        file,
        piece: 1000,
        failing_reads: &[],
        failing_writes: &[],
    }
}

fn words_of(alloc: Global, given: &[&str]) -> Result<Vec<String>, AllocError> {
    let mut words = Vec::new(alloc);
    for word in given {
        words.push(word.to_string(alloc)?)?;
    }
    Ok(words)
}

/// A sink in memory.
fn sink_of(rt: &impl Abort, alloc: Global, room: usize, piece: usize, fails: &[u64]) -> MemSink
    requires { 1 ≤ piece }
{
    let made = MemSink::new(alloc, room, piece, fails);
    made.ok().expect(rt, "memory")
}

/// Runs a case: it has to end by this status, and to write and note exactly this. All values of the crates below are made and dropped
/// here, so that this is proved once.
pub(crate) fn check(
    rt: &impl Abort,
    alloc: Global,
    case: &Case<'_>,
    status: Status,
    written: &[u8],
    notes: &[u8],
) {
    let words = words_of(alloc, case.words).ok().expect(rt, "memory");
    let piece = case.piece.max(1);
    let source = MemSource::new(alloc, case.file, piece, case.failing_reads);
    let mut source = source.ok().expect(rt, "memory");
    let mut sink = sink_of(rt, alloc, 200_000, piece, case.failing_writes);
    let mut noted = sink_of(rt, alloc, 1_000, 1_000, &[]);
    let mut clock = MemClock::new(0, 1);
    let ended = run(
        alloc,
        &words,
        &mut source,
        &mut sink,
        &mut noted,
        &mut clock,
        &mut Ran::Nothing,
    );
    expect_ended(rt, ended, status);
    expect_bytes(rt, sink.bytes(), written);
    expect_bytes(rt, noted.bytes(), notes);
}

fn expect_ended(rt: &impl Abort, ended: Status, wanted: Status) {
    assert_eq!(rt; ended, wanted);
}

fn expect_bytes(rt: &impl Abort, bytes: &[u8], wanted: &[u8]) {
    assert_eq!(rt; bytes, wanted);
}

const HEARD: &[u8] = b"node 1 N0AAA ANODE
heard 1 N0BBB BNODE N0CCC CNODE N0DDD 192 N0EEE ENODE N0DDD 255
";

#[test]
fn faults_in_mid_stream_end_a_run(rt: HostRuntime) {
    let case = Case {
        piece: 1,
        failing_reads: &[3],
        ..replay_of(HEARD)
    };
    check(
        &rt,
        rt.alloc(),
        &case,
        Status::ReadFault,
        b"",
        b"read fault\n",
    );

    let case = Case {
        piece: 1,
        failing_writes: &[2],
        ..replay_of(HEARD)
    };
    check(&rt, rt.alloc(), &case, Status::WriteFault, b"t", b"");
}

#[test]
fn statuses_have_their_exit_statuses(rt: HostRuntime) {
    let codes = [
        (Status::Done, 0),
        (Status::Usage, 2),
        (Status::BadFile, 3),
        (Status::ReadFault, 4),
        (Status::WriteFault, 5),
        (Status::TooLong, 6),
        (Status::TooLate, 7),
        (Status::NoMemory, 8),
    ];
    for (status, code) in codes {
        assert_eq!(rt; status.code(), code);
    }
}

/// A NODES frame of N0CALL-7 with an alias and no entries, as KISS bytes.
const NODES: &[u8] =
    b"\xC0\x00\x9C\x9E\x88\x8A\xA6\x40\xE0\x9C\x60\x86\x82\x98\x98\x6F\x03\xCF\xFFBNODE \xC0";

const NODES_LINE: &[u8] = b"port=0 N0CALL-7>NODES cmd UI pf=0 pid=CF len=7\n";

pub(crate) fn frames_of(stream: &[u8]) -> Case<'_> {
    Case {
        words: &["frames", "modulo=8"],
        file: stream,
        piece: 1000,
        failing_reads: &[],
        failing_writes: &[],
    }
}

#[test]
fn the_lines_of_a_read_are_written_before_the_next(rt: HostRuntime) {
    let case = Case {
        piece: NODES.len(),
        failing_reads: &[2],
        ..frames_of(NODES)
    };
    check(
        &rt,
        rt.alloc(),
        &case,
        Status::ReadFault,
        NODES_LINE,
        b"read fault\n",
    );
}

//! Segments of messages. Called by `rt test`.
use super::expect;
use crate::segments::{SEGMENTS, SegmentsVector};
use ax_segment::{Joined, Joiner, Split};
use std::alloc::Global;
use std::process::Abort;
use std::test::Fail;

/// The next segment is this.
fn expect_segment(rt: &impl Abort, split: &mut Split<'_>, segment: &[u8]) {
    let payload = split.next().expect(rt, "a segment");
    expect(rt, payload.pid == 0x08, segment);
    expect(rt, payload.info.as_slice() == segment, segment);
}

fn message_is_split(rt: &impl Abort, row: &SegmentsVector) {
    let split = Split::new(row.pid, row.message).ok();
    let mut split = split.expect(rt, "segments");
    for segment in row.segments {
        expect_segment(rt, &mut split, segment);
    }
    assert!(rt; split.next().is_none());
}

#[test]
fn messages_are_split(rt: HostRuntime) {
    for row in &SEGMENTS {
        message_is_split(&rt, row);
    }
}

/// A segment comes to this.
fn expect_joined(rt: &impl Abort, joiner: &mut Joiner, segment: &[u8], wanted: Joined) {
    expect(rt, joiner.push(segment) == Ok(wanted), segment);
}

fn segments_are_joined(rt: &impl Abort, alloc: Global, row: &SegmentsVector) -> Result<(), Fail> {
    let mut joiner = Joiner::new(alloc);
    for (at, segment) in row.segments.iter().enumerate() {
        let is_last = at + 1 == row.segments.len();
        let wanted = if is_last {
            let message = Vec::from_slice(alloc, row.message)?;
            Joined::Whole {
                pid: row.pid,
                message,
            }
        } else {
            Joined::More
        };
        expect_joined(rt, &mut joiner, segment, wanted);
    }
    Ok(())
}

#[test]
fn segments_join(rt: HostRuntime) -> Result<(), Fail> {
    for row in &SEGMENTS {
        segments_are_joined(&rt, rt.alloc(), row)?;
    }
    Ok(())
}

//! Frames of KISS. Called by `rt test`.
use super::expect;
use crate::kiss::{KISS_FRAMES, KISS_STREAMS, KissFrame};
use arrayvec::ArrayVec;
use kiss_framing::{Deframer, KissItem, enframe};
use std::process::Abort;

/// The frames come at these bytes of the stream, and none elsewhere.
fn expect_frames(rt: &impl Abort, stream: &[u8], expected: &[(usize, KissFrame)]) {
    let mut deframer = Deframer::new();
    let mut left = expected;
    for (at, byte) in stream.iter().enumerate() {
        let item = deframer.feed(*byte);
        match left {
            [(end, frame), rest @ ..] if *end == at => {
                let wanted = KissItem::Frame {
                    port: frame.port,
                    command: frame.command,
                    payload: frame.payload,
                };
                expect(rt, item == Some(wanted), stream);
                left = rest;
            }
            _ => expect(rt, item == None, stream),
        }
    }
    expect(rt, left.is_empty(), stream);
}

#[test]
fn frames_go_both_ways(rt: HostRuntime) {
    for row in KISS_FRAMES {
        expect_frames(&rt, row.bytes, &[(row.bytes.len() - 1, row.frame)]);
        let frame = row.frame;
        assert!(rt; frame.port < 16 && frame.command < 16);
        let mut out = ArrayVec::<u8, 2050>::new();
        let written = enframe(frame.port, frame.command, frame.payload, &mut out);
        assert!(rt; written.is_ok());
        expect(&rt, out.as_slice() == row.bytes, row.bytes);
    }
}

#[test]
fn streams_are_read(rt: HostRuntime) {
    for row in KISS_STREAMS {
        expect_frames(&rt, row.bytes, row.frames);
    }
}

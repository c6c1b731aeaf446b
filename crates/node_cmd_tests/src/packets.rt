//! Packets over streams in memory. Called by `rt test`.
use crate::runs::{Case, check};
use node_cmd::Status;

/// N0BBB asks QST for the call of 44.0.0.1, as KISS bytes.
const REQUEST: &[u8] =
    b"\xC0\x00\xA2\xA6\xA8\x40\x40\x40\xE0\x9C\x60\x84\x84\x84\x40\x61\x03\xCD\x00\x03\x00\xCC\x07\x04\x00\x01\x9C\x60\x84\x84\x84\x40\x60\x2C\x00\x00\x02\x00\x00\x00\x00\x00\x00\x00\x2C\x00\x00\x01\xC0";

/// N0AAA answers it.
const REPLY: &[u8] =
    b"\xC0\x00\x9C\x60\x84\x84\x84\x40\xE0\x9C\x60\x82\x82\x82\x40\x61\x03\xCD\x00\x03\x00\xCC\x07\x04\x00\x02\x9C\x60\x82\x82\x82\x40\x60\x2C\x00\x00\x01\x9C\x60\x84\x84\x84\x40\x60\x2C\x00\x00\x02\xC0";

#[test]
fn what_is_sent_for_a_read_is_written_before_the_next(rt: HostRuntime) {
    let case = Case {
        words: &["ip", "call=N0AAA", "addr=44.0.0.1"],
        file: REQUEST,
        piece: REQUEST.len(),
        failing_reads: &[2],
        failing_writes: &[],
    };
    check(
        &rt,
        rt.alloc(),
        &case,
        Status::ReadFault,
        REPLY,
        b"read fault\n",
    );
}

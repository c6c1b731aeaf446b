//! A live node over streams in memory. Called by `rt test`.
use crate::runs::{Case, check, replay_of};
use node_cmd::Status;

/// `N0BBB>N0AAA cmd TEST pf=1` with the information `41 42`, as a KISS frame.
const TEST: &[u8] =
    b"\xC0\x00\x9C\x60\x82\x82\x82\x40\xE0\x9C\x60\x84\x84\x84\x40\x61\xF3\x41\x42\xC0";

/// What a station answers (AX.25 2.2, section 4.3.4.2): the same information in a response.
const ANSWER: &[u8] =
    b"\xC0\x00\x9C\x60\x84\x84\x84\x40\x60\x9C\x60\x82\x82\x82\x40\xE1\xF3\x41\x42\xC0";

fn node_of<'a>(words: &'a [&'a str], stream: &'a [u8]) -> Case<'a> {
    Case {
        words,
        ..replay_of(stream)
    }
}

#[test]
fn what_a_live_node_wrote_before_a_fault_stays(rt: HostRuntime) {
    let words = ["node", "call=N0AAA", "alias=ANODE"];
    let case = Case {
        piece: 20,
        failing_reads: &[2],
        ..node_of(&words, TEST)
    };
    check(
        &rt,
        rt.alloc(),
        &case,
        Status::ReadFault,
        ANSWER,
        b"read fault\n",
    );
}

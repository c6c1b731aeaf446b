//! A frame by way of two repeaters, of which one has repeated it. Called by `rt test`.
use ax_address::Call;
use station_ports::{Heading, heading_of, with_dest, with_source};
use std::alloc::Global;
use std::process::Abort;

/// From N0BBB-7 to N0AAA by way of N0REP, which has repeated it, and N0DIG-2: SABM with P 1.
const FRAME: &[u8; 29] =
    b"\x9C\x60\x82\x82\x82\x40\xE0\x9C\x60\x84\x84\x84\x40\x6E\x9C\x60\xA4\x8A\xA0\x40\xE0\x9C\x60\x88\x92\x8E\x40\x65\x3F";

/// The same to K1ABC-15.
const TO_ANOTHER: &[u8; 29] =
    b"\x96\x62\x82\x84\x86\x40\xFE\x9C\x60\x84\x84\x84\x40\x6E\x9C\x60\xA4\x8A\xA0\x40\xE0\x9C\x60\x88\x92\x8E\x40\x65\x3F";

/// The same from K1ABC-15.
const FROM_ANOTHER: &[u8; 29] =
    b"\x9C\x60\x82\x82\x82\x40\xE0\x96\x62\x82\x84\x86\x40\x7E\x9C\x60\xA4\x8A\xA0\x40\xE0\x9C\x60\x88\x92\x8E\x40\x65\x3F";

pub fn call(rt: &impl Abort, text: &[u8]) -> Call {
    Call::read(text).ok().expect(rt, "a call")
}

fn heading(rt: &impl Abort) -> Heading {
    Heading {
        source: call(rt, b"N0BBB-7"),
        dest: call(rt, b"N0AAA"),
        hop: call(rt, b"N0REP"),
        towards: call(rt, b"N0DIG-2"),
        has_come: false,
        is_direct: false,
        is_command: true,
        end: 28,
    }
}

#[test]
fn a_frame_is_heard_from_its_last_hop_and_goes_towards_the_next(rt: HostRuntime) {
    let wanted = heading(&rt);
    assert!(rt; heading_of(FRAME) == Some(wanted));
    assert!(rt; heading_of(&FRAME[..27]) == None);
}

fn expect_readdressed(rt: &impl Abort, alloc: Global) {
    let other = call(rt, b"K1ABC-15");
    let to = with_dest(alloc, FRAME, &other).ok().expect(rt, "memory");
    assert!(rt; to.as_slice() == TO_ANOTHER.as_slice());
    let from = with_source(alloc, FRAME, &other).ok().expect(rt, "memory");
    assert!(rt; from.as_slice() == FROM_ANOTHER.as_slice());
}

#[test]
fn a_call_takes_the_place_of_another_and_no_other_bit_changes(rt: HostRuntime) {
    expect_readdressed(&rt, rt.alloc());
}

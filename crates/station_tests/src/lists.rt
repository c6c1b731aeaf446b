//! What a station keeps of its radios. Called by `rt test`.
use crate::frames::call;
use ax_address::Alias;
use radio_base::Moment;
use station_ports::{FrameOctets, HeldBack, KnownPorts, PortFrame, call_of_alias};
use std::alloc::Global;
use std::process::Abort;

fn expect_remembered(rt: &impl Abort, known: &mut KnownPorts) {
    assert!(rt; known.remember(&call(rt, b"N0AAA"), 1).is_ok());
    assert!(rt; known.remember(&call(rt, b"N0BBB"), 2).is_ok());
    assert!(rt; known.remember(&call(rt, b"N0AAA"), 3).is_ok());
    assert!(rt; known.port_of(&call(rt, b"N0AAA")) == Some(3));
    assert!(rt; known.port_of(&call(rt, b"N0BBB")) == Some(2));
    assert!(rt; known.port_of(&call(rt, b"N0CCC")) == None);
}

#[test]
fn a_call_is_reached_by_the_port_of_its_last_frame(rt: HostRuntime) {
    expect_remembered(&rt, &mut KnownPorts::new(rt.alloc()));
}

fn frame(rt: &impl Abort, alloc: Global, octets: &[u8]) -> PortFrame {
    PortFrame {
        port: 0,
        octets: FrameOctets::from_slice(alloc, octets)
            .ok()
            .expect(rt, "memory"),
        is_extended: false,
    }
}

fn expect_due(rt: &impl Abort, held: &mut HeldBack, now: u64, wanted: Option<&[u8]>) {
    let due = held.next_due(100, Moment(now));
    let octets = due.as_ref().map(|frame| frame.octets.as_slice());
    assert!(rt; octets == wanted, "{now}");
}

fn expect_held(rt: &impl Abort, alloc: Global, held: &mut HeldBack) {
    let peer = call(rt, b"N0AAA");
    assert!(rt;
        held.hold(&peer, frame(rt, alloc, b"first"), Moment(10))
            .is_ok()
    );
    assert!(rt;
        held.hold(&peer, frame(rt, alloc, b"second"), Moment(60))
            .is_ok()
    );
    expect_due(rt, held, 109, None);
    expect_due(rt, held, 110, Some(b"second"));
    expect_due(rt, held, 500, None);
}

#[test]
fn a_later_frame_takes_the_place_and_the_moment_of_the_one_that_waits(rt: HostRuntime) {
    expect_held(&rt, rt.alloc(), &mut HeldBack::new(rt.alloc()));
}

fn expect_alias(rt: &impl Abort, alias: &[u8], wanted: Option<&[u8]>) {
    let alias = Alias::read(alias).ok().expect(rt, "an alias");
    assert!(rt; call_of_alias(&alias) == wanted.map(|text| call(rt, text)));
}

#[test]
fn an_alias_of_letters_and_digits_is_a_call(rt: HostRuntime) {
    expect_alias(&rt, b"ANODE", Some(b"ANODE"));
    expect_alias(&rt, b"AB-1", None);
    expect_alias(&rt, b"#RELAY", None);
}

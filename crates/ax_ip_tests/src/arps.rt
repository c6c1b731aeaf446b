//! Messages of ARP read and written. Called by `rt test`.
use ax_address::Call;
use ax_ip::{Arp, ArpRefusal, read_arp, write_arp};
use std::process::Abort;

const REQUEST: &[u8; 30] =
    b"\x00\x03\x00\xCC\x07\x04\x00\x01\x9C\x60\x84\x84\x84\x40\x60\x2C\x00\x00\x02\x00\x00\x00\x00\x00\x00\x00\x2C\x00\x00\x01";

const REPLY: &[u8; 30] =
    b"\x00\x03\x00\xCC\x07\x04\x00\x02\x9C\x60\x82\x82\x82\x40\x60\x2C\x00\x00\x01\x9C\x60\x84\x84\x84\x40\x60\x2C\x00\x00\x02";

fn call(rt: &impl Abort, text: &str) -> Call {
    Call::read(text.as_bytes()).ok().expect(rt, "a call")
}

fn request(rt: &impl Abort) -> Arp {
    Arp {
        reply: false,
        sender: call(rt, "N0BBB"),
        sender_ip: 0x2C000002,
        target: None,
        target_ip: 0x2C000001,
    }
}

fn reply(rt: &impl Abort) -> Arp {
    Arp {
        reply: true,
        sender: call(rt, "N0AAA"),
        sender_ip: 0x2C000001,
        target: Some(call(rt, "N0BBB")),
        target_ip: 0x2C000002,
    }
}

/// Asserts what octets are read as.
fn expect_read(rt: &impl Abort, octets: &[u8], wanted: Result<Arp, ArpRefusal>) {
    assert!(rt; read_arp(octets) == wanted, "{octets:?}");
}

#[test]
fn messages_are_read_and_written(rt: HostRuntime) {
    let (request, reply) = (request(&rt), reply(&rt));
    expect_read(&rt, REQUEST, Ok(request));
    expect_read(&rt, REPLY, Ok(reply));
    assert!(rt; write_arp(&request) == *REQUEST);
    assert!(rt; write_arp(&reply) == *REPLY);
}

/// Asserts what a message with another octet at `at` is read as.
fn expect_changed(
    rt: &impl Abort,
    message: &[u8; 30],
    at: usize,
    octet: u8,
    wanted: Result<Arp, ArpRefusal>,
) {
    let mut octets = *message;
    if at < 30 {
        octets[at] = octet;
    }
    expect_read(rt, &octets, wanted);
}

#[test]
fn the_first_refusal_is_told(rt: HostRuntime) {
    expect_read(&rt, &REQUEST[..29], Err(ArpRefusal::Short));
    for at in 0..6 {
        expect_changed(&rt, REQUEST, at, 0x55, Err(ArpRefusal::NotAx25));
    }
    expect_changed(&rt, REQUEST, 7, 3, Err(ArpRefusal::BadOp));
    expect_changed(&rt, REQUEST, 6, 1, Err(ArpRefusal::BadOp));
    let bad = ArpRefusal::BadCall { at: 10 };
    expect_changed(&rt, REQUEST, 10, 0x83, Err(bad));
    let bad = ArpRefusal::BadCall { at: 20 };
    expect_changed(&rt, REPLY, 20, 0x41, Err(bad));

    // The target of a request isn't looked at.
    expect_changed(&rt, REQUEST, 20, 0x41, Ok(request(&rt)));
}

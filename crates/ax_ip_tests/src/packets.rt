//! Headers of packets. Called by `rt test`.
use ax_ip::{PacketHead, PacketRefusal, read_packet};
use std::process::Abort;

const ECHO: &[u8; 28] =
    b"\x45\x00\x00\x1C\x00\x01\x00\x00\x40\x01\x22\xDE\x2C\x00\x00\x02\x2C\x00\x00\x01\x08\x00\xF7\xFD\x00\x01\x00\x01";

/// Asserts what octets are read as.
fn expect_read(rt: &impl Abort, octets: &[u8], wanted: Result<PacketHead, PacketRefusal>) {
    assert!(rt; read_packet(octets) == wanted, "{octets:?}");
}

#[test]
fn a_header_is_read(rt: HostRuntime) {
    let head = PacketHead {
        source: 0x2C000002,
        dest: 0x2C000001,
        ttl: 64,
        protocol: 1,
        header: 20,
        total: 28,
    };
    expect_read(&rt, ECHO, Ok(head));
}

/// Asserts why the packet with another octet at `at` is refused.
fn expect_refused(rt: &impl Abort, at: usize, octet: u8, refusal: PacketRefusal) {
    let mut octets = *ECHO;
    if at < 28 {
        octets[at] = octet;
    }
    expect_read(rt, &octets, Err(refusal));
}

#[test]
fn the_first_refusal_is_told(rt: HostRuntime) {
    expect_read(&rt, &ECHO[..19], Err(PacketRefusal::Short));
    expect_read(&rt, &[0x45; 257], Err(PacketRefusal::TooLong));
    expect_refused(&rt, 0, 0x65, PacketRefusal::BadVersion);
    expect_refused(&rt, 0, 0x44, PacketRefusal::BadHeader);
    expect_refused(&rt, 0, 0x48, PacketRefusal::BadHeader);
    expect_refused(&rt, 3, 19, PacketRefusal::BadLength);
    expect_refused(&rt, 3, 29, PacketRefusal::BadLength);
    expect_refused(&rt, 8, 0x3F, PacketRefusal::BadSum);
    expect_read(&rt, &ECHO[..27], Err(PacketRefusal::BadLength));
}

//! The lines that stand at `LinkTable`. Called by `rt test`.
use crate::common::{NOW, call, expect_octets, table};
use ax_address::Call;
use ax_frame::read_frame;
use ax_link::LinkNotice;
use l3_datagram::{Carrier, Datagram, Offered};
use link_table::LinkTable;
use radio_base::M8;
use std::process::Abort;

/// N0AAA's SABM to N0BBB, and the UA.
const SET_UP: [u8; 15] = [
    0x9C, 0x60, 0x84, 0x84, 0x84, 0x40, 0xE0, 0x9C, 0x60, 0x82, 0x82, 0x82, 0x40, 0x61, 0x3F,
];

const ACCEPT: [u8; 15] = [
    0x9C, 0x60, 0x82, 0x82, 0x82, 0x40, 0x60, 0x9C, 0x60, 0x84, 0x84, 0x84, 0x40, 0xE1, 0x73,
];

/// N0AAA's I frame 0 to N0BBB with a datagram, and N0BBB's, which acknowledges that.
const SENT: [u8; 36] = [
    0x9C, 0x60, 0x84, 0x84, 0x84, 0x40, 0xE0, 0x9C, 0x60, 0x82, 0x82, 0x82, 0x40, 0x61, 0x00, 0xCF,
    0x9C, 0x60, 0x82, 0x82, 0x82, 0x40, 0x60, 0x9C, 0x60, 0x84, 0x84, 0x84, 0x40, 0x60, 0x19, 0x01,
    0x01, 0x00, 0x00, 0x03,
];

const ANSWER: [u8; 36] = [
    0x9C, 0x60, 0x82, 0x82, 0x82, 0x40, 0xE0, 0x9C, 0x60, 0x84, 0x84, 0x84, 0x40, 0x61, 0x20, 0xCF,
    0x9C, 0x60, 0x84, 0x84, 0x84, 0x40, 0x60, 0x9C, 0x60, 0x82, 0x82, 0x82, 0x40, 0x60, 0x19, 0x01,
    0x01, 0x00, 0x00, 0x04,
];

/// The datagram of an I frame.
fn datagram_in(frame: &[u8; 36]) -> Datagram {
    let mut datagram = Datagram::new();
    let _ = datagram.try_extend_from_slice(&frame[16..]);
    datagram
}

/// The lines that stand at `LinkTable`, in four steps.
#[test]
fn a_table_in_use(rt: HostRuntime) {
    let mut table = table(&rt, rt.alloc());
    offer(&rt, &mut table);
    open(&rt, &mut table);
    collect(&rt, &mut table);
    lose(&rt, &mut table);
}

fn peer() -> Call {
    call(b"N0BBB")
}

fn expect_frame(rt: &impl Abort, table: &mut LinkTable, octets: &[u8]) {
    expect_octets(rt, &table.next_out(), octets);
}

fn hear(rt: &impl Abort, table: &mut LinkTable, octets: &[u8]) {
    match read_frame::<M8>(octets) {
        Ok(frame) => assert!(rt; table.arrive(&frame, NOW) == Ok(())),
        Err(_) => rt.abort(),
    }
}

fn offer(rt: &impl Abort, table: &mut LinkTable) {
    assert!(rt; table.offer(&peer(), &datagram_in(&SENT), NOW) == Ok(Offered::Taken));
    expect_frame(rt, table, &SET_UP);
}

fn open(rt: &impl Abort, table: &mut LinkTable) {
    hear(rt, table, &ACCEPT);
    assert!(rt; table.notice() == Some((peer(), LinkNotice::Opened)));
    expect_frame(rt, table, &SENT);
}

fn collect(rt: &impl Abort, table: &mut LinkTable) {
    hear(rt, table, &ANSWER);
    assert!(rt; table.collect() == Some((peer(), datagram_in(&ANSWER))));
}

fn lose(rt: &impl Abort, table: &mut LinkTable) {
    assert!(rt; table.break_link(&peer()) == Ok(()));
    assert!(rt; table.failed() == Some(peer()));
}

//! Datagrams. Called by `rt test`.
use super::{call, expect};
use crate::datagrams::{DATAGRAMS, DatagramVector, REFUSED_DATAGRAMS};
use l3_datagram::{DatagramHead, HEAD_SIZE, read_datagram, write_datagram};
use std::process::Abort;

fn datagram_is_read_and_written(rt: &impl Abort, row: &DatagramVector) {
    let head = DatagramHead {
        origin: call(rt, row.origin),
        dest: call(rt, row.dest),
        ttl: row.ttl,
    };
    expect(rt, read_datagram(row.octets) == Ok(head), row.octets);
    let transport = row.octets.get(HEAD_SIZE..);
    expect(rt, transport == Some(row.transport), row.octets);
    match write_datagram(&head, row.transport) {
        Ok(written) => expect(rt, written.as_slice() == row.written, row.octets),
        Err(_) => expect(rt, false, row.octets),
    }
}

#[test]
fn datagrams_are_read_and_written(rt: HostRuntime) {
    for row in &DATAGRAMS {
        datagram_is_read_and_written(&rt, row);
    }
}

#[test]
fn what_is_no_datagram(rt: HostRuntime) {
    for (octets, refusal) in REFUSED_DATAGRAMS {
        expect(&rt, read_datagram(octets) == Err(refusal), octets);
    }
}

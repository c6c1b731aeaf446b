//! Addresses, calls in texts, and calls of NET/ROM. Called by `rt test`.
use super::{call, expect};
use crate::addresses::{ADDRESSES, AddressVector, REFUSED_ADDRESSES, REFUSED_CALLS};
use crate::net_calls::{NET_CALLS, NetCallVector, REFUSED_NET_CALLS};
use ax_address::{Call, address_fault, read_address, read_net_call, write_address, write_net_call};
use std::process::Abort;

fn address_goes_both_ways(rt: &impl Abort, row: &AddressVector) {
    match read_address(&row.octets) {
        Ok((address, last)) => {
            expect(rt, address.call == call(rt, row.call), &row.octets);
            expect(rt, address.bit7 == row.bit7, &row.octets);
            expect(rt, address.reserved == row.reserved, &row.octets);
            expect(rt, last == row.last, &row.octets);
            expect(rt, write_address(&address, last) == row.octets, &row.octets);
        }
        Err(_) => expect(rt, false, &row.octets),
    }
}

#[test]
fn addresses_go_both_ways(rt: HostRuntime) {
    for row in &ADDRESSES {
        address_goes_both_ways(&rt, row);
    }
}

#[test]
fn the_first_octet_at_fault_is_named(rt: HostRuntime) {
    for (octets, refusal) in REFUSED_ADDRESSES {
        expect(&rt, read_address(&octets) == Err(refusal), &octets);
        expect(&rt, address_fault(&octets) == Some(refusal), &octets);
    }
}

#[test]
fn texts_that_are_no_calls(rt: HostRuntime) {
    for (text, refusal) in REFUSED_CALLS {
        assert!(rt; Call::read(text.as_bytes()) == Err(refusal), "{text}");
    }
}

fn net_call_is_read_and_written(rt: &impl Abort, row: &NetCallVector) {
    let call = call(rt, row.call);
    expect(rt, read_net_call(&row.octets) == Ok(call), &row.octets);
    expect(rt, read_net_call(&row.written) == Ok(call), &row.written);
    expect(rt, write_net_call(&call) == row.written, &row.written);
}

#[test]
fn net_calls_are_read_and_written(rt: HostRuntime) {
    for row in &NET_CALLS {
        net_call_is_read_and_written(&rt, row);
    }
    for (octets, refusal) in REFUSED_NET_CALLS {
        expect(&rt, read_net_call(&octets) == Err(refusal), &octets);
    }
}

//! Transports. Called by `rt test`.
use super::{call, expect};
use crate::transports::{REFUSED_TRANSPORTS, Said, TRANSPORTS, TransportVector};
use arrayvec::ArrayVec;
use circuit_l4::{Transport, read_transport, write_transport};
use std::process::Abort;

fn transport(rt: &impl Abort, said: &Said) -> Transport {
    match *said {
        Said::Request {
            pair,
            window,
            user,
            node,
        } => Transport::Request {
            pair,
            window,
            user: call(rt, user),
            node: call(rt, node),
        },
        Said::Accept { to, own, window } => Transport::Accept { to, own, window },
        Said::Refuse { to } => Transport::Refuse { to },
        Said::Disconnect { to } => Transport::Disconnect { to },
        Said::Disconnected { to } => Transport::Disconnected { to },
        Said::Info {
            to,
            tx,
            rx,
            flags,
            text: bytes,
        } => {
            let mut text = ArrayVec::new();
            let _ = text.try_extend_from_slice(bytes);
            Transport::Info {
                to,
                tx,
                rx,
                flags,
                text,
            }
        }
        Said::InfoAck { to, rx, flags } => Transport::InfoAck { to, rx, flags },
    }
}

fn transport_is_read_and_written(rt: &impl Abort, row: &TransportVector) {
    let transport = transport(rt, &row.said);
    let written = write_transport(&transport);
    expect(rt, written.as_slice() == row.written, row.octets);
    let same = read_transport(row.written) == read_transport(row.octets);
    expect(rt, same, row.octets);
    expect(rt, read_transport(row.octets) == Ok(transport), row.octets);
}

#[test]
fn transports_are_read_and_written(rt: HostRuntime) {
    for row in &TRANSPORTS {
        transport_is_read_and_written(&rt, row);
    }
}

#[test]
fn what_is_no_transport(rt: HostRuntime) {
    for (octets, refusal) in REFUSED_TRANSPORTS {
        expect(&rt, read_transport(octets) == Err(refusal), octets);
    }
}

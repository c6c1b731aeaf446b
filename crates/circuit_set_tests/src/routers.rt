//! The lines that stand at `Router`. Called by `rt test`.
use ax_address::{Alias, Call};
use l3_datagram::*;
use radio_base::Moment;
use route_table::{RouteRules, RouteTable};
use std::alloc::Global;
use std::process::Abort;

const NOW: Moment = Moment(0);

/// A datagram of the Linux kernel's NET/ROM from N0BBB to N0AAA, as it came to the node N0CCC between them.
const CAME: [u8; 22] = [
    0x9C, 0x60, 0x84, 0x84, 0x84, 0x40, 0x60, 0x9C, 0x60, 0x82, 0x82, 0x82, 0x40, 0x61, 0x0F, 0x01,
    0x01, 0x01, 0x01, 0x02, 0x04, 0x10,
];
/// The same datagram as that node's kernel handed it on.
const WENT: [u8; 22] = [
    0x9C, 0x60, 0x84, 0x84, 0x84, 0x40, 0x60, 0x9C, 0x60, 0x82, 0x82, 0x82, 0x40, 0x61, 0x0E, 0x01,
    0x01, 0x01, 0x01, 0x02, 0x04, 0x10,
];

/// A datagram from N0BBB to N0CCC without a transport.
const OURS: [u8; 15] = [
    0x9C, 0x60, 0x84, 0x84, 0x84, 0x40, 0x60, 0x9C, 0x60, 0x86, 0x86, 0x86, 0x40, 0x60, 0x01,
];

/// A transport, and the datagram from N0CCC to N0AAA that carries it over 25 hops at most.
const TRANSPORT: [u8; 5] = [0x01, 0x01, 0x00, 0x00, 0x03];

const SENT: [u8; 20] = [
    0x9C, 0x60, 0x86, 0x86, 0x86, 0x40, 0x60, 0x9C, 0x60, 0x82, 0x82, 0x82, 0x40, 0x60, 0x19, 0x01,
    0x01, 0x00, 0x00, 0x03,
];

fn call(text: &[u8]) -> Call {
    Call::read(text).unwrap_or_default()
}

fn datagram(octets: &[u8]) -> Datagram {
    let mut datagram = Datagram::new();
    let _ = datagram.try_extend_from_slice(octets);
    datagram
}

/// The table of N0CCC, whose neighbour is N0AAA.
fn table(rt: &impl Abort, alloc: Global) -> RouteTable {
    let rules = RouteRules {
        life: 6,
        least: 5,
        minq: 1,
    };
    let mut table = RouteTable::new(alloc, call(b"N0CCC"), rules);
    let heard = table.heard(&call(b"N0AAA"), &Alias::default(), 192, &[]);
    assert!(rt; heard == Ok(()));
    table
}

/// The lines that stand at `Router`, in three steps.
#[test]
fn a_router_in_use(rt: HostRuntime) {
    let alloc = rt.alloc();
    let table = table(&rt, alloc);
    let mut router = Router::new(alloc, call(b"N0CCC"), table, PlainCarrier::new(alloc), 25);
    send(&rt, &mut router);
    take(&rt, &mut router);
    hand_on(&rt, &mut router);
}

/// The carrier was given this datagram for N0AAA.
fn expect_offered(rt: &impl Abort, router: &mut Router<PlainCarrier>, octets: &[u8]) {
    let offered = router.carrier_mut().fetch();
    assert!(rt; offered == Some((call(b"N0AAA"), datagram(octets))));
}

/// A datagram comes from N0BBB.
fn bring(rt: &impl Abort, router: &mut Router<PlainCarrier>, octets: &[u8]) {
    let brought = router
        .carrier_mut()
        .bring(&call(b"N0BBB"), &datagram(octets));
    assert!(rt; brought == Ok(()));
}

fn expect_routed(rt: &impl Abort, router: &mut Router<PlainCarrier>, wanted: Option<Routed>) {
    assert!(rt; router.pump(NOW) == Ok(wanted));
}

fn send(rt: &impl Abort, router: &mut Router<PlainCarrier>) {
    let sent = router.send(&call(b"N0AAA"), &TRANSPORT, NOW);
    assert!(rt; sent == Ok(Sending::Sent));
    expect_offered(rt, router, &SENT);
}

/// What is for the node comes up.
fn take(rt: &impl Abort, router: &mut Router<PlainCarrier>) {
    bring(rt, router, &OURS);
    let mine = Routed::Mine {
        origin: call(b"N0BBB"),
        datagram: datagram(&OURS),
    };
    expect_routed(rt, router, Some(mine));
}

/// What is for another node goes on, with one hop less.
fn hand_on(rt: &impl Abort, router: &mut Router<PlainCarrier>) {
    bring(rt, router, &CAME);
    expect_routed(rt, router, Some(Routed::Forwarded));
    expect_offered(rt, router, &WENT);
    expect_routed(rt, router, None);
}

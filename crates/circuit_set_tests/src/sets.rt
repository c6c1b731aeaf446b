//! The calls that stand at `CircuitSet`. Called by `rt test`.
use ax_address::{Alias, Call};
use circuit_l4::{EndConfig, EndNotice, Pair};
use circuit_set::{CircuitSet, ConnectRefusal, SetEvent};
use l3_datagram::{Datagram, PlainCarrier, Router};
use radio_base::{Moment, NoMemory};
use route_table::{RouteRules, RouteTable};
use std::alloc::Global;
use std::process::Abort;

type Set = CircuitSet<PlainCarrier>;

const NOW: Moment = Moment(0);

const RULES: RouteRules = RouteRules {
    life: 6,
    least: 5,
    minq: 1,
};

const CONFIG: EndConfig = EndConfig {
    window: 4,
    timeout: 1000,
    retries: 200,
    busy: 2000,
    inactive: 900_000,
};

/// N0AAA's Request to N0BBB, with the pair (1, 1) and window 4, and the Accept, with the pair (7, 9).
const REQUEST: [u8; 35] = [
    0x9C, 0x60, 0x82, 0x82, 0x82, 0x40, 0x60, 0x9C, 0x60, 0x84, 0x84, 0x84, 0x40, 0x60, 0x19, 0x01,
    0x01, 0x00, 0x00, 0x01, 0x04, 0x9C, 0x60, 0x82, 0x82, 0x82, 0x40, 0x60, 0x9C, 0x60, 0x82, 0x82,
    0x82, 0x40, 0x60,
];

const ACCEPT: [u8; 21] = [
    0x9C, 0x60, 0x84, 0x84, 0x84, 0x40, 0x60, 0x9C, 0x60, 0x82, 0x82, 0x82, 0x40, 0x60, 0x19, 0x01,
    0x01, 0x07, 0x09, 0x02, 0x04,
];

/// N0AAA's Info 0 with "hello".
const INFO: [u8; 25] = [
    0x9C, 0x60, 0x82, 0x82, 0x82, 0x40, 0x60, 0x9C, 0x60, 0x84, 0x84, 0x84, 0x40, 0x60, 0x19, 0x07,
    0x09, 0x00, 0x00, 0x05, 0x68, 0x65, 0x6C, 0x6C, 0x6F,
];

fn a_call() -> Call {
    Call::read(b"N0AAA").unwrap_or_default()
}

fn b_call() -> Call {
    Call::read(b"N0BBB").unwrap_or_default()
}

const FIRST: Pair = Pair { index: 1, ident: 1 };

/// The router of a node without routes.
fn router_of(alloc: Global, own: Call) -> Router<PlainCarrier> {
    let table = RouteTable::new(alloc, own, RULES);
    Router::new(alloc, own, table, PlainCarrier::new(alloc), 25)
}

/// The set of a node without routes.
fn made_set(alloc: Global, own: Call) -> Result<Set, NoMemory> {
    CircuitSet::new(alloc, router_of(alloc, own), own, CONFIG, FIRST, 1)
}

/// A node hears another one as its neighbour.
fn hears(rt: &impl Abort, set: &mut Set, neighbour: &Call) {
    let heard = set
        .router_mut()
        .table_mut()
        .heard(neighbour, &Alias::default(), 192, &[]);
    assert!(rt; heard == Ok(()));
}

/// What a set tells, as far as the tests look at it.
#[derive(Clone, Copy, PartialEq, Eq)]
enum Told {
    Made(Pair),
    Sent(u64),
    Notice(EndNotice),
    Other,
}

fn told_by(event: &SetEvent) -> Told {
    match event {
        SetEvent::Made { pair, .. } => Told::Made(*pair),
        SetEvent::Sent { id, .. } => Told::Sent(*id),
        SetEvent::Notice { notice, .. } => Told::Notice(*notice),
        _ => Told::Other,
    }
}

fn pump(rt: &impl Abort, set: &mut Set, now: Moment) -> Option<Told> {
    match set.pump(now) {
        Ok(Some(event)) => Some(told_by(&event)),
        Ok(None) => None,
        Err(_) => rt.abort(),
    }
}

/// Tells all that there is to tell, which is this.
fn expect(rt: &impl Abort, set: &mut Set, all: &[Told], now: Moment) {
    for told in all {
        assert!(rt; pump(rt, set, now) == Some(*told));
    }
    assert!(rt; pump(rt, set, now).is_none());
    assert!(rt; set.drained());
}

/// What comes of a circuit that is asked for: the number of its end, or why there is none.
fn connect(
    rt: &impl Abort,
    set: &mut Set,
    node: &Call,
    now: Moment,
    wanted: Result<u64, ConnectRefusal>,
) {
    assert!(rt; set.drained());
    assert!(rt; set.connect(node, now) == wanted);
}

/// A datagram of a neighbour comes, and there is memory for it.
fn bring(rt: &impl Abort, to: &mut PlainCarrier, from: &Call, datagram: &Datagram) {
    assert!(rt; to.bring(from, datagram) == Ok(()));
}

fn datagram(octets: &[u8]) -> Datagram {
    let mut datagram = Datagram::new();
    let _ = datagram.try_extend_from_slice(octets);
    datagram
}

/// The carrier was given these octets for N0BBB.
fn expect_offered(rt: &impl Abort, set: &mut Set, octets: &[u8]) {
    let offered = set.router_mut().carrier_mut().fetch();
    assert!(rt; offered == Some((b_call(), datagram(octets))));
}

/// The calls that stand at `CircuitSet`, in their order.
#[test]
fn a_set_in_use(rt: HostRuntime) {
    let made = made_set(rt.alloc(), a_call());
    let mut set = made.ok().expect(&rt, "memory");
    hears(&rt, &mut set, &b_call());
    connect(&rt, &mut set, &b_call(), NOW, Ok(1));
    expect(&rt, &mut set, &[Told::Made(FIRST), Told::Sent(1)], NOW);
    let carrier = set.router_mut().carrier_mut();
    bring(&rt, carrier, &b_call(), &datagram(&ACCEPT));
    let opened = Told::Notice(EndNotice::Opened { window: 4 });
    expect(&rt, &mut set, &[Told::Other, opened], NOW); // Heeded before the notice
    assert!(rt; set.drained());
    assert!(rt; set.write(1, b"hello", NOW) == Ok(()));
    expect(&rt, &mut set, &[Told::Sent(1)], NOW);
    expect_offered(&rt, &mut set, &REQUEST);
    expect_offered(&rt, &mut set, &INFO);
}

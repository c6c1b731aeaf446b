//! The lines that stand at `Node`. Called by `rt test`.
ghost use Rattle.node_core.specs.Configs.{IsConfig};

use ax_address::{Alias, Call};
use ax_link::{LinkConfig, LinkNotice};
use circuit_l4::{EndConfig, Pair};
use circuit_table::SetEvent;
use node_core::{ActDone, Node, NodeConfig, NodeEntry, UserAct};
use radio_base::Moment;
use route_table::RouteRules;
use std::process::Abort;

const NOW: Moment = Moment(0);

/// N0BBB's broadcast without entries.
const BROADCAST: [u8; 23] = [
    0x9C, 0x9E, 0x88, 0x8A, 0xA6, 0x40, 0xE0, 0x9C, 0x60, 0x84, 0x84, 0x84, 0x40, 0x61, 0x03, 0xCF,
    0xFF, 0x42, 0x4E, 0x4F, 0x44, 0x45, 0x20,
];

/// N0AAA's SABM to N0BBB, and the UA as KISS bytes.
const SET_UP: [u8; 15] = [
    0x9C, 0x60, 0x84, 0x84, 0x84, 0x40, 0xE0, 0x9C, 0x60, 0x82, 0x82, 0x82, 0x40, 0x61, 0x3F,
];

const ACCEPT: [u8; 18] = [
    0xC0, 0x00, 0x9C, 0x60, 0x82, 0x82, 0x82, 0x40, 0x60, 0x9C, 0x60, 0x84, 0x84, 0x84, 0x40, 0xE1,
    0x73, 0xC0,
];

/// N0AAA's I frame 0 with its Request to N0BBB, with the pair (1, 1) and window 4.
const ASKED: [u8; 51] = [
    0x9C, 0x60, 0x84, 0x84, 0x84, 0x40, 0xE0, 0x9C, 0x60, 0x82, 0x82, 0x82, 0x40, 0x61, 0x00, 0xCF,
    0x9C, 0x60, 0x82, 0x82, 0x82, 0x40, 0x60, 0x9C, 0x60, 0x84, 0x84, 0x84, 0x40, 0x60, 0x19, 0x01,
    0x01, 0x00, 0x00, 0x01, 0x04, 0x9C, 0x60, 0x82, 0x82, 0x82, 0x40, 0x60, 0x9C, 0x60, 0x82, 0x82,
    0x82, 0x40, 0x60,
];

#[test]
fn a_node_in_use(rt: HostRuntime) {
    let made = Node::new(rt.alloc(), config());
    let mut node = made.ok().expect(&rt, "memory");
    use_node(&rt, &mut node);
}

/// The lines, in three steps: each lets its values go before the next.
fn use_node(rt: &impl Abort, node: &mut Node) {
    ask(rt, node);
    expect_asking(rt, node);
    open(rt, node);
    assert!(rt; node.tick(Moment(1000)) == Ok(()));
}

/// A neighbour is heard, and a circuit to it asked for.
fn ask(rt: &impl Abort, node: &mut Node) {
    let neighbour = b_call();
    assert!(rt; node.kiss_frame(&BROADCAST, NOW) == Ok(()));
    assert!(rt; node.routes().next_hop(&neighbour) == Some(neighbour));
    assert!(rt;
        matches!(
            node.act(&UserAct::Connect(neighbour), NOW),
            Ok(ActDone::Made(1))
        )
    );
}

/// The request waits for a link, which is set up.
fn expect_asking(rt: &impl Abort, node: &mut Node) {
    assert!(rt;
        matches!(
            node.trace_entry(),
            Some(NodeEntry::Set(SetEvent::Made { id: 1, .. }))
        )
    );
    assert!(rt;
        matches!(
            node.trace_entry(),
            Some(NodeEntry::Set(SetEvent::Sent { id: 1, .. }))
        )
    );
    expect_frame(rt, node, &SET_UP);
}

/// The neighbour accepts the link, and the request goes over it.
fn open(rt: &impl Abort, node: &mut Node) {
    assert!(rt; node.kiss_bytes(&ACCEPT, NOW) == Ok(()));
    let up = NodeEntry::Link(b_call(), LinkNotice::Opened);
    assert!(rt; node.trace_entry() == Some(up));
    expect_frame(rt, node, &ASKED);
}

/// The next frame has these octets.
fn expect_frame(rt: &impl Abort, node: &mut Node, octets: &[u8]) {
    match node.next_frame() {
        Some(frame) => assert!(rt; frame.octets.as_slice() == octets),
        None => rt.abort(),
    }
}

/// The settings of N0AAA.
fn config() -> NodeConfig
    ensures { IsConfig result }
{
    NodeConfig {
        call: Call::read(b"N0AAA").unwrap_or_default(),
        alias: Alias::default(),
        routes: RouteRules {
            life: 6,
            least: 5,
            minq: 1,
        },
        quality: 192,
        ttl: 25,
        ends: EndConfig {
            window: 4,
            timeout: 60_000,
            retries: 3,
            busy: 180_000,
            inactive: 900_000,
        },
        links: true,
        modulo128: false,
        link: LinkConfig {
            window: 0,
            srej: false,
            t1: 3000,
            t3: 300_000,
            retries: 10,
        },
        prompt: false,
        interval: 0,
        pair: Pair { index: 1, ident: 1 },
        first: 1,
    }
}

fn b_call() -> Call {
    Call::read(b"N0BBB").unwrap_or_default()
}

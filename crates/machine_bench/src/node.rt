//! Frames into a node. Called by `main`.
ghost use Rattle.node_core.specs.Configs.{IsConfig};

use arrayvec::ArrayVec;
use ax_address::{Address, Alias, Call, Path};
use ax_frame::{Control, FrameBytes, Head, write_frame};
use ax_link::LinkConfig;
use circuit_l4::{EndConfig, Pair};
use kiss_framing::enframe;
use node_core::{Node, NodeConfig, UserAct};
use radio_base::{M8, Moment, NoMemory};
use route_table::RouteRules;
use std::alloc::Global;

const NOW: Moment = Moment(0);

/// The node's own number, and those of two stations that have no link with it.
const OWN: u8 = 0;

const STRANGER: u8 = 98;

const OTHER: u8 = 99;

/// More than ever wait at one node.
const MANY: u32 = 10_000;

/// A frame as KISS bytes.
type Kiss = ArrayVec<u8, 2050>;

/// Hands `count` frames to a node that holds so many links and as many ends of circuits: in turn one between two other stations, a
/// broadcast that changes nothing, and one to the node, which it answers. How many frames it put out: 0 where it holds fewer.
pub fn taken(alloc: Global, held: u8, count: u32) -> Result<u32, NoMemory> {
    let kinds = [between_others(), broadcast(alloc)?, to_the_node()];
    let mut node = Node::new(alloc, config(OWN))?;
    hold_and_take(alloc, &mut node, held, &kinds, count)
}

fn hold_and_take(
    alloc: Global,
    node: &mut Node,
    held: u8,
    kinds: &[Kiss; 3],
    count: u32,
) -> Result<u32, NoMemory> {
    if hold(alloc, node, held)? {
        take_all(node, kinds, count)
    } else {
        Ok(0)
    }
}

fn take_all(node: &mut Node, kinds: &[Kiss; 3], count: u32) -> Result<u32, NoMemory> {
    let mut out: u32 = 0;
    for nth in 0..count {
        node.kiss_bytes(kinds[nth as usize % 3].as_slice(), NOW)?;
        out = out.saturating_add(fetched(node));
    }
    Ok(out)
}

/// Joins the node to so many peers. Whether it holds a link with each, and the end of each.
fn hold(alloc: Global, node: &mut Node, held: u8) -> Result<bool, NoMemory> {
    for before in 0..held.min(64) {
        let number = before + 1;
        join_new(alloc, node, number)?;
        if !holds(node, number) {
            return Ok(false);
        }
    }
    Ok(true)
}

fn join_new(alloc: Global, node: &mut Node, number: u8) -> Result<(), NoMemory> {
    let mut peer = Node::new(alloc, config(number))?;
    join(node, &mut peer)
}

/// Whether it holds the link with the peer of this number, and the end of that number.
fn holds(node: &Node, number: u8) -> bool {
    let links = node.circuits().router().carrier();
    links.link(&numbered(number)).is_some() && node.facts(number as u64).is_some()
}

/// A node opens a circuit with another one, over a link.
fn join(node: &mut Node, peer: &mut Node) -> Result<(), NoMemory> {
    let _ = node.act(&UserAct::Round, NOW);
    let _ = peer.act(&UserAct::Round, NOW);
    exchange(node, peer)?;
    let _ = peer.act(&UserAct::Connect(numbered(OWN)), NOW);
    exchange(node, peer)
}

/// Carries frames both ways until none waits.
fn exchange(node: &mut Node, peer: &mut Node) -> Result<(), NoMemory> {
    for _ in 0..MANY {
        let went = carry(node, peer)?;
        let came = carry(peer, node)?;
        if !went && !came {
            return Ok(());
        }
    }
    Ok(())
}

/// Hands what waits to be sent to the other. Whether anything did.
fn carry(from: &mut Node, to: &mut Node) -> Result<bool, NoMemory> {
    let mut some = false;
    for _ in 0..MANY {
        let Some(written) = from.next_frame() else {
            return Ok(some);
        };
        some = true;
        to.kiss_bytes(kiss(written.octets.as_slice()).as_slice(), NOW)?;
        let _ = fetched_entries(to);
    }
    Ok(some)
}

fn kiss(octets: &[u8]) -> Kiss {
    let mut bytes = Kiss::new();
    let _ = enframe(0, 0, octets, &mut bytes);
    bytes
}

/// Fetches all that waits. How many frames there were.
fn fetched(node: &mut Node) -> u32 {
    fetched_entries(node);
    for count in 0..MANY {
        if node.next_frame().is_none() {
            return count;
        }
    }
    MANY
}

fn fetched_entries(node: &mut Node) {
    for _ in 0..MANY {
        if node.trace_entry().is_none() {
            return;
        }
    }
}

/// An information frame from one station to another.
fn between_others() -> Kiss {
    let mut octets = FrameBytes::new();
    let head = head(OTHER, STRANGER);
    let control = Control::I {
        ns: 0,
        nr: 0,
        pf: false,
    };
    let _ = write_frame::<M8>(&head, &control, Some(0xF0), &[b'x'; 200], &mut octets);
    kiss(octets.as_slice())
}

/// A broadcast of another node.
fn broadcast(alloc: Global) -> Result<Kiss, NoMemory> {
    let mut other = Node::new(alloc, config(OTHER))?;
    Ok(round_of(&mut other))
}

/// The first frame of a round of this node.
fn round_of(node: &mut Node) -> Kiss {
    let _ = node.act(&UserAct::Round, NOW);
    match node.next_frame() {
        Some(written) => kiss(written.octets.as_slice()),
        None => Kiss::new(),
    }
}

/// A frame to the node of a station with which it has no link.
fn to_the_node() -> Kiss {
    let mut octets = FrameBytes::new();
    let head = head(OWN, STRANGER);
    let _ = write_frame::<M8>(&head, &Control::Disc { pf: true }, None, &[], &mut octets);
    kiss(octets.as_slice())
}

fn head(dest: u8, source: u8) -> Head {
    Head {
        dest: address(dest, true),
        source: address(source, false),
        path: Path::new(),
    }
}

fn address(number: u8, bit7: bool) -> Address {
    Address {
        call: numbered(number),
        bit7,
        reserved: 3,
    }
}

/// A call of its own for each number below 100.
fn numbered(number: u8) -> Call {
    let high = b'0' + number / 10 % 10;
    let low = b'0' + number % 10;
    Call::read(&[b'N', b'0', b'A', high, low])
        .ok()
        .unwrap_or_default()
}

fn config(number: u8) -> NodeConfig
    ensures { IsConfig result }
{
    NodeConfig {
        call: numbered(number),
        alias: Alias::default(),
        routes: RouteRules {
            life: 6,
            least: 5,
            minq: 1,
        },
        quality: 192,
        ttl: 25,
        ends: EndConfig {
            window: 4,
            timeout: 60_000,
            retries: 3,
            busy: 180_000,
            inactive: 900_000,
        },
        links: true,
        modulo128: false,
        link: LinkConfig {
            window: 0,
            srej: false,
            t1: 3000,
            t3: 300_000,
            retries: 10,
        },
        prompt: false,
        interval: 0,
        pair: Pair { index: 1, ident: 1 },
        first: 1,
    }
}

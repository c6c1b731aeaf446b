//! Messages over a circuit. Called by `main`.
use ax_address::{Alias, Call};
use circuit_l4::{EndConfig, Pair};
use circuit_table::CircuitSet;
use l3_datagram::{Message, PlainCarrier, Router};
use radio_base::{Moment, NoMemory};
use route_table::{RouteRules, RouteTable};
use std::alloc::Global;

const NOW: Moment = Moment(0);

const RULES: RouteRules = RouteRules {
    life: 6,
    least: 5,
    minq: 1,
};

const CONFIG: EndConfig = EndConfig {
    window: 4,
    timeout: 60_000,
    retries: 3,
    busy: 180_000,
    inactive: 900_000,
};

/// More than ever wait at one set.
const MANY: u32 = 10_000;

/// A node's circuits over a carrier in memory.
type Set = CircuitSet<PlainCarrier>;

/// Opens a circuit for each of `circuits` ends of one node at another, and writes `count` messages of 200 bytes, at one end after the
/// other; each is taken before the next. How many came.
pub fn carried(alloc: Global, circuits: u8, count: u32) -> Result<u32, NoMemory> {
    let left_call = call(b"N0AAA");
    let right_call = call(b"N0BBB");
    let mut left = set_of(alloc, left_call, &right_call)?;
    let mut right = set_of(alloc, right_call, &left_call)?;
    open(&mut left, &mut right, &right_call, circuits)?;
    write_all(&mut left, &mut right, circuits, count)
}

/// Opens so many circuits with the other node.
fn open(left: &mut Set, right: &mut Set, other: &Call, circuits: u8) -> Result<(), NoMemory> {
    for _ in 0..circuits {
        if left.drained() {
            let _ = left.connect(other, NOW);
        }
        exchange(left, right)?;
    }
    Ok(())
}

/// Writes so many messages. How many came.
fn write_all(left: &mut Set, right: &mut Set, circuits: u8, count: u32) -> Result<u32, NoMemory> {
    let mut came: u32 = 0;
    for nth in 0..count {
        let id = match circuits {
            0 => 1,
            some => (nth % some as u32) as u64 + 1,
        };
        if left.drained() {
            let _ = left.write(id, &[b'x'; 200], NOW);
        }
        exchange(left, right)?;
        came = came.saturating_add(taken(right, id));
        exchange(left, right)?;
    }
    Ok(came)
}

/// The circuits of a node that hears one neighbour.
fn set_of(alloc: Global, own: Call, neighbour: &Call) -> Result<Set, NoMemory> {
    let mut table = RouteTable::new(alloc, own, RULES);
    let _ = table.heard(neighbour, &Alias::default(), 192, &[]);
    let router = Router::new(alloc, own, table, PlainCarrier::new(alloc), 25);
    CircuitSet::new(alloc, router, own, CONFIG, Pair { index: 1, ident: 1 }, 1)
}

/// Tells all that both sets have to tell, and carries datagrams both ways, until none goes.
fn exchange(left: &mut Set, right: &mut Set) -> Result<(), NoMemory> {
    for _ in 0..MANY {
        let went = carry(left, right)?;
        let came = carry(right, left)?;
        if !went && !came {
            return Ok(());
        }
    }
    Ok(())
}

/// Tells all that a set has to tell, and hands what it has sent to the other. Whether anything was sent.
fn carry(from: &mut Set, to: &mut Set) -> Result<bool, NoMemory> {
    tell_all(from)?;
    let own = from.router().own();
    let mut some = false;
    for _ in 0..MANY {
        let Some((_, datagram)) = from.router_mut().carrier_mut().fetch() else {
            return Ok(some);
        };
        some = true;
        to.router_mut().carrier_mut().bring(&own, &datagram)?;
    }
    Ok(some)
}

fn tell_all(set: &mut Set) -> Result<(), NoMemory> {
    for _ in 0..MANY {
        if set.pump(NOW)?.is_none() {
            return Ok(());
        }
    }
    Ok(())
}

/// Takes the message that waits at an end. How many there were.
fn taken(set: &mut Set, id: u64) -> u32 {
    let mut message = Message::new();
    if set.drained() && set.take(id, &mut message, NOW) == Ok(true) {
        1
    } else {
        0
    }
}

fn call(text: &[u8]) -> Call {
    Call::read(text).ok().unwrap_or_default()
}

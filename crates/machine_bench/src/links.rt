//! Datagrams over links. Called by `main`.
ghost use Rattle.std.specs.Prelude.{◌≡◌, ◌⊎◌};

use ax_address::{Address, Call, Path};
use ax_frame::read_frame;
use ax_link::LinkConfig;
use l3_datagram::{Carrier, Datagram};
use link_table::{LinkTable, PathRefusal, Written};
use radio_base::{M8, M128, Modulus, Moment, NoMemory};
use std::alloc::Global;

const NOW: Moment = Moment(0);

const CONFIG: LinkConfig = LinkConfig {
    window: 0,
    srej: false,
    t1: 3000,
    t3: 300_000,
    retries: 10,
};

/// More than ever wait at one table.
const MANY: u32 = 10_000;

/// Hands `count` datagrams from a table of links to so many others, in turn, each until nothing is left to be sent. How many came.
pub fn carried(alloc: Global, modulo128: bool, peers: u8, count: u32) -> Result<u32, NoMemory> {
    let own = numbered(0);
    let mut others = others(alloc, modulo128, peers)?;
    let mut hub = LinkTable::new(alloc, own, true, modulo128, CONFIG)?;
    hand_all(&mut hub, &own, &mut others, count)
}

/// A table of links for each number from 1 to `peers`.
fn others(alloc: Global, modulo128: bool, peers: u8) -> Result<Vec<LinkTable>, NoMemory> {
    let mut others = Vec::new(alloc);
    for number in 0..peers {
        let own = numbered(number.saturating_add(1));
        others.push(LinkTable::new(alloc, own, true, modulo128, CONFIG)?)?;
    }
    Ok(others)
}

/// Hands so many datagrams to the others, in turn. How many came.
fn hand_all(
    hub: &mut LinkTable,
    own: &Call,
    others: &mut [LinkTable],
    count: u32,
) -> Result<u32, NoMemory> {
    set_paths(hub)?;
    let mut came: u32 = 0;
    for nth in 0..count {
        if others.is_empty() {
            return Ok(came);
        }
        let at = nth as usize % others.len();
        hand(hub, own, &mut others[at], &numbered((at % 64) as u8 + 1))?;
        came = came.saturating_add(collected(&mut others[at]));
    }
    Ok(came)
}

/// Reaches the first 16 others over a repeater each.
fn set_paths(hub: &mut LinkTable) -> Result<(), NoMemory> {
    for number in 1..17u8 {
        let mut path = Path::new();
        let _ = path.try_push(Address {
            call: numbered(99),
            bit7: true,
            reserved: 3,
        });
        if hub.set_path(&numbered(number), &path) == Err(PathRefusal::NoMemory) {
            return Err(NoMemory);
        }
    }
    Ok(())
}

/// Offers a datagram to the other, and carries frames both ways until none waits.
fn hand(
    hub: &mut LinkTable,
    own: &Call,
    other: &mut LinkTable,
    peer: &Call,
) -> Result<(), NoMemory> {
    let mut datagram = Datagram::new();
    let _ = datagram.try_extend_from_slice(&[7; 235]);
    hub.offer(peer, &datagram, NOW)?;
    for _ in 0..MANY {
        let went = carry(hub, own, other)?;
        let came = carry(other, peer, hub)?;
        if !went && !came {
            return Ok(());
        }
    }
    Ok(())
}

/// Hands what waits to be sent to the other. Whether anything did.
fn carry(from: &mut LinkTable, sender: &Call, to: &mut LinkTable) -> Result<bool, NoMemory> {
    let mut some = false;
    for _ in 0..MANY {
        let Some(written) = from.next_out() else {
            return Ok(some);
        };
        some = true;
        arrive(to, sender, &written)?;
        let _ = to.notice();
    }
    Ok(some)
}

/// Hands a frame to a table, read by the modulus of its link with the sender.
fn arrive(to: &mut LinkTable, sender: &Call, written: &Written) -> Result<(), NoMemory> {
    if to.is_128(sender) {
        arrive_by::<M128>(to, written)
    } else {
        arrive_by::<M8>(to, written)
    }
}

fn arrive_by<M: Modulus>(to: &mut LinkTable, written: &Written) -> Result<(), NoMemory>
    requires { (M.SIZE ≡ 8) ⊎ (M.SIZE ≡ 128) }
{
    match read_frame::<M>(written.octets.as_slice()) {
        Ok(frame) => to.arrive(&frame, NOW),
        Err(_) => Ok(()),
    }
}

/// Takes all datagrams that wait. How many they were.
fn collected(table: &mut LinkTable) -> u32 {
    for count in 0..MANY {
        if table.collect().is_none() {
            return count;
        }
    }
    MANY
}

/// A call of its own for each number below 100.
fn numbered(number: u8) -> Call {
    let high = b'0' + number / 10 % 10;
    let low = b'0' + number % 10;
    Call::read(&[b'N', b'0', b'A', high, low])
        .ok()
        .unwrap_or_default()
}

//! Mail and receipts that a store hears. Called by `main`.
use ax_address::Call;
use l3_datagram::Message;
use node_mail::{Heard, PostRefusal, Store};
use radio_base::NoMemory;
use std::alloc::Global;

/// What is heard.
#[derive(Clone, Copy, Debug)]
pub enum Hearing {
    /// Mails that weren't stored before.
    New,
    /// Mails that are stored.
    Again,
    /// Receipts for queued mails, the lowest number first.
    Receipts,
}

/// In each of `rounds` rounds a store hears `held` mails of 1,024 octets, or receipts for as many that were posted in that round. How many
/// came.
pub fn heard(alloc: Global, hearing: Hearing, held: u16, rounds: u32) -> Result<u32, NoMemory> {
    match hearing {
        Hearing::New => new_mails(alloc, held, rounds),
        Hearing::Again => stored_mails(alloc, held, rounds),
        Hearing::Receipts => receipts(alloc, held, rounds),
    }
}

/// Each round begins with an empty store.
fn new_mails(alloc: Global, held: u16, rounds: u32) -> Result<u32, NoMemory> {
    let mut came: u32 = 0;
    for _ in 0..rounds {
        let mut store = Store::new(alloc, call(b"N0BBB"));
        came = came.saturating_add(hear_mails(&mut store, held)?);
    }
    Ok(came)
}

/// All mails were stored before the first round.
fn stored_mails(alloc: Global, held: u16, rounds: u32) -> Result<u32, NoMemory> {
    let mut store = Store::new(alloc, call(b"N0BBB"));
    hear_mails(&mut store, held)?;
    let mut came: u32 = 0;
    for _ in 0..rounds {
        came = came.saturating_add(hear_mails(&mut store, held)?);
    }
    Ok(came)
}

fn receipts(alloc: Global, held: u16, rounds: u32) -> Result<u32, NoMemory> {
    let mut store = Store::new(alloc, call(b"N0BBB"));
    let mut came: u32 = 0;
    for _ in 0..rounds {
        post_mails(&mut store, held)?;
        came = came.saturating_add(settle_mails(&mut store, held)?);
    }
    Ok(came)
}

/// Hears the mails 1 to `held` of N0AAA. How many are stored.
fn hear_mails(store: &mut Store, held: u16) -> Result<u32, NoMemory> {
    let from = call(b"N0AAA");
    let mut mail = [b'x'; 1040];
    mail[..16].copy_from_slice(b"\x4D\x00\x00\x00\x00\x00\x00\x00\x00\x96\x62\x82\x84\x86\x40\x60");
    let mut out = Message::new();
    let mut came: u32 = 0;
    for nth in 0..held {
        mail[1..9].copy_from_slice(&(nth as u64 + 1).to_be_bytes());
        match store.hear(&from, &mail, &mut out)? {
            Heard::Stored { .. } | Heard::Again { .. } => came = came.saturating_add(1),
            _ => {}
        }
    }
    Ok(came)
}

/// Posts so many mails for N0AAA.
fn post_mails(store: &mut Store, held: u16) -> Result<(), NoMemory> {
    let (to, dest) = (call(b"K1ABC"), call(b"N0AAA"));
    for _ in 0..held {
        if store.post(&to, &dest, &[b'x'; 1024]) == Err(PostRefusal::NoMemory) {
            return Err(NoMemory);
        }
    }
    Ok(())
}

/// Hears receipts for as many mails, the lowest number first. How many are settled.
fn settle_mails(store: &mut Store, held: u16) -> Result<u32, NoMemory> {
    let mut receipt = [0x41; 9];
    let mut out = Message::new();
    let mut came: u32 = 0;
    for _ in 0..held {
        let Some((number, dest)) = store.queued(0) else {
            return Ok(came);
        };
        receipt[1..].copy_from_slice(&number.to_be_bytes());
        if let Heard::Settled { .. } = store.hear(&dest, &receipt, &mut out)? {
            came = came.saturating_add(1);
        }
    }
    Ok(came)
}

fn call(text: &[u8]) -> Call {
    Call::read(text).ok().unwrap_or_default()
}

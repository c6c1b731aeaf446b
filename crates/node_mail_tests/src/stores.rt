//! A store, and what is asked of it.
use ax_address::Call;
use l3_datagram::Message;
use node_mail::{Heard, PostRefusal, Store};
use std::alloc::Global;
use std::process::Abort;

pub fn call(rt: &impl Abort, text: &[u8]) -> Call {
    Call::read(text).ok().expect(rt, "a call")
}

/// The store of a node in which nothing is kept.
pub fn store(rt: &impl Abort, alloc: Global, own: &[u8]) -> Store {
    Store::new(alloc, call(rt, own))
}

/// Posts a mail for K1ABC at a node.
pub fn expect_posted(
    rt: &impl Abort,
    store: &mut Store,
    dest: &[u8],
    text: &[u8],
    wanted: Result<u64, PostRefusal>,
) {
    let (to, dest) = (call(rt, b"K1ABC"), call(rt, dest));
    assert!(rt; store.post(&to, &dest, text) == wanted, "{wanted:?}");
}

/// Hears octets from a node, and compares the answer.
pub fn expect_heard(
    rt: &impl Abort,
    store: &mut Store,
    from: &[u8],
    octets: &[u8],
    wanted: Heard,
    answer: &[u8],
) {
    let mut out = Message::new();
    let heard = store.hear(&call(rt, from), octets, &mut out);
    assert!(rt; heard == Ok(wanted), "{wanted:?}");
    assert!(rt; out.as_slice() == answer, "{wanted:?}");
}

pub fn expect_wire(rt: &impl Abort, store: &Store, number: u64, wanted: Option<&[u8]>) {
    let mut out = Message::new();
    let found = store.wire(number, &mut out);
    assert!(rt; found == wanted.is_some(), "{number}");
    assert!(rt; out.as_slice() == wanted.unwrap_or(b""), "{number}");
}

pub fn expect_queued(rt: &impl Abort, store: &Store, nth: usize, wanted: Option<(u64, Call)>) {
    assert!(rt; store.queued(nth) == wanted, "{nth}");
}

pub fn expect_counts(rt: &impl Abort, store: &Store, wanted: (usize, usize)) {
    assert!(rt; store.counts() == wanted, "{wanted:?}");
}

pub fn expect_stored(rt: &impl Abort, store: &Store, nth: usize, wanted: bool) {
    assert!(rt; store.stored(nth).is_some() == wanted, "{nth}");
}

/// Kills the mail of a number from a node.
pub fn expect_killed(rt: &impl Abort, store: &mut Store, origin: &[u8], number: u64, wanted: bool) {
    assert!(rt; store.kill(&call(rt, origin), number) == wanted, "{number}");
}

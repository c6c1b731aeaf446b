//! Worked rows. Called by `rt test`.
use crate::stores::{
    call, expect_counts, expect_heard, expect_posted, expect_queued, expect_wire, store,
};
use ax_address::Call;
use node_mail::{Heard, Mail, PostRefusal, Store};
use std::process::Abort;

/// Mail 1 for K1ABC: `hello`.
const HELLO: &[u8; 21] = b"\x4D\x00\x00\x00\x00\x00\x00\x00\x01\x96\x62\x82\x84\x86\x40\x60hello";

/// The receipt for mail 1.
const RECEIPT: &[u8; 9] = b"\x41\x00\x00\x00\x00\x00\x00\x00\x01";

fn is_hello(mail: &Mail, origin: &Call, to: &Call) -> bool {
    mail.origin == *origin
        && mail.number == 1
        && mail.to == *to
        && mail.text.as_slice() == b"hello".as_slice()
}

fn stores_hello(store: &Store, nth: usize, origin: &Call, to: &Call) -> bool {
    match store.stored(nth) {
        Some(mail) => is_hello(mail, origin, to),
        None => false,
    }
}

fn expect_hello(rt: &impl Abort, store: &Store, nth: usize, origin: &[u8]) {
    let (origin, to) = (call(rt, origin), call(rt, b"K1ABC"));
    let stores = stores_hello(store, nth, &origin, &to);
    assert!(rt; stores, "{nth}");
}

#[test]
fn a_mail_is_offered_until_its_receipt_and_stored_once(rt: HostRuntime) {
    let mut a = store(&rt, rt.alloc(), b"N0AAA");
    let mut b = store(&rt, rt.alloc(), b"N0BBB");
    let to = call(&rt, b"K1ABC");
    expect_posted(&rt, &mut a, b"N0BBB", b"hello", Ok(1));
    expect_queued(&rt, &a, 0, Some((1, call(&rt, b"N0BBB"))));
    for (heard, origin) in [
        (Heard::Stored { number: 1, to }, b"N0AAA"),
        (Heard::Again { number: 1 }, b"N0AAA"),
        (Heard::Stored { number: 1, to }, b"N0CCC"),
    ] {
        expect_wire(&rt, &a, 1, Some(HELLO));
        expect_heard(&rt, &mut b, origin, HELLO, heard, RECEIPT);
    }
    expect_hello(&rt, &b, 0, b"N0AAA");
    expect_hello(&rt, &b, 1, b"N0CCC");
    expect_counts(&rt, &b, (0, 2));
    for (heard, from) in [
        (Heard::Stray { number: 1 }, b"N0CCC"),
        (Heard::Settled { number: 1 }, b"N0BBB"),
        (Heard::Stray { number: 1 }, b"N0BBB"),
    ] {
        expect_heard(&rt, &mut a, from, RECEIPT, heard, b"");
    }
    expect_queued(&rt, &a, 0, None);
    expect_wire(&rt, &a, 1, None);
    expect_posted(&rt, &mut a, b"N0BBB", b"hello", Ok(2));
}

#[test]
fn the_first_reason_refuses_a_post(rt: HostRuntime) {
    let mut a = store(&rt, rt.alloc(), b"N0AAA");
    for (dest, text, refusal) in [
        (b"N0AAA", b"".as_slice(), PostRefusal::Own),
        (b"N0AAA", [b'x'; 1025].as_slice(), PostRefusal::Own),
        (b"N0BBB", b"".as_slice(), PostRefusal::Empty),
        (b"N0BBB", [b'x'; 1025].as_slice(), PostRefusal::TooLong),
    ] {
        expect_posted(&rt, &mut a, dest, text, Err(refusal));
    }
    expect_counts(&rt, &a, (0, 0));
    expect_posted(&rt, &mut a, b"N0BBB", b"x", Ok(1));
}

#[test]
fn what_is_no_message_is_bad(rt: HostRuntime) {
    let mut b = store(&rt, rt.alloc(), b"N0BBB");
    for octets in [
        b"".as_slice(),
        b"hello".as_slice(),
        &HELLO[..16],
        &RECEIPT[..8],
        b"\x41\x00\x00\x00\x00\x00\x00\x00\x01\x00".as_slice(),
        b"\x41\x00\x00\x00\x00\x00\x00\x00\x00".as_slice(),
        b"\x41\x40\x00\x00\x00\x00\x00\x00\x01".as_slice(),
        b"\x4D\x00\x00\x00\x00\x00\x00\x00\x00\x96\x62\x82\x84\x86\x40\x60hello".as_slice(),
        b"\x4D\x00\x00\x00\x00\x00\x00\x00\x01\x97\x62\x82\x84\x86\x40\x60hello".as_slice(),
    ] {
        expect_heard(&rt, &mut b, b"N0AAA", octets, Heard::Bad, b"");
    }
    let last = b"\x41\x40\x00\x00\x00\x00\x00\x00\x00";
    expect_heard(
        &rt,
        &mut b,
        b"N0AAA",
        last,
        Heard::Stray { number: 1 << 62 },
        b"",
    );
    expect_counts(&rt, &b, (0, 0));
}

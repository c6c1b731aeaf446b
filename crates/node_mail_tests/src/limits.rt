//! Stores at their limits: 1,000 mails queued, 4,096 stored, each of 1,024 octets. Called by `rt test`.
use crate::stores::{
    call, expect_counts, expect_heard, expect_killed, expect_posted, expect_queued, expect_stored,
    expect_wire, store,
};
use ax_address::Call;
use node_mail::{Heard, PostRefusal, Store};
use std::process::Abort;

/// A mail of 1,024 octets for K1ABC, with that number.
fn long_mail(number: u64) -> [u8; 1040] {
    let mut octets = [b'x'; 1040];
    octets[0] = 0x4D;
    octets[1..9].copy_from_slice(&number.to_be_bytes());
    octets[9..16].copy_from_slice(b"\x96\x62\x82\x84\x86\x40\x60");
    octets
}

/// The receipt for the mail of a number.
fn receipt(number: u64) -> [u8; 9] {
    let mut octets = [0x41; 9];
    octets[1..].copy_from_slice(&number.to_be_bytes());
    octets
}

fn expect_long(rt: &impl Abort, store: &mut Store, number: u64, wanted: Heard) {
    let answer = receipt(number);
    expect_heard(rt, store, b"N0AAA", &long_mail(number), wanted, &answer);
}

#[test]
fn a_thousand_mails_are_queued(rt: HostRuntime) {
    let mut a = store(&rt, rt.alloc(), b"N0AAA");
    let text = [b'x'; 1024];
    for number in 1..1001u64 {
        expect_posted(&rt, &mut a, b"N0BBB", &text, Ok(number));
    }
    expect_posted(&rt, &mut a, b"N0BBB", &text, Err(PostRefusal::Full));
    for number in 1..1001u64 {
        expect_wire(&rt, &a, number, Some(&long_mail(number)));
    }
    expect_queued(&rt, &a, 999, Some((1000, call(&rt, b"N0BBB"))));
    expect_queued(&rt, &a, 1000, None);
    expect_heard(
        &rt,
        &mut a,
        b"N0BBB",
        &receipt(500),
        Heard::Settled { number: 500 },
        b"",
    );
    expect_wire(&rt, &a, 500, None);
    expect_posted(&rt, &mut a, b"N0BBB", &text, Ok(1001));
    expect_counts(&rt, &a, (1000, 0));
}

#[test]
fn four_thousand_and_ninety_six_mails_are_stored(rt: HostRuntime) {
    let mut b = store(&rt, rt.alloc(), b"N0BBB");
    let to: Call = call(&rt, b"K1ABC");
    for number in 1..4097u64 {
        expect_long(&rt, &mut b, number, Heard::Stored { number, to });
    }
    expect_heard(
        &rt,
        &mut b,
        b"N0AAA",
        &long_mail(4097),
        Heard::Full { number: 4097 },
        b"",
    );
    for number in 1..4097u64 {
        expect_long(&rt, &mut b, number, Heard::Again { number });
    }
    expect_counts(&rt, &b, (0, 4096));
    expect_stored(&rt, &b, 4095, true);
    expect_stored(&rt, &b, 4096, false);
    expect_killed(&rt, &mut b, b"N0CCC", 7, false);
    expect_killed(&rt, &mut b, b"N0AAA", 7, true);
    expect_killed(&rt, &mut b, b"N0AAA", 7, false);
    expect_long(&rt, &mut b, 7, Heard::Again { number: 7 });
    expect_long(&rt, &mut b, 4097, Heard::Stored { number: 4097, to });
    expect_heard(
        &rt,
        &mut b,
        b"N0AAA",
        &long_mail(4098),
        Heard::Full { number: 4098 },
        b"",
    );
    expect_counts(&rt, &b, (0, 4097));
}

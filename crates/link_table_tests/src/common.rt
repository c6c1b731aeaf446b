//! What the tests of links share. Called by the other files here.
use ax_address::Call;
use ax_link::LinkConfig;
use link_table::{LinkTable, Written};
use radio_base::Moment;
use std::alloc::Global;
use std::process::Abort;

pub const NOW: Moment = Moment(0);

pub const CONFIG: LinkConfig = LinkConfig {
    window: 0,
    srej: false,
    t1: 3000,
    t3: 300_000,
    retries: 10,
};

/// The table of N0AAA.
pub fn table(rt: &impl Abort, alloc: Global) -> LinkTable {
    let made = LinkTable::new(alloc, call(b"N0AAA"), true, false, CONFIG);
    made.ok().expect(rt, "memory")
}

pub fn call(text: &[u8]) -> Call {
    Call::read(text).unwrap_or_default()
}

/// The next frame is this one.
pub fn expect_octets(rt: &impl Abort, written: &Option<Written>, octets: &[u8]) {
    match written {
        Some(written) => assert!(rt; written.octets.as_slice() == octets),
        None => rt.abort(),
    }
}

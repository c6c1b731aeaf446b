//! Each vector is read by the codecs and written again by them. What its files share is called by them.
mod addresses;
mod datagrams;
mod frames;
mod kiss;
mod nodes;
mod segments;
mod transports;

use ax_address::{Alias, Call};
use std::process::Abort;

fn call(rt: &impl Abort, text: &str) -> Call {
    Call::read(text.as_bytes()).ok().expect(rt, "a call")
}

fn alias(rt: &impl Abort, text: &str) -> Alias {
    Alias::read(text.as_bytes()).ok().expect(rt, "an alias")
}

/// Asserts that this holds of these octets.
fn expect(rt: &impl Abort, holds: bool, octets: &[u8]) {
    assert!(rt; holds, "{octets:?}");
}

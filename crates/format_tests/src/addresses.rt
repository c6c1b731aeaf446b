//! Texts that are no aliases. Called by `rt test`.
use ax_address::{Alias, AliasRefusal};

#[test]
fn the_first_octet_at_fault_is_named(rt: HostRuntime) {
    assert!(rt; Alias::read(b"BNODE") == Ok(Alias::from_bytes(*b"BNODE ")));
    assert!(rt; Alias::read(b"") == Err(AliasRefusal::Empty));
    assert!(rt; Alias::read(b"TOOLONG") == Err(AliasRefusal::TooLong));
    assert!(rt; Alias::read(b"A:BCDEFG") == Err(AliasRefusal::BadChar { at: 1 }));
}

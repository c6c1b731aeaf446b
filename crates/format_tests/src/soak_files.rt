//! What the file of a number has, as worked by hand. Called by `rt test`.
use network_soak::soak_file;
use std::test::Fail;

#[test]
fn the_file_of_1(rt: HostRuntime) -> Result<(), Fail> {
    let file = soak_file(rt.alloc(), 1)?;
    let mut lines = file.split(|b| *b == b'\n');
    // The first two draws, below 6 and below 4, are 2 and 1: a flow. 61 lines stand before those that are drawn.
    let drawn = lines.nth(61);
    assert!(rt; drawn.is_some_and(|line| line.starts_with(b"flow ")));
    // Of 369 lines 307 are left, and behind the last one there is nothing.
    assert_eq!(rt; lines.count(), 308);
    assert!(rt; file.starts_with(b"node 1 N0AAA NODEA\nnode 2 N0BBB NODEB\n"));
    assert!(rt;
        file.ends_with(
            b"flow 100000\nclose 1 1\nclose 2 1\nclose 3 1\nclose 4 1\nclose 5 1\nclose 6 1\nflow 100000\n"
        )
    );
    Ok(())
}

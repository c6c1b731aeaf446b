//! A log in memory fails at the record that it is told, and takes nothing more until it is opened again.
use mail_records::{Failure, Log, LogFailed, MemoryLog, Record};
use std::alloc::Global;
use std::process::Abort;

fn expect_failure(rt: &impl Abort, alloc: Global, is_found: bool, found: usize) {
    let mut log = MemoryLog::new(alloc, Some(Failure { after: 1, is_found }));
    assert!(rt; log.append(&Record::Read { letter: 1 }) == Ok(()));
    assert!(rt; log.append(&Record::Read { letter: 2 }) == Err(LogFailed::Disk));
    assert!(rt; log.append(&Record::Read { letter: 3 }) == Err(LogFailed::Disk));
    let mut again = log.opened_again(None);
    assert!(rt; again.append(&Record::Read { letter: 4 }) == Ok(()));
    assert!(rt; again.as_slice().len() == found);
}

#[test]
fn the_record_at_which_it_fails_is_found_or_not(rt: HostRuntime) {
    expect_failure(&rt, rt.alloc(), false, 2);
    expect_failure(&rt, rt.alloc(), true, 3);
}

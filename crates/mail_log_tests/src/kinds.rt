//! Each kind of record is read back as it was written, from memory and from SQLite's tables.
ghost use Rattle.std.specs.Prelude.{◌≤◌, length};
ghost use Rattle.mail_records.specs.Records.{IsNumbered};

use ax_address::Call;
use mail_records::{LetterText, Log, MemoryLog, Record};
use sqlite_log::in_memory;
use std::alloc::Global;
use std::process::Abort;

pub fn call(rt: &impl Abort, text: &[u8]) -> Call {
    Call::read(text).ok().expect(rt, "a call")
}

pub fn text(rt: &impl Abort, alloc: Global, octets: &[u8]) -> LetterText
    requires { length octets.now ≤ 1024 }
{
    LetterText::from_slice(alloc, octets)
        .ok()
        .expect(rt, "memory")
}

fn add(rt: &impl Abort, log: &mut impl Log, entry: &Record)
    requires { IsNumbered entry.now }
{
    assert!(rt; log.append(entry).is_ok());
}

fn add_texts(rt: &impl Abort, alloc: Global, log: &mut impl Log) {
    let user = call(rt, b"K1ABC");
    let dest = call(rt, b"N0BBB-8");
    let letter = text(rt, alloc, b"From: K1ABC\r\rhello\r");
    add(
        rt,
        log,
        &Record::Posted {
            number: 1,
            user,
            dest,
            text: letter,
        },
    );
    let letter = text(rt, alloc, b"\xFF\x00");
    add(
        rt,
        log,
        &Record::Stored {
            origin: dest,
            number: 7,
            user,
            text: letter,
        },
    );
    let letter = text(rt, alloc, b"");
    add(
        rt,
        log,
        &Record::Local {
            user: call(rt, b"ALL"),
            text: letter,
        },
    );
}

fn add_numbers(rt: &impl Abort, log: &mut impl Log) {
    add(rt, log, &Record::Settled { number: 1 });
    add(rt, log, &Record::Read { letter: 2 });
    add(
        rt,
        log,
        &Record::Killed {
            letter: 4_611_686_018_427_387_904,
        },
    );
}

fn expect_texts(rt: &impl Abort, posted: &Record, stored: &Record, local: &Record) {
    let is_posted = matches!(posted, Record::Posted { number: 1, user, dest, text }
        if *user == call(rt, b"K1ABC") && *dest == call(rt, b"N0BBB-8") && text.as_slice() == b"From: K1ABC\r\rhello\r".as_slice());
    assert!(rt; is_posted);
    let is_stored = matches!(stored, Record::Stored { origin, number: 7, user, text }
        if *origin == call(rt, b"N0BBB-8") && *user == call(rt, b"K1ABC") && text.as_slice() == b"\xFF\x00".as_slice());
    assert!(rt; is_stored);
    let is_local =
        matches!(local, Record::Local { user, text } if *user == call(rt, b"ALL") && text.as_slice().is_empty());
    assert!(rt; is_local);
}

fn expect_numbers(rt: &impl Abort, settled: &Record, read: &Record, killed: &Record) {
    assert!(rt; matches!(settled, Record::Settled { number: 1 }));
    assert!(rt; matches!(read, Record::Read { letter: 2 }));
    assert!(rt;
        matches!(
            killed,
            Record::Killed {
                letter: 4_611_686_018_427_387_904
            }
        )
    );
}

fn expect_records(rt: &impl Abort, records: &[Record]) {
    assert!(rt; records.len() == 6);
    if let [posted, stored, local, settled, read, killed] = records {
        expect_texts(rt, posted, stored, local);
        expect_numbers(rt, settled, read, killed);
    }
}

fn expect_all(rt: &impl Abort, alloc: Global, log: &mut impl Log) {
    add_texts(rt, alloc, log);
    add_numbers(rt, log);
    let records = log.records(alloc).ok().expect(rt, "records");
    expect_records(rt, &records);
}

#[test]
fn each_kind_is_read_back_from_tables(rt: HostRuntime) {
    let mut log = in_memory(rt.alloc()).ok().expect(&rt, "a log");
    expect_all(&rt, rt.alloc(), &mut log);
}

#[test]
fn each_kind_is_read_back_from_memory(rt: HostRuntime) {
    let mut log = MemoryLog::new(rt.alloc(), None);
    expect_all(&rt, rt.alloc(), &mut log);
}

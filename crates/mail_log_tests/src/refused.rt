//! What is no log is refused by name, and a row that was taken out is found.
ghost use Rattle.std.specs.Prelude.{◌≡◌, false, None};

use mail_records::{Log, LogFailed, Record};
use sqlite::{Connection, MemStore};
use sqlite_log::{OpenFailed, over};
use std::alloc::Global;
use std::process::Abort;

const TABLE: &str =
    "CREATE TABLE record (seq INTEGER PRIMARY KEY, kind TEXT NOT NULL, origin TEXT, number INTEGER, user TEXT, dest TEXT, text BLOB) STRICT";

fn database(rt: &impl Abort, alloc: Global, sql: &str) -> Connection<MemStore>
    ensures mode { result.in_transaction ≡ false }
    ensures unlimited { result.step_limit ≡ None }
{
    let mut conn = Connection::open_in_memory(alloc).ok().expect(rt, "memory");
    assert!(rt; conn.execute_batch(sql).is_ok());
    assert!(rt; conn.is_autocommit());
    conn.set_step_limit(None);
    conn
}

fn refusal(rt: &impl Abort, alloc: Global, sql: &str) -> Option<OpenFailed> {
    let conn = database(rt, alloc, sql);
    match over(alloc, conn) {
        Ok(_) => None,
        Err((why, _)) => Some(why),
    }
}

fn refusal_with(rt: &impl Abort, alloc: Global, rows: &str) -> Option<OpenFailed> {
    let sql = format!(in alloc; "{TABLE}; {rows}")
        .ok()
        .expect(rt, "memory");
    refusal(rt, alloc, sql.as_str())
}

#[test]
fn another_database_is_foreign(rt: HostRuntime) {
    let alloc = rt.alloc();
    let other = refusal(
        &rt,
        alloc,
        "CREATE TABLE note (id INTEGER PRIMARY KEY) STRICT",
    );
    assert!(&rt; other == Some(OpenFailed::Foreign));
    let more = refusal_with(
        &rt,
        alloc,
        "CREATE TABLE note (id INTEGER PRIMARY KEY) STRICT",
    );
    assert!(&rt; more == Some(OpenFailed::Foreign));
}

#[test]
fn a_row_that_is_gone_or_no_record_is_named(rt: HostRuntime) {
    let alloc = rt.alloc();
    let gone = refusal_with(
        &rt,
        alloc,
        "INSERT INTO record (kind, number) VALUES ('read', 1), ('read', 2), ('read', 3); DELETE FROM record WHERE seq = 2",
    );
    assert!(&rt; gone == Some(OpenFailed::Log(LogFailed::Spoilt { place: 2 })));
    let odd = refusal_with(
        &rt,
        alloc,
        "INSERT INTO record (kind, number) VALUES ('red', 1)",
    );
    assert!(&rt; odd == Some(OpenFailed::Log(LogFailed::Spoilt { place: 1 })));
}

#[test]
fn what_a_person_writes_by_hand_is_read(rt: HostRuntime) {
    let alloc = rt.alloc();
    let sql = "INSERT INTO record (kind, number) VALUES ('read', 1), ('killed', 2)";
    let whole = format!(in alloc; "{TABLE}; {sql}")
        .ok()
        .expect(&rt, "memory");
    let conn = database(&rt, alloc, whole.as_str());
    let mut opened = over(alloc, conn).ok().expect(&rt, "a log");
    assert!(&rt; opened.records.len() == 2);
    assert!(&rt; !opened.is_new);
    assert!(&rt; opened.log.append(&Record::Settled { number: 3 }).is_ok());
}

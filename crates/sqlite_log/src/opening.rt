//! A log is opened: its records are read, and each row's number is tested. Called by whoever keeps mail in a file.
ghost use Rattle.std.specs.Prelude.{◌≡◌, false, None, IfOk, IfErr, IsTrue, [], List, ◌↔◌};
ghost use Rattle.mail_records.specs.declared.record.Record.{Record as Kept};
ghost use Rattle.sqlite.specs.State.{HasCleanDisk};
ghost use Rattle.sqlite.specs.Held.{state};
ghost use Rattle.sqlite.specs.Steps.{over_memory};
ghost use Rattle.sqlite.specs.Files.{file_state, HoldsDatabase};
ghost use Rattle.sqlite.specs.WalFiles.{image_at};
ghost use Rattle.sqlite_log.specs.Table.{no_schema};
ghost use Rattle.sqlite_log.specs.Held.{Holds, StandsFor};
ghost use Rattle.sqlite_log.specs.Opening.{HasOpened, IsRead, HasOpenCause, unopened_for};

use crate::log::SqliteLog;
use crate::log_schema::{is_blank, is_log_schema};
use crate::open_failed::OpenFailed;
use crate::reading::records_in;
use crate::statements::{create, select};
use mail_records::{LogFailed, Record};
use sqlite::{Alter, Connection, Error, ErrorCode, FileFrom, FileStore, MemStore, Start};
use std::alloc::Global;

/// A log that was opened, and what it has.
#[derive(Drop)]
pub struct Opened<S: Alter + Drop> {
    pub log: SqliteLog<S>,
    pub records: Vec<Record>,
    /// There was nothing, and the table was made.
    pub is_new: bool,
}

/// The log of a database, and its records. Where nothing stands in the database, the table is made. A database that has
/// anything else than a log is refused, and so is one in which a row isn't read as a record or hasn't the number of its
/// place.
pub fn over<S: Alter + Drop>(
    alloc: Global,
    mut conn: Connection<S>,
) -> Result<Opened<S>, (OpenFailed, Connection<S>)>
    requires mode { conn.in_transaction ≡ false }
    requires unlimited { conn.step_limit ≡ None }
    ensures blank { IfOk result (λ opened. IsTrue opened.is_new ↔ ((state S.Store conn).now.schema ≡ no_schema)) }
    ensures fresh { IfOk result (λ opened. HasCleanDisk (state S.Store opened.log.conn) → IsTrue opened.is_new →
        HasOpened (state S.Store opened.log.conn) [] opened.records.items) }
    ensures found { IfOk result (λ opened. HasCleanDisk (state S.Store opened.log.conn) → (kept : List Kept) →
        Holds (state S.Store conn) kept → HasOpened (state S.Store opened.log.conn) kept opened.records.items) }

    // Of any other database that is opened, all rows were read as records with their numbers.
    ensures read { IfOk result (λ opened. HasCleanDisk (state S.Store opened.log.conn) → opened.is_new ≡ false →
        IsRead (state S.Store conn) (state S.Store opened.log.conn) opened.records.items) }
    ensures refused { IfErr result (λ e. HasCleanDisk (state S.Store e.1) → (kept : List Kept) →
        Holds (state S.Store conn) kept → HasOpenCause (state S.Store conn) (state S.Store e.1) kept e.0) }
    ensures unmade { IfErr result (λ e. HasCleanDisk (state S.Store e.1) → IsTrue (state S.Store conn).is_open →
        (state S.Store conn).now.schema ≡ no_schema → HasOpenCause (state S.Store conn) (state S.Store e.1) [] e.0) }
    ensures honest { IfOk result (λ opened.
        HasCleanDisk (state S.Store opened.log.conn) → HasCleanDisk (state S.Store conn)) }
{
    if is_blank(conn.schema()) {
        return over_nothing(alloc, conn);
    }
    if !is_log_schema(conn.schema()) {
        return Err((OpenFailed::Foreign, conn));
    }
    let rows = match select(&mut conn) {
        Ok(rows) => rows,
        Err(why) => return Err((OpenFailed::Log(why), conn)),
    };
    match records_in(alloc, &rows) {
        Ok(records) => Ok(Opened {
            log: SqliteLog { conn },
            records,
            is_new: false,
        }),
        Err(why) => Err((OpenFailed::Log(why), conn)),
    }
}

/// A new log in a database with nothing in it.
fn over_nothing<S: Alter + Drop>(
    alloc: Global,
    mut conn: Connection<S>,
) -> Result<Opened<S>, (OpenFailed, Connection<S>)>
    requires schema { (state S.Store conn).now.schema ≡ no_schema }
    requires mode { conn.in_transaction ≡ false }
    requires unlimited { conn.step_limit ≡ None }
    ensures blank { IfOk result (λ opened. IsTrue opened.is_new) }
    ensures fresh { IfOk result (λ opened. HasCleanDisk (state S.Store opened.log.conn) →
        HasOpened (state S.Store opened.log.conn) [] opened.records.items) }
    ensures honest { IfOk result (λ opened.
        HasCleanDisk (state S.Store opened.log.conn) → HasCleanDisk (state S.Store conn)) }
    ensures refused { IfErr result (λ e. HasCleanDisk (state S.Store e.1) → IsTrue (state S.Store conn).is_open →
        HasOpenCause (state S.Store conn) (state S.Store e.1) [] e.0) }
{
    match create(&mut conn) {
        Ok(()) => Ok(Opened {
            log: SqliteLog { conn },
            records: Vec::new(alloc),
            is_new: true,
        }),
        Err(why) => Err((OpenFailed::Log(why), conn)),
    }
}

/// An empty log in memory.
pub fn in_memory(alloc: Global) -> Result<SqliteLog<MemStore>, LogFailed>
    ensures { IfOk result (λ log. Holds (state over_memory log.conn) []) }
{
    let mut conn = Connection::open_in_memory(alloc)?;
    create(&mut conn)?;
    Ok(SqliteLog { conn })
}

/// The log in a file, which is made where there is none, and its records. Pass `Wary`: then nothing is supposed of a write
/// that a power cut has torn.
pub fn on_disk<S: Start>(
    rt: &HostRuntime,
    path: &str,
    start: S,
) -> Result<Opened<FileStore<FileFrom<S>>>, OpenFailed>
    requires { S.Start.is_mixing ≡ false }
    ensures found { IfOk result (λ opened. HasCleanDisk (file_state opened.log.conn) → (db : _) (kept : List Kept) →
        HoldsDatabase (image_at S.Start) db → StandsFor db kept →
        HasOpened (file_state opened.log.conn) kept opened.records.items) }
    ensures fresh { IfOk result (λ opened. HasCleanDisk (file_state opened.log.conn) → IsTrue opened.is_new →
        HasOpened (file_state opened.log.conn) [] opened.records.items) }
{
    let conn = match Connection::open_from(rt, path, false, start) {
        Ok(conn) => conn,
        Err((error, _)) => return Err(unopened(&error)),
    };
    match over(rt.alloc(), conn) {
        Ok(opened) => Ok(opened),
        Err((why, _)) => Err(why),
    }
}

/// Why a file wasn't opened.
fn unopened(error: &Error) -> OpenFailed
    ensures { result ≡ unopened_for error.now }
{
    match error {
        Error::SqliteFailure(ErrorCode::OutOfMemory) => OpenFailed::Log(LogFailed::Memory),
        Error::SqliteFailure(ErrorCode::CannotOpen) => OpenFailed::CannotOpen,
        Error::SqliteFailure(ErrorCode::DatabaseBusy) => OpenFailed::Busy,
        Error::SqliteFailure(ErrorCode::NotADatabase | ErrorCode::DatabaseCorrupt) => {
            OpenFailed::NoDatabase
        }
        _ => OpenFailed::Log(LogFailed::Disk),
    }
}

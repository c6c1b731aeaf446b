//! The three statements on the table. Called by `writing`, `log` and `opening`.
ghost use Rattle.std.specs.Prelude.{◌≡◌, false, None, [], OnOk, IfOk, IfErr, IsTrue};
ghost use Rattle.mail_records.specs.Logs.{HasCause};
ghost use Rattle.sqlite.specs.State.{HasCleanDisk, Survives, CommitsBy, CommitsShowing, Shown};
ghost use Rattle.sqlite.specs.Held.{state};
ghost use Rattle.sqlite.specs.Values.{bound};
ghost use Rattle.sqlite_log.specs.Table.{insert_text, select_text, no_schema};
ghost use Rattle.sqlite_log.specs.Held.{Holds, Inserted, FailsToSelect, reason_of};

use mail_records::LogFailed;
use sqlite::{Alter, Connection, Error, ErrorCode, Row};
use sqlite_value::value::ValueRef;

/// What is answered of an error of the database.
fn reason(error: &Error) -> LogFailed
    ensures { result ≡ reason_of error.now }
{
    match error {
        Error::SqliteFailure(ErrorCode::OutOfMemory) => LogFailed::Memory,
        Error::SqliteFailure(ErrorCode::NoRowid) => LogFailed::Full,
        _ => LogFailed::Disk,
    }
}

/// Makes the table in an empty database.
pub(crate) fn create<S: Alter>(conn: &mut Connection<S>) -> Result<(), LogFailed>
    requires schema { (state S.Store conn.old).now.schema ≡ no_schema }
    requires mode { conn.old.in_transaction ≡ false }
    requires unlimited { conn.old.step_limit ≡ None }
    ensures made { HasCleanDisk (state S.Store conn.new) → OnOk result (Holds (state S.Store conn.new) []) }
    ensures cause { HasCleanDisk (state S.Store conn.new) → IsTrue (state S.Store conn.old).is_open →
        IfErr result (HasCause (state S.Store conn.old).faults (state S.Store conn.new).faults []) }
    ensures honest { HasCleanDisk (state S.Store conn.new) → HasCleanDisk (state S.Store conn.old) }
{
    let done = conn.execute(
        "CREATE TABLE record (seq INTEGER PRIMARY KEY, kind TEXT NOT NULL, origin TEXT, number INTEGER, user TEXT, dest TEXT, text BLOB) STRICT",
        &[],
    );
    match done {
        Ok(_) => Ok(()),
        Err(error) => Err(reason(&error)),
    }
}

/// Puts a row behind all others. Its number is one above the last one's.
pub(crate) fn insert<S: Alter>(
    conn: &mut Connection<S>,
    values: &[ValueRef<'_>],
) -> Result<(), LogFailed>
    ensures ran { HasCleanDisk (state S.Store conn.new) →
        Inserted (bound values.now) (state S.Store conn.old) (state S.Store conn.new) result }
    ensures survives { Survives (state S.Store conn.old) (state S.Store conn.new)
        (CommitsBy insert_text (bound values.now) (state S.Store conn.old)) }
{
    let done = conn.execute(
        "INSERT INTO record (kind, origin, number, user, dest, text) VALUES (?1, ?2, ?3, ?4, ?5, ?6)",
        values,
    );
    match done {
        Ok(_) => Ok(()),
        Err(error) => Err(reason(&error)),
    }
}

/// All rows, by their numbers.
pub(crate) fn select<S: Alter>(conn: &mut Connection<S>) -> Result<Vec<Row>, LogFailed>
    ensures shown { HasCleanDisk (state S.Store conn.new) →
        IfOk result (λ rows. Shown select_text [] (state S.Store conn.old) (state S.Store conn.new) rows.items) }
    ensures err { HasCleanDisk (state S.Store conn.new) →
        IfErr result (FailsToSelect (state S.Store conn.old) (state S.Store conn.new)) }
    ensures mode { conn.old.in_transaction ≡ false → conn.new.in_transaction ≡ false }
    ensures survives { Survives (state S.Store conn.old) (state S.Store conn.new)
        (CommitsShowing select_text [] (state S.Store conn.old)) }
{
    let done = conn.query_all(
        "SELECT seq, kind, origin, number, user, dest, text FROM record ORDER BY seq",
        &[],
    );
    match done {
        Ok(rows) => Ok(rows),
        Err(error) => Err(reason(&error)),
    }
}

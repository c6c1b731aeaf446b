//! From one run to the next. No code calls these: they are for who reads what a log promises.
ghost use Rattle.std.specs.Prelude.{◌≡◌, None, List};
ghost use Rattle.mail_records.specs.declared.record.Record.{Record as Kept};
ghost use Rattle.sqlite.specs.Recovery.{Image};
ghost use Rattle.sqlite_trees.specs.View.{IsClean};
ghost use Rattle.sqlite.specs.Files.{file_state, IsOpened};
ghost use Rattle.sqlite.specs.Start.{FindsIn};
ghost use Rattle.sqlite.specs.FileStore.{state as store_state, view};
ghost use Rattle.sqlite_log.specs.Held.{Holds};

use crate::SqliteLog;
use sqlite::{Connection, FileStore};
use sqlite_disk::Disk;

/// Whatever a crash leaves of the two files of a log, a connection that is opened over them holds its records.
pub fn next_open<D: Disk + Drop, E: Disk + Drop>(
    before: SqliteLog<FileStore<D>>,
    after: &Connection<FileStore<E>>,
) -> FileStore<D>
    ensures { IsClean (view result) → (kept : List Kept) (left : Image) → Holds (file_state before.conn) kept →
        (store_state before.conn.store).may_leave left → IsOpened after.now → after.now.step_limit ≡ None →
        FindsIn left (file_state after.now) → Holds (file_state after.now) kept }
{
    before.conn.into_store()
}

//! A log over a connection. Called by whoever keeps mail in a file.
ghost use Rattle.std.specs.Prelude.{◌≡◌};

use crate::reading::records_in;
use crate::statements::select;
use crate::writing::write;
use mail_records::{Log, LogFailed, Record};
use sqlite::{Alter, Connection};
use std::alloc::Global;

/// A log in a database that has its table and nothing else.
#[derive(Drop)]
pub struct SqliteLog<S: Alter + Drop> {
    pub(crate) conn: Connection<S>,
}

impl<S: Alter + Drop> Log for SqliteLog<S> {
    ghost use Rattle.sqlite.specs.State.{HasCleanDisk};
    ghost use Rattle.sqlite.specs.Held.{state};
    ghost use Rattle.std.specs.Prelude.{IsTrue};
    ghost use Rattle.sqlite_log.specs.Held.{Holds, MayFind};
    ghost use Rattle.sqlite_log.specs.Laws.{settled_records};

    ghost holds = { λ log. Holds (state S.Store log.conn) };

    ghost may_find = { λ log. MayFind (state S.Store log.conn) };

    ghost is_honest = { λ log. HasCleanDisk (state S.Store log.conn) };

    ghost is_open = { λ log. IsTrue (state S.Store log.conn).is_open };

    ghost faults = { λ log. (state S.Store log.conn).faults };

    fn append(&mut self, entry: &Record) -> Result<(), LogFailed> {
        write(&mut self.conn, entry)
    }

    fn records(&mut self, alloc: Global) -> Result<Vec<Record>, LogFailed> {
        let rows = select(&mut self.conn)?;
        records_in(alloc, &rows)
    }

    ghost settled = { λ log kept found held may. settled_records _ kept found
        (λ db left. S.Store.settled log.conn.store db held.is_open left) held may };
}

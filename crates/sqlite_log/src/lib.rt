//! A log of records in an SQLite file, which a person can read with `sqlite3`.
#![tactic(auto)]

pub mod laws;
mod log;
mod log_schema;
mod open_failed;
mod opening;
mod reading;
mod statements;
mod writing;

pub use log::SqliteLog;
pub use open_failed::OpenFailed;
pub use opening::{Opened, in_memory, on_disk, over};
pub use sqlite::{Connection, Start, Wary};

//! The commands of `wursthatch-station`, over any files, streams and clock: the words that ask for them (`command_of`), the files that they
//! name (`read_bytes`, `read_file`), and `check`. `run` and `try` are those of `station_run`.
#![tactic(auto)]

mod checking;
mod command;
mod files;

pub use checking::check;
pub use command::{StationCommand, command_of};
pub use files::{read_bytes, read_file};

//! What a post writes down, one record for each change, and what a log of records is.
#![tactic(auto)]

mod appending;
mod letter_text;
mod log;
mod log_failed;
mod memory_log;
mod record;

pub use appending::append_all;
pub use letter_text::{LetterText, MAX_TEXT};
pub use log::Log;
pub use log_failed::LogFailed;
pub use memory_log::{Failure, MemoryLog};
pub use record::Record;

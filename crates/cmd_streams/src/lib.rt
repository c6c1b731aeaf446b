//! What a command does with its streams: a file is read whole, a stream is answered read by read, and the status says how it ended.
//!
//! A command that reads a file calls `read_file`, and `refuse_input` or `refuse_line` where it is refused. One that answers a stream calls
//! `answer_stream` with a `Taker`, or `answer_items` with an `ItemTaker` where it looks at KISS items; `put_data` makes KISS bytes of a
//! frame. `start` is how a program begins and ends; the adapters `Reading`, `Writing` and `SystemClock` lie over its streams and its clock.
#![tactic(auto)]

mod items;
mod kiss;
mod notes;
mod program;
mod reading;
mod refusals;
mod status;
mod streams;
mod system_clock;
mod taker;
mod writing;

pub use items::{ItemTaker, answer_items};
pub use kiss::put_data;
pub use notes::{TOO_LONG, say};
pub use program::{Given, start};
pub use reading::{Reading, read_file};
pub use refusals::{ReadRefusal, refuse_input, refuse_line};
pub use status::Status;
pub use streams::answer_stream;
pub use system_clock::SystemClock;
pub use taker::Taker;
pub use writing::{Writing, write_all};

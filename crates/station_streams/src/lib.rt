//! What a station's command does with its streams: a stream is read to its end, or until no more is wanted; each read is answered to the
//! sink and told of to the notes before the next read, and the status says how it ended.
//!
//! Who reads a stream so is a `Teller`, and calls `answer_and_tell`.
#![tactic(auto)]

mod reads;
mod teller;

pub use reads::answer_and_tell;
pub use teller::Teller;

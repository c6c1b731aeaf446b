//! The report of a replay, line by line, and the line on what came of a soak. `docs/report.md` has them in words.
#![tactic(auto)]

mod entries;
mod reports;
mod soak;
mod told;

pub use reports::report;
pub use soak::soak_line;
pub use told::words::{drop_word, link_word, notice_word, phase_word};

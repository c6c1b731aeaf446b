//! Networks made from a number, to be left running: the file of a number, and the line on what came of it (this project's
//! profile).
#![tactic(auto)]

mod draws;
mod file;
pub mod laws;
mod lines;

pub use file::soak_file;

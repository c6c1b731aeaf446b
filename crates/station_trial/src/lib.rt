//! Stations that hear each other, in virtual time, with what is typed at their consoles and what is shown: a pure machine. Own profile.
//!
//! Who runs it reads lines, hands each on (`Trial::take_line`), and writes what is shown then (`Trial::take_text`).
#![tactic(auto)]

mod air;
mod directing;
mod given;
mod outlet;
mod places;
mod trial;
mod tried;

pub use trial::{Came, Trial};

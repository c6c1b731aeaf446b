//! The users of a station: who comes over links, circuits and consoles, what each is told and asks for, and the far side to which what he
//! types goes. They act at the station's members alone.
#![tactic(auto)]

mod asking;
mod connecting;
mod consoles;
mod ending;
mod greeting;
mod hall;
mod hall_members;
mod hearing;
pub mod laws;
mod linking;
mod outcomes;
mod serving;
mod sights;
mod telling;
mod texts;
mod things;
mod trying;
mod turn;
mod unclaimed;
mod users;

pub use users::Users;

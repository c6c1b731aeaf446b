//! Lives of links: two ends that are set up, reset and released over a channel that keeps order, loses at will and delays by at most a
//! stated time (this project's profile).
#![tactic(auto)]

mod act;
mod book;
mod calls;
mod end;
mod epoch;
mod epoch_lines;
mod flight;
pub mod laws;
mod life;
mod life_refusals;
mod line;
mod script;
mod sent_text;
mod settle;
mod told;
mod turn;

pub use act::{EndAct, LifeAct, NumberedAct, Side};
pub use life::run_life;
pub use life_refusals::{LifeFileRefusal, LifeRefusal, LifeWhat};
pub use script::{LifeScript, read_life};
pub use sent_text::SentText;

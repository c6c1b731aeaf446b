//! A link of two stations (AX.25 2.2, section 6): one end of it, and what holds of two ends together.
#![tactic(auto)]

mod arrivals;
mod calls;
mod config;
mod early;
mod expiry;
mod facts;
mod frame_in;
mod i_frame;
mod kind;
pub mod laws;
mod link;
mod machine;
mod moves;
mod notice;
mod out;
mod phase;
mod refusal;
mod supervisory;
mod texts;

pub use config::LinkConfig;
pub use facts::LinkFacts;
pub use kind::Kind;
pub use link::Link;
pub use notice::LinkNotice;
pub use out::LinkOut;
pub use phase::LinkPhase;
pub use refusal::SendRefusal;

//! A NET/ROM node over AX.25 links: a pure machine, which reads no clock, no file and no socket.
//!
//! KISS bytes, ticks and acts of its user come in; frames and entries of what happened go out.
#![tactic(auto)]

mod acting;
mod acts;
mod broadcasts;
mod config;
mod entry;
mod feeding;
mod hosting;
pub mod laws;
mod node;
mod path_qualities;
mod quality_refusal;
mod receiving;
mod rounds;
mod sessions;
mod settling;
mod station;
mod taken_message;

pub use acts::{ActDone, ActRefusal, UserAct, wants_memory};
pub use broadcasts::broadcast_frame;
pub use config::NodeConfig;
pub use entry::NodeEntry;
pub use node::Node;
pub use quality_refusal::QualityRefusal;
pub use taken_message::TakenMessage;

/// The most neighbours to which the path has a quality of its own (this project's profile).
pub const MAX_QUALITIES: usize = 16;

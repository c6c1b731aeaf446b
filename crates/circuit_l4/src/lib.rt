//! Circuits of NET/ROM (Appendix B, level 4): what the ends of a circuit send each other inside datagrams, and one end.
#![tactic(auto)]

mod arrivals;
mod beginning;
mod calls;
mod config;
mod end;
mod expiry;
mod facts;
mod incoming;
mod info;
pub mod laws;
mod machine;
mod messages;
mod moves;
mod notice;
mod outgoing;
mod output;
mod owed;
mod pair;
mod phase;
mod piece;
mod read;
mod refusal;
mod role;
mod texts;
mod transport;
mod write;

pub use config::EndConfig;
pub use end::End;
pub use facts::EndFacts;
pub use incoming::BUSY_AT;
pub use notice::EndNotice;
pub use outgoing::QUEUE_MAX;
pub use pair::Pair;
pub use phase::EndPhase;
pub use read::read_transport;
pub use refusal::WriteRefusal;
pub use transport::{Flags, MAX_TEXT, MAX_TRANSPORT, Transport, TransportRefusal};
pub use write::write_transport;

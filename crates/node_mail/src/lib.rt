//! Mail that a node keeps for users at other nodes and hands over by circuits. Circuits may fail and mail be offered
//! again: it is stored once. Own profile.
//!
//! A `Store` is the mail of one node. It knows no circuits: whoever drives it writes what `Store::wire` gives to the
//! node's circuits, and hands what comes by them to `Store::hear`.
#![tactic(auto)]

mod asking;
mod heard;
mod hearing;
pub mod laws;
mod mail;
mod mailbox;
mod post_refusal;
mod queue;
mod queued_mails;
mod read;
mod store;
mod wire_head;
mod write;

pub use heard::Heard;
pub use mail::{MAX_EVER_STORED, MAX_MAIL, MAX_QUEUED, MAX_STORED, Mail, MailName};
pub use post_refusal::PostRefusal;
pub use store::Store;
pub use write::write_receipt;

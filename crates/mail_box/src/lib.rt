//! The letters and mails of a post, over a log: each change is written down before anything that rests on it goes out. Own
//! profile.
#![tactic(auto)]

mod box_refusal;
mod changing;
pub mod laws;
mod letter;
mod mails;
mod post_mail;

pub use box_refusal::BoxRefusal;
pub use letter::Letter;
pub use mails::{MAX_LETTERS, Mails};
pub use post_mail::MailBox;

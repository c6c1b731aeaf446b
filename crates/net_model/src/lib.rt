//! What a network of nodes is while it runs, and what each line of a network file does: definitions, and the records of it that a replay
//! keeps: the frames in the air, the events, the ends that were made, the mail.
//!
//! `net_world` runs a network by these; the laws of `net_laws` speak of them alone.
#![tactic(auto)]

mod air;
mod allowance;
mod answer;
mod end_datagrams;
mod ends;
mod events;
mod limits;
mod mails;
mod members;
mod outcome;
mod places;
mod posting;
mod refusals;
mod refused;
mod stations;
mod table;
mod trace;

pub use air::{Air, Aired, place_of_frame};
pub use allowance::allowance_of;
pub use answer::{Answer, answer_of};
pub use end_datagrams::{EndDatagram, LostEnd, SentDatagram};
pub use ends::{EndRecord, Ends};
pub use events::{Event, NumberedEvent, datagram_event, entry_event};
pub use mails::{
    Offer, StoredMail, hear_at, keeps_mail, post_at, queued_at, queued_count, wire_at,
};
pub use members::Member;
pub use outcome::Outcome;
pub use places::{LineAt, place_of};
pub use posting::Posting;
pub use refusals::{LineRefusal, ReplayRefusal};
pub use refused::of_post;
pub use stations::{declared_by_number, is_callsign, members_of, shown, started};
pub use table::Table;
pub use trace::Trace;

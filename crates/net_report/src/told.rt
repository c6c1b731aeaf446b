//! The lines of a report on links, circuits, datagrams, mail and tables, and the words in them. Called by `entries` and `reports`.
pub mod events;
pub mod lines;
pub mod mails;
pub mod tables;
pub mod words;

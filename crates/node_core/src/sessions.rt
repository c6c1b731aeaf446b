//! The users at the prompt: their sessions, and how these are served. Called by `settling` and `station`.
mod asking;
mod bridging;
mod hearing;
mod lines;
mod serving;
mod session;
mod users;
mod views;

pub(crate) use session::Session;

//! The far side of a session, and how far that has come. Used by `session`, `far_notes` and `thing`.
use crate::{Place, Unsent};
use station_lists::ShownNode;

/// What a user is connected with, or will be.
#[derive(Drop)]
pub struct Far {
    pub place: Place,
    /// How the user is told of it.
    pub name: ShownNode,
    /// What is left of the text that was given to it last.
    pub unsent: Unsent,
    /// It was closed from here.
    pub closed: bool,
    /// It has failed, or something of it was lost.
    pub failed: bool,
    /// Behind the input before, a text from it or a piece to it waited for room.
    pub waited: bool,
}

/// How far a session has come.
#[derive(Drop)]
pub enum Stage {
    AtPrompt,
    Trying(Far),
    With(Far),
}

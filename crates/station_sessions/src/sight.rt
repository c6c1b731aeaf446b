//! What a session sees of its sides. Used by `thing`.

/// What a session sees of its user's side and of its far side; what it sees of a far side that it hasn't doesn't count.
#[derive(Clone, Copy, Debug, PartialEq, Eq)]
pub struct Sight {
    /// The circuit of the user has ended, if he is at one.
    pub user_ended: bool,
    /// The user's side has room for a text.
    pub user_room: bool,
    /// It has room for a piece.
    pub user_goes_on: bool,
    /// A text that came over the user's circuit or link waits.
    pub user_text: bool,
    /// The line that is next to be done ends a try.
    pub stops: bool,
    /// The far side has room for a text.
    pub far_room: bool,
    /// It has room for a piece.
    pub far_goes_on: bool,
    /// A text that came from the far side waits.
    pub far_text: bool,
}

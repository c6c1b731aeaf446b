//! How a user's side stands. Used by `session` and `thing`.

/// How a user's side stands.
#[derive(Clone, Copy, Debug, PartialEq, Eq)]
pub enum Presence {
    Here,
    /// He was told the last that he is told, and is let go once that has gone out.
    Leaving,
    /// His side was closed from here.
    LetGo,
    /// His side has ended.
    Gone,
}

//! What came too late. Used by `book` and `verdict`, and by the replay.

/// What came back too late.
#[derive(Clone, Copy, Debug, PartialEq, Eq)]
pub enum LateWhy {
    /// A datagram: an end has heeded one that its partner hadn't sent, or that too many messages have overtaken.
    Overtaken,
    /// A pair: an end was opened without a partner, or has the pair by which an open end still knows another one.
    Returned,
}

/// The first event that came too late.
#[derive(Clone, Copy, Debug, PartialEq, Eq)]
pub struct Late {
    pub line: u32,
    pub why: LateWhy,
}

//! What a segment comes to. Used by `gathered` and `joiner`, and by `link_table`.

/// What a segment comes to.
#[derive(Debug, Drop, PartialEq, Eq)]
pub enum Joined {
    /// The message isn't whole yet.
    More,
    /// It is whole. It is handed out, and nothing of it is held any more.
    Whole { pid: u8, message: Vec<u8> },
    /// The segment has no octet, or is a first one without a PID. What was held is gone.
    Short,
    /// The first octet isn't the one that had to come: the count `expected`, or that of a first segment where it is
    /// `None`. The segment is dropped, and what was held is gone.
    Broken { expected: Option<u8>, found: u8 },
}

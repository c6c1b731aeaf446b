//! Why a link isn't opened. Used by `offer_calls` and `table`, and by `node_core`.

/// Why a link isn't opened.
#[derive(Clone, Copy, Debug, PartialEq, Eq)]
pub enum OpenRefusal {
    /// A link with the peer stands.
    Standing,
    /// More than two repeaters.
    TooLong,
    /// 64 links stand.
    Full,
    /// Memory ran out.
    NoMemory,
}

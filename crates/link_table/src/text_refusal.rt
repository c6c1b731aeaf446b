//! Why a text isn't sent. Used by `send_calls`, `sends` and `table`, and by `node_core`.
/// Why a text isn't sent. Nothing of it went out then.
#[derive(Clone, Copy, Debug, PartialEq, Eq)]
pub enum TextRefusal {
    /// No link stands that takes texts: none at all, or one that is being released or closed.
    NoLink,
    /// It has more than 8,192 bytes.
    TooLong,
    /// The link accepts fewer payloads than it has pieces.
    Full,
    /// Memory ran out.
    NoMemory,
}

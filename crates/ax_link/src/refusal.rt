//! Why a link doesn't accept a payload. Used by `calls` and `link`, and by `link_life` and `link_table`.

/// Why a payload isn't accepted.
#[derive(Clone, Copy, Debug, PartialEq, Eq)]
pub enum SendRefusal {
    /// The link is Down or Releasing, or is to be closed.
    NotUp,
    /// 128 payloads are held.
    QueueFull,
    /// 2^62 payloads were accepted, and no number is left.
    Exhausted,
}

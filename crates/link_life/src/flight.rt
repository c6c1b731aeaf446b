//! A frame under way. Used by `book`, `life`, `settle` and `turn`.
use ax_link::LinkOut;

/// A frame under way.
#[derive(Drop)]
pub struct Flight {
    /// When it was sent.
    pub sent: u64,
    /// In which epoch of its sender: 0 where it had none then.
    pub epoch: u64,
    pub out: LinkOut,
}

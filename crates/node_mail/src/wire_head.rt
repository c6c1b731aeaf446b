//! The heads of messages about mail. Own profile. Used by `read` and `store`.
use ax_address::Call;

/// Where the text of a mail begins in its message.
pub(crate) const TEXT_AT: usize = 16;

/// A message about mail, but for the text, which is all from `TEXT_AT` on.
#[derive(Clone, Copy, Debug)]
pub(crate) enum WireHead {
    /// A mail.
    Carries { number: u64, to: Call },
    /// The mail of that number is stored.
    Receipt { number: u64 },
}

//! What became of a message that was heard. Own profile. Used by `hearing` and `store`, and by the replay.
use ax_address::Call;

/// What became of a message that was heard.
#[derive(Clone, Copy, Debug, PartialEq, Eq)]
pub enum Heard {
    /// The mail of that number is stored, for that user.
    Stored { number: u64, to: Call },
    /// The mail of that number was stored before.
    Again { number: u64 },
    /// The mail of that number is stored where it was to go, and is queued here no longer.
    Settled { number: u64 },
    /// It is a receipt for a number that isn't queued for that node.
    Stray { number: u64 },
    /// That of this number isn't stored, and 4,096 are stored with their texts, or 65,536 were ever stored.
    Full { number: u64 },
    /// It is neither a mail nor a receipt.
    Bad,
}

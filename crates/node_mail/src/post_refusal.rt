//! Why a mail isn't posted. Own profile. Used by `queue` and `store`, and by the replay.
use radio_base::NoMemory;

/// Why a mail isn't posted. Where several reasons stand together, the first of them is told.
#[derive(Clone, Copy, Debug, PartialEq, Eq)]
pub enum PostRefusal {
    /// It is for a user at this node.
    Own,
    /// It has no text.
    Empty,
    /// Its text has more than 1,024 octets.
    TooLong,
    /// 1,000 mails are queued.
    Full,
    /// The numbers are used up: the last one was 2^62.
    Exhausted,
    /// There was no memory for it.
    NoMemory,
}

impl From<NoMemory> for PostRefusal {
    ghost use Rattle.std.specs.Prelude.{◌≡◌};
    ghost use Rattle.node_mail.specs.declared.post_refusal.PostRefusal.TheVariants as refusal;

    ghost from_gives = { λ _ e. e ≡ refusal.NoMemory };

    fn from(_: NoMemory) -> PostRefusal {
        PostRefusal::NoMemory
    }
}

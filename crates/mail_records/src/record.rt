//! A change at a post, as it is written down. Called by `log`, by the logs, and by whoever keeps letters.
ghost use Rattle.std.specs.Prelude.{◌≡◌, IfOk};

use crate::letter_text::LetterText;
use ax_address::Call;
use std::alloc::{AllocError, Global};

/// A change at a post. Mails have the number under which the post of their origin has posted them, letters that of this post.
#[derive(Debug, Drop)]
pub enum Record {
    /// A mail was posted here for a user at another post.
    Posted {
        number: u64,
        user: Call,
        dest: Call,
        text: LetterText,
    },
    /// The mail that was posted here under this number is stored where it was to go.
    Settled {
        number: u64,
    },
    /// A mail from another post was stored for a user here.
    Stored {
        origin: Call,
        number: u64,
        user: Call,
        text: LetterText,
    },
    /// A letter was posted here for a user here.
    Local {
        user: Call,
        text: LetterText,
    },
    /// A letter was read.
    Read {
        letter: u64,
    },
    /// A letter was killed.
    Killed {
        letter: u64,
    },
}

impl Record {
    /// The same record once more.
    pub fn copy(&self, alloc: Global) -> Result<Record, AllocError>
        ensures { IfOk result (λ copy. copy ≡ self.now) }
    {
        match self {
            Record::Posted {
                number,
                user,
                dest,
                text,
            } => {
                let text = text.copy(alloc)?;
                Ok(Record::Posted {
                    number: *number,
                    user: *user,
                    dest: *dest,
                    text,
                })
            }
            Record::Settled { number } => Ok(Record::Settled { number: *number }),
            Record::Stored {
                origin,
                number,
                user,
                text,
            } => {
                let text = text.copy(alloc)?;
                Ok(Record::Stored {
                    origin: *origin,
                    number: *number,
                    user: *user,
                    text,
                })
            }
            Record::Local { user, text } => {
                let text = text.copy(alloc)?;
                Ok(Record::Local { user: *user, text })
            }
            Record::Read { letter } => Ok(Record::Read { letter: *letter }),
            Record::Killed { letter } => Ok(Record::Killed { letter: *letter }),
        }
    }
}

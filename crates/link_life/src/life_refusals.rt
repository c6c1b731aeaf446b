//! What is wrong with a script, and why a line of it isn't done. Called by most files here, and by `tool_cmd`.
use std::alloc::{AllocError, AllocFailed};
use std::fmt;
use thiserror::Error;

/// What is wrong with a line of a script, tried in this order.
#[derive(Clone, Copy, Debug, PartialEq, Eq)]
pub enum LifeWhat {
    /// The line is the 20,001st.
    Many,
    /// A byte outside 0x20 to 0x7E.
    Char,
    /// The first word is no kind of line.
    Word,
    /// The line has too many words for its kind, or too few.
    Count,
    /// The milliseconds are no decimal number from 1 to 86,400,000.
    Number,
    /// The side is neither `a` nor `b`.
    Side,
    /// The text is empty, or has over 256 bytes.
    Text,
}

impl fmt::Display for LifeWhat {
    ghost use Rattle.std.specs.Prelude.{Some};
    ghost use Rattle.link_life.specs.Reports.{word_for};

    ghost output = { λ what. Some (word_for what) };

    fn fmt<W: fmt::Write>(&self, f: &mut fmt::Formatter<W>) -> fmt::Result {
        f.write_str(match self {
            LifeWhat::Many => "many",
            LifeWhat::Char => "char",
            LifeWhat::Word => "word",
            LifeWhat::Count => "count",
            LifeWhat::Number => "number",
            LifeWhat::Side => "side",
            LifeWhat::Text => "text",
        })
    }
}

/// Why a script wasn't read.
#[derive(Clone, Copy, Debug, PartialEq, Eq, Error)]
pub enum LifeFileRefusal {
    /// The first bad line, counted from 1.
    #[error("line {line}: {what}")]
    BadLine { line: u32, what: LifeWhat },
    #[error("out of memory")]
    NoMemory,
}

impl From<AllocError> for LifeFileRefusal {
    ghost use Rattle.std.specs.Prelude.{◌≡◌};
    ghost use Rattle.link_life.specs.declared.life_refusals.LifeFileRefusal.TheVariants.{NoMemory};

    ghost from_gives = { λ _ e. e ≡ NoMemory };

    fn from(_: AllocError) -> Self {
        LifeFileRefusal::NoMemory
    }
}

impl<T: Drop> From<AllocFailed<T>> for LifeFileRefusal {
    ghost use Rattle.std.specs.Prelude.{◌≡◌};
    ghost use Rattle.link_life.specs.declared.life_refusals.LifeFileRefusal.TheVariants.{NoMemory};

    ghost from_gives = { λ _ e. e ≡ NoMemory };

    fn from(_: AllocFailed<T>) -> Self {
        LifeFileRefusal::NoMemory
    }
}

/// Why a line of a script isn't done. It changes nothing then.
#[derive(Clone, Copy, Debug, PartialEq, Eq)]
pub enum LifeRefusal {
    /// The end that is to be set up isn't Down.
    Phase,
    /// It went Down less than 3,000 ms ago.
    Early,
    /// A frame under way would be older than the channel delays one.
    Delay,
    /// No frame is under way to this side, or no payload waits at it.
    Nothing,
    /// The link is Down or Releasing, or is to be closed.
    NotUp,
    /// The link holds 128 payloads.
    QueueFull,
    /// The link has accepted 2^62 payloads, and no number is left.
    Exhausted,
}

impl LifeRefusal {
    ghost use Rattle.std.specs.Prelude.{◌≡◌, ◌≤◌, length};
    ghost use Rattle.link_life.specs.Reports.{word_of_refusal};

    /// The word by which a report shows it.
    pub fn word(self) -> &'static str
        ensures text { result.now ≡ word_of_refusal self }
        ensures len { length result.now ≤ 10 }
    {
        match self {
            LifeRefusal::Phase => "phase",
            LifeRefusal::Early => "early",
            LifeRefusal::Delay => "delay",
            LifeRefusal::Nothing => "nothing",
            LifeRefusal::NotUp => "not up",
            LifeRefusal::QueueFull => "queue full",
            LifeRefusal::Exhausted => "exhausted",
        }
    }
}

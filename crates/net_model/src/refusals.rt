//! Why an instruction isn't done, and why a replay is refused. Used by `air`, `answer`, `events` and `refused`, and by the crates above.
use radio_base::NoMemory;
use std::alloc::{AllocError, AllocFailed};
use std::fmt;
use thiserror::Error;

/// Why an instruction of a network wasn't done.
#[derive(Clone, Copy, Debug, PartialEq, Eq)]
pub enum LineRefusal {
    /// The node holds no end of that number.
    NoEnd,
    /// A session serves the end, or has asked for it.
    Served,
    /// No message waits at the end.
    Nothing,
    /// A circuit or a route to the node itself.
    Own,
    /// No route leads to the node that is asked for.
    NoRoute,
    /// The node holds as many ends as it may.
    Full,
    /// The circuit isn't Up.
    NotUp,
    /// The circuit is to be closed.
    Closing,
    /// The text has no bytes.
    Empty,
    /// The text has more bytes than a message may.
    TooLong,
    /// More bytes would wait for their acknowledgement than may.
    QueueFull,
    /// The numbers of fragments have come to their end.
    Exhausted,
    /// A route of a quality below the least that the node uses.
    TooLow,
    /// The node's table has no room for the route.
    TableFull,
    /// No frame has that number.
    NoFrame,
    /// The node sent the frame itself, or shares no channel with its sender.
    NoChannel,
    /// The frame is settled already.
    Settled,
    /// The frame isn't settled yet.
    NotSettled,
    /// The node keeps no mail.
    NoMail,
}

impl fmt::Display for LineRefusal {
    ghost use Rattle.std.specs.Prelude.{Some};
    ghost use Rattle.net_model.specs.Refused.{word_for_why};

    ghost output = { λ why. Some (word_for_why why) };

    fn fmt<W: fmt::Write>(&self, f: &mut fmt::Formatter<W>) -> fmt::Result {
        f.write_str(match self {
            LineRefusal::NoEnd => "no end",
            LineRefusal::Served => "served",
            LineRefusal::Nothing => "nothing",
            LineRefusal::Own => "own",
            LineRefusal::NoRoute => "no route",
            LineRefusal::Full => "full",
            LineRefusal::NotUp => "not up",
            LineRefusal::Closing => "closing",
            LineRefusal::Empty => "empty",
            LineRefusal::TooLong => "too long",
            LineRefusal::QueueFull => "queue full",
            LineRefusal::Exhausted => "exhausted",
            LineRefusal::TooLow => "too low",
            LineRefusal::TableFull => "table full",
            LineRefusal::NoFrame => "no frame",
            LineRefusal::NoChannel => "no channel",
            LineRefusal::Settled => "settled",
            LineRefusal::NotSettled => "not settled",
            LineRefusal::NoMail => "no mail",
        })
    }
}

/// Why a network wasn't replayed to its end.
#[derive(Clone, Copy, Debug, PartialEq, Eq, Error)]
pub enum ReplayRefusal {
    /// A frame after the 100,000th would be put in the air.
    #[error("too many frames")]
    FramesFull,
    #[error("out of memory")]
    NoMemory,
}

impl From<NoMemory> for ReplayRefusal {
    ghost use Rattle.std.specs.Prelude.{◌≡◌};
    ghost use Rattle.net_model.specs.declared.refusals.ReplayRefusal.TheVariants as refusals;

    ghost from_gives = { λ _ e. e ≡ refusals.NoMemory };

    fn from(_: NoMemory) -> Self {
        ReplayRefusal::NoMemory
    }
}

impl From<AllocError> for ReplayRefusal {
    ghost use Rattle.std.specs.Prelude.{◌≡◌};
    ghost use Rattle.net_model.specs.declared.refusals.ReplayRefusal.TheVariants.{NoMemory};

    ghost from_gives = { λ _ e. e ≡ NoMemory };

    fn from(_: AllocError) -> Self {
        ReplayRefusal::NoMemory
    }
}

impl<T: Drop> From<AllocFailed<T>> for ReplayRefusal {
    ghost use Rattle.std.specs.Prelude.{◌≡◌};
    ghost use Rattle.net_model.specs.declared.refusals.ReplayRefusal.TheVariants.{NoMemory};

    ghost from_gives = { λ _ e. e ≡ NoMemory };

    fn from(_: AllocFailed<T>) -> Self {
        ReplayRefusal::NoMemory
    }
}

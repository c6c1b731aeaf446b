//! What a node's user can do, and what comes of it. Called by `acting`, `hosting` and `node`, by `station_members` and by the replay.
ghost use Rattle.std.specs.Prelude.{◌≡◌};
ghost use Rattle.node_core.specs.Acts as acts;

use crate::taken_message::TakenMessage;
use ax_address::{Alias, Call, Path};
use circuit_l4::WriteRefusal;
use circuit_table::{ConnectRefusal, NoEnd, SetRefusal};
use link_table::{OpenRefusal, TextRefusal};
use radio_base::NoMemory;
use route_table::LockRefusal;

/// What a node's user does. An end of a circuit is named by its number.
#[derive(Debug, Drop, PartialEq, Eq)]
pub enum UserAct<'a> {
    /// The counts of the routes go down, and the routes are broadcast.
    Round,
    /// The link with a neighbour is broken, and with it the routes over it.
    LinkFail(Call),
    /// A route is locked in.
    Lock {
        dest: Call,
        alias: Alias,
        neighbour: Call,
        quality: u8,
    },
    /// A circuit with a node is asked for.
    Connect(Call),
    /// The same, in the name of this user: the request carries `user` in place of the node's own.
    ConnectFor {
        user: Call,
        dest: Call,
    },
    /// A message is written for the partner of an end.
    Write {
        id: u64,
        message: &'a [u8],
    },
    /// The first message that came to an end is taken.
    Take {
        id: u64,
    },
    /// A circuit is closed once all that was written is acknowledged.
    Close {
        id: u64,
    },
    /// At a node that hosts its users: the first text at the link with a peer is taken.
    TakeText(Call),
    /// At such a node: a text is sent over the link with a peer, which has to stand.
    SendText {
        to: Call,
        text: &'a [u8],
    },
    /// At such a node: a link is set up where none stands, over these repeaters, or where there are none over those that are set.
    OpenLink {
        to: Call,
        path: Path,
    },
    /// At such a node: the link with a peer is released once all is acknowledged.
    CloseLink(Call),
}

/// What was done.
#[derive(Debug, Drop)]
pub enum ActDone {
    /// What was asked for.
    Done,
    /// An end of this number was made.
    Made(u64),
    /// This message or text was taken.
    Took(TakenMessage),
}

/// Why an act isn't done. But for want of memory the act itself has changed nothing; the node is settled all the same.
#[derive(Clone, Copy, Debug, PartialEq, Eq)]
pub enum ActRefusal {
    /// No end of that number is held.
    NoEnd,
    /// A session serves that end or has requested it; or the node itself deals with the texts of its links.
    Served,
    /// No message waits at that end, or no text at that link.
    Nothing,
    /// The node to which a circuit or a route would lead is this one.
    Own,
    /// No route leads to the node with which a circuit is asked for.
    NoRoute,
    /// 64 ends are held, or the numbers of ends have come to their end; or 64 links stand.
    Full,
    /// The quality of the route is below the least that is used.
    TooLow,
    /// The table has `live` usable routes, and would have `would_be`, more than it may have.
    TableFull { live: usize, would_be: usize },
    /// The message isn't written.
    Write(WriteRefusal),
    /// No link stands that takes texts.
    NoLink,
    /// A link with the peer stands.
    Standing,
    /// The text has more than 8,192 bytes, or the path more than two repeaters.
    TooLong,
    /// The link has no room for the text.
    NoRoom,
    /// Memory ran out, now or in an earlier call.
    NoMemory,
}

/// Whether an act was refused for want of memory.
pub fn wants_memory(outcome: &Result<ActDone, ActRefusal>) -> bool
    ensures { result ≡ acts.wants_memory outcome.now }
{
    matches!(outcome, Err(ActRefusal::NoMemory))
}

impl From<NoMemory> for ActRefusal {
    ghost use Rattle.std.specs.Prelude.{◌≡◌};
    ghost use Rattle.node_core.specs.declared.acts.ActRefusal.TheVariants as refusals;

    ghost from_gives = { λ _ e. e ≡ refusals.NoMemory };

    fn from(_: NoMemory) -> Self {
        ActRefusal::NoMemory
    }
}

impl From<NoEnd> for ActRefusal {
    ghost use Rattle.std.specs.Prelude.{◌≡◌};
    ghost use Rattle.node_core.specs.declared.acts.ActRefusal.TheVariants as refusals;

    ghost from_gives = { λ _ e. e ≡ refusals.NoEnd };

    fn from(_: NoEnd) -> Self {
        ActRefusal::NoEnd
    }
}

impl From<ConnectRefusal> for ActRefusal {
    ghost use Rattle.std.specs.Prelude.{◌≡◌};
    ghost use Rattle.node_core.specs.Acts.{connect_refusal};

    ghost from_gives = { λ why e. e ≡ connect_refusal why };

    fn from(why: ConnectRefusal) -> Self {
        match why {
            ConnectRefusal::Own => ActRefusal::Own,
            ConnectRefusal::NoRoute => ActRefusal::NoRoute,
            ConnectRefusal::Full => ActRefusal::Full,
            ConnectRefusal::NoMemory => ActRefusal::NoMemory,
        }
    }
}

impl From<LockRefusal> for ActRefusal {
    ghost use Rattle.std.specs.Prelude.{◌≡◌};
    ghost use Rattle.node_core.specs.Acts.{lock_refusal};

    ghost from_gives = { λ why e. e ≡ lock_refusal why };

    fn from(why: LockRefusal) -> Self {
        match why {
            LockRefusal::Own => ActRefusal::Own,
            LockRefusal::TooLow => ActRefusal::TooLow,
            LockRefusal::TableFull { live, would_be } => ActRefusal::TableFull { live, would_be },
            LockRefusal::NoMemory => ActRefusal::NoMemory,
        }
    }
}

impl From<SetRefusal> for ActRefusal {
    ghost use Rattle.std.specs.Prelude.{◌≡◌};
    ghost use Rattle.node_core.specs.Acts.{write_refusal};

    ghost from_gives = { λ why e. e ≡ write_refusal why };

    fn from(why: SetRefusal) -> Self {
        match why {
            SetRefusal::NoEnd => ActRefusal::NoEnd,
            SetRefusal::Write(why) => ActRefusal::Write(why),
            SetRefusal::NoMemory => ActRefusal::NoMemory,
        }
    }
}

impl From<TextRefusal> for ActRefusal {
    ghost use Rattle.std.specs.Prelude.{◌≡◌};
    ghost use Rattle.node_core.specs.Acts.{text_refusal};

    ghost from_gives = { λ why e. e ≡ text_refusal why };

    fn from(why: TextRefusal) -> Self {
        match why {
            TextRefusal::NoLink => ActRefusal::NoLink,
            TextRefusal::TooLong => ActRefusal::TooLong,
            TextRefusal::Full => ActRefusal::NoRoom,
            TextRefusal::NoMemory => ActRefusal::NoMemory,
        }
    }
}

impl From<OpenRefusal> for ActRefusal {
    ghost use Rattle.std.specs.Prelude.{◌≡◌};
    ghost use Rattle.node_core.specs.Acts.{open_refusal};

    ghost from_gives = { λ why e. e ≡ open_refusal why };

    fn from(why: OpenRefusal) -> Self {
        match why {
            OpenRefusal::Standing => ActRefusal::Standing,
            OpenRefusal::TooLong => ActRefusal::TooLong,
            OpenRefusal::Full => ActRefusal::Full,
            OpenRefusal::NoMemory => ActRefusal::NoMemory,
        }
    }
}

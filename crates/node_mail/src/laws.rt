//! Laws of the definitions of mail alone: how messages are spelled, and that mail is stored once. Called by the laws of the replay.
ghost use Rattle.std.specs.Prelude.{◌≡◌};
ghost use Rattle.node_mail.specs.Kills.{KilledIsStored, KilledMailIsStoredOnce};
ghost use Rattle.node_mail.specs.Runs.{MailIsStoredOnce};
ghost use Rattle.node_mail.specs.Wires.{SpelledWireIsRead, WrittenWireSpellsIt};

use crate::{MAX_EVER_STORED, MAX_MAIL, MAX_QUEUED, MAX_STORED};

/// Octets that spell a message are read as it, and so spell no other one. What is written for a message spells it.
/// (That what is read is spelled so is a clause of `Store::hear`.)
pub fn wire_spelling()
    ensures read { SpelledWireIsRead }
    ensures written { WrittenWireSpellsIt }
{
    ax_address::laws::net_call_spelling();
}

/// In each run in which nothing is killed, whatever is heard, in whatever order and how often, and whatever nodes without a
/// store write: of any two nodes with a store, what one has stored from the other has different numbers, and each has the
/// user and the text of the mail that was posted there under that number for it; and each mail that was posted there for it
/// is queued there or stored here. That mail arrives isn't promised.
pub fn mail_once()
    ensures { MailIsStoredOnce }
{
    wire_spelling();
}

/// And where stored mails are killed, at any time: what one node has stored from the other has different numbers, and each
/// has the user of the mail that was posted there under that number for it, and its text, or none where it was killed; and
/// each mail that was posted there for it is queued there, or stored here with its text, or was stored here and killed.
/// Between nodes of which the second has killed nothing all that `mail_once` says holds in these runs, too.
///
/// A mail that was killed is stored for each test of that, so it is never stored again.
pub fn mail_once_or_killed()
    ensures once { KilledMailIsStoredOnce }
    ensures known { KilledIsStored }
{
    wire_spelling();
}

/// The most octets of a text, and the most mails that are queued, that are stored with their texts, and that were ever
/// stored.
pub fn numbers()
    ensures text { MAX_MAIL ≡ 1024 }
    ensures queued { MAX_QUEUED ≡ 1000 }
    ensures stored { MAX_STORED ≡ 4096 }
    ensures ever { MAX_EVER_STORED ≡ 65536 }
{}

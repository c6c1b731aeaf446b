//! What would become of a mail or a receipt. Own profile. Called by `store`.
ghost use Rattle.std.specs.Prelude.{◌≡◌, ℕ, List, Some};
ghost use Rattle.node_mail.specs.Lists as lists;
ghost use Rattle.node_mail.specs.Lists.{IsHeardIn};
ghost use Rattle.node_mail.specs.Wires.{wire_at};
ghost use Rattle.node_mail.specs.Heads.{wire_of};

use crate::heard::Heard;
use crate::mailbox::Mailbox;
use crate::queue::Queue;
use crate::read::read_wire;
use crate::wire_head::WireHead;
use ax_address::Call;

/// What would become of a message.
pub(crate) fn would_hear(queue: &Queue, mailbox: &Mailbox, from: &Call, bytes: &[u8]) -> Heard
    ensures exact { result ≡ lists.heard_by queue.now.letters mailbox.now from.now (wire_at bytes.now) }
    ensures read { IsHeardIn bytes.now result }
{
    match read_wire(bytes) {
        Some(head) => would_hear_wire(queue, mailbox, from, &head),
        None => Heard::Bad,
    }
}

fn would_hear_wire(queue: &Queue, mailbox: &Mailbox, from: &Call, head: &WireHead) -> Heard
    ensures { (text : List ℕ) → result ≡ lists.heard_by queue.now.letters mailbox.now from.now (Some (wire_of text head.now)) }
{
    match head {
        WireHead::Carries { number, to } => would_store(mailbox, from, *number, to),
        WireHead::Receipt { number } => {
            if queue.has_for(from, *number) {
                Heard::Settled { number: *number }
            } else {
                Heard::Stray { number: *number }
            }
        }
    }
}

fn would_store(mailbox: &Mailbox, from: &Call, number: u64, to: &Call) -> Heard
    ensures { result ≡ lists.mail_heard mailbox.now from.now number to.now }
{
    if mailbox.has(from, number) {
        Heard::Again { number }
    } else if mailbox.is_full() {
        Heard::Full { number }
    } else {
        Heard::Stored { number, to: *to }
    }
}

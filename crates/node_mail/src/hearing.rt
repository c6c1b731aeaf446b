//! What becomes of a mail and of a receipt that are heard. Own profile. Called by `store`.
ghost use Rattle.std.specs.Prelude.{◌≡◌, ◌≤◌, length, List, IfOk, OnErr};
ghost use Rattle.node_mail.specs.Lists as lists;
ghost use Rattle.node_mail.specs.Lists.{octets_in};

use crate::heard::Heard;
use crate::mail::Mail;
use crate::mailbox::Mailbox;
use crate::queue::Queue;
use crate::write::write_receipt;
use arrayvec::ArrayVec;
use ax_address::Call;
use l3_datagram::Message;
use radio_base::NoMemory;

/// Takes in a mail.
pub(crate) fn hear_mail(
    mailbox: &mut Mailbox,
    from: &Call,
    number: u64,
    to: &Call,
    text: &[u8],
    out: &mut Message,
) -> Result<Heard, NoMemory>
    requires { length text.now ≤ 1024 }
    ensures heard { IfOk result (λ heard. heard ≡ lists.mail_heard mailbox.old from.now number to.now) }
    ensures answer { IfOk result (λ heard. out.new.items ≡ octets_in (lists.answer_to heard)) }
    ensures stored { IfOk result (λ heard. mailbox.new ≡ lists.stored_after mailbox.old from.now text.now heard) }
    ensures queued { IfOk result (λ heard. (ls : List lists.Letter) → lists.queued_after ls heard ≡ ls) }
    ensures err { OnErr result (mailbox.new ≡ mailbox.old) }
    ensures err_out { OnErr result (out.new ≡ out.old) }
{
    if mailbox.has(from, number) {
        write_receipt(number, out);
        return Ok(Heard::Again { number });
    }
    if mailbox.is_full() {
        out.clear();
        return Ok(Heard::Full { number });
    }
    mailbox.push(mail_of(from, number, to, text))?;
    write_receipt(number, out);
    Ok(Heard::Stored { number, to: *to })
}

/// Takes in a receipt.
pub(crate) fn hear_receipt(queue: &mut Queue, from: &Call, number: u64) -> Heard
    ensures heard { result ≡ lists.receipt_heard queue.old.letters from.now number }
    ensures queued { queue.new.letters ≡ lists.queued_after queue.old.letters result }
    ensures last { queue.new.last ≡ queue.old.last }
{
    if queue.settle(from, number) {
        Heard::Settled { number }
    } else {
        Heard::Stray { number }
    }
}

/// A mail, of which the text is short enough.
pub(crate) fn mail_of(origin: &Call, number: u64, to: &Call, text: &[u8]) -> Mail
    requires { length text.now ≤ 1024 }
    ensures { result ≡ lists.mail_of origin.now number to.now text.now }
{
    let mut copy = ArrayVec::new();
    let _ = copy.try_extend_from_slice(text);
    Mail {
        origin: *origin,
        number,
        to: *to,
        text: copy,
    }
}

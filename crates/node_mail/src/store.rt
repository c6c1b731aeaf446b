//! The mail of a node: its public calls. Own profile. Called by the replay and `trace_lines`.
use crate::heard::Heard;
use crate::hearing::{hear_mail, hear_receipt};
use crate::mail::Mail;
use crate::mailbox::Mailbox;
use crate::post_refusal::PostRefusal;
use crate::queue::Queue;
use crate::read::read_wire;
use crate::wire_head::{TEXT_AT, WireHead};
use ax_address::Call;
use l3_datagram::Message;
use radio_base::NoMemory;
use std::alloc::Global;
use std::marker::Model;

mod again;

/// The mail that a node keeps: what was posted there for users at other nodes, until it is settled, and what is stored
/// there for its own users. Of a stored mail that is killed its text goes; it stays in the list, so that it isn't stored again.
///
/// It stands for three lists (`StandsFor`): all mails that were ever posted, those that are queued, and those that are
/// stored. How to drive it:
///
/// - A user's mail comes in by `post`.
/// - What is queued for a node (`queued`) is written to a circuit with that node as `wire` gives it, as often as need be.
/// - What comes by a circuit is handed to `hear`, with the node that has written it; `out` is then written back.
/// - `stored` has the mails for the users of this node; `counts` says how many are queued and were stored.
/// - What a user has read and lets go is handed to `kill`.
#[derive(Drop)]
pub struct Store {
    alloc: Global,
    own: Call,
    queue: Queue,
    mailbox: Mailbox,
}

impl Model for Store {
    ghost use Rattle.node_mail.specs.Lists.{StoreView};

    ghost Value = { StoreView };

    ghost view = { λ s. record { own = s.own; last = s.queue.last; queued = s.queue.letters; stored = s.mailbox } };
}

impl Store {
    ghost use Rattle.std.specs.Prelude.{◌≡◌, length, drop, is_some, slice_get, Some, false, IfOk, OnOk, OnErr};
    ghost use Rattle.std.specs.Option.{option_map, option_copied};
    ghost use Rattle.node_mail.specs.Heads.{IsSized, wire_of};
    ghost use Rattle.node_mail.specs.Lists as lists;
    ghost use Rattle.node_mail.specs.Lists.{Lists, IsPostAnswer, SpellsOffer, StandsFor, number_and_dest, octets_in, octets_or, view_after};
    ghost use Rattle.node_mail.specs.Wires.{ReadWireIsSpelled};

    /// A store of the node of that call, in which nothing is kept.
    pub fn new(alloc: Global, own: Call) -> Store
        ensures { StandsFor result (lists.nothing_kept own) }
    {
        Store {
            alloc,
            own,
            queue: Queue::new(alloc),
            mailbox: Mailbox::new(alloc),
        }
    }

    /// Posts a mail for the user `to` at the node `dest`. Its number: 1 for the first, and then one more each.
    ///
    /// Refused, in this order: `Own` where `dest` is this node, `Empty`, `TooLong` above 1,024 octets, `Full` where
    /// 1,000 mails are queued, `Exhausted` where the last number was 2^62, `NoMemory`. After a refusal nothing is
    /// changed, and no number was given.
    pub fn post(&mut self, to: &Call, dest: &Call, text: &[u8]) -> Result<u64, PostRefusal>
        ensures answer { (s : Lists) → StandsFor self.old s → IsPostAnswer result (lists.post_at s dest.now text.now) }
        ensures posted { OnOk result ((s : Lists) → StandsFor self.old s →
            StandsFor self.new (lists.post_step s to.now dest.now text.now)) }
        ensures err { OnErr result (self.new ≡ self.old) }
    {
        if *dest == self.own {
            return Err(PostRefusal::Own);
        }
        let number = self.queue.next_number(text)?;
        self.queue.push(self.alloc, number, to, dest, text)?;
        Ok(number)
    }

    /// The number and the destination of a queued mail, by number from the lowest on; `None` past the last.
    pub fn queued(&self, nth: usize) -> Option<(u64, Call)>
        ensures { (s : Lists) → StandsFor self.now s → result ≡ option_map number_and_dest (slice_get s.queued nth) }
    {
        self.queue.name_at(nth)
    }

    /// A stored mail, in the order of storing, and without text where it was killed; `None` past the last.
    pub fn stored(&self, nth: usize) -> Option<&Mail>
        ensures { (s : Lists) → StandsFor self.now s → option_copied result ≡ slice_get s.stored nth }
    {
        self.mailbox.mail(nth)
    }

    /// How many mails are queued, and how many were ever stored.
    pub fn counts(&self) -> (usize, usize)
        ensures { (s : Lists) → StandsFor self.now s → result ≡ (length s.queued, length s.stored) }
    {
        (self.queue.len(), self.mailbox.len())
    }

    /// Writes the message that offers the queued mail of a number. False where no mail of that number is queued: then
    /// `out` is as it was.
    pub fn wire(&self, number: u64, out: &mut Message) -> bool
        ensures answer { (s : Lists) → StandsFor self.now s → result ≡ is_some (lists.letter_of number s.queued) }
        ensures message { (s : Lists) → StandsFor self.now s →
            out.new.items ≡ octets_or out.old.items (lists.letter_of number s.queued) }

        // What is written spells the mail.
        ensures spelled { (s : Lists) → StandsFor self.now s →
            SpellsOffer (lists.letter_of number s.queued) out.new.items }
    {
        self.queue.wire(number, out)
    }

    /// Takes in what the node `from` has written, and puts the answer to it into `out`, which is empty where there is
    /// none. After `NoMemory` nothing is changed, nor is `out`.
    ///
    /// A mail that is stored already is one look-up by hash, a receipt a search by halves.
    pub fn hear(&mut self, from: &Call, bytes: &[u8], out: &mut Message) -> Result<Heard, NoMemory>
        ensures answer { IfOk result (λ heard. (s : Lists) → StandsFor self.old s →
            heard ≡ lists.hear_at s from.now bytes.now) }
        ensures message { IfOk result (λ heard. out.new.items ≡ octets_in (lists.answer_to heard)) }
        ensures heard { OnOk result ((s : Lists) → StandsFor self.old s →
            StandsFor self.new (lists.hear_step s from.now bytes.now)) }

        // What is read as a message spells it.
        ensures spelled { ReadWireIsSpelled bytes.now }
        ensures err { OnErr result (self.new ≡ self.old) }
        ensures err_out { OnErr result (out.new ≡ out.old) }
    {
        match read_wire(bytes) {
            Some(head) => self.hear_wire(from, &head, bytes, out),
            None => {
                out.clear();
                Ok(Heard::Bad)
            }
        }
    }

    /// Lets the text of a stored mail go. That it was stored is kept: it is never stored again, and `stored` and `counts`
    /// still tell of it. False where none is stored under that number from that node, or it was killed before: then nothing
    /// is changed.
    pub fn kill(&mut self, origin: &Call, number: u64) -> bool
        ensures answer { (s : Lists) → StandsFor self.old s →
            result ≡ lists.is_readable (lists.stored_mail s.stored origin.now number) }
        ensures killed { (s : Lists) → StandsFor self.old s →
            StandsFor self.new (lists.kill_step s origin.now number) }
        ensures same { result ≡ false → self.new ≡ self.old }
    {
        self.mailbox.kill(origin, number)
    }

    /// Takes in a message, of which the octets stand in `bytes`.
    fn hear_wire(
        &mut self,
        from: &Call,
        head: &WireHead,
        bytes: &[u8],
        out: &mut Message,
    ) -> Result<Heard, NoMemory>
        requires { IsSized bytes.now head.now }
        ensures heard { let wire = Some (wire_of (drop 16 bytes.now) head.now) in
            IfOk result (λ heard. heard ≡ lists.heard_by self.old.queued self.old.stored from.now wire) }
        ensures answer { IfOk result (λ heard. out.new.items ≡ octets_in (lists.answer_to heard)) }
        ensures kept { let text = lists.text_of (Some (wire_of (drop 16 bytes.now) head.now)) in
            IfOk result (λ heard. self.new ≡ view_after self.old from.now text heard) }
        ensures err { OnErr result (self.new ≡ self.old) }
        ensures err_out { OnErr result (out.new ≡ out.old) }
    {
        match head {
            WireHead::Carries { number, to } => {
                hear_mail(&mut self.mailbox, from, *number, to, &bytes[TEXT_AT..], out)
            }
            WireHead::Receipt { number } => {
                out.clear();
                Ok(hear_receipt(&mut self.queue, from, *number))
            }
        }
    }
}

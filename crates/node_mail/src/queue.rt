//! The queue of a node: the mails that were posted there and aren't settled, by number. Own profile. Called by `hearing` and `store`.
ghost use Rattle.std.specs.Prelude.{◌≡◌, ◌+◌, ◌++◌, ◌∷◌, [], ℕ, length, slice_get, is_some, IfOk, OnOk, OnErr, true, false};
ghost use Rattle.std.specs.Option.{option_map};
ghost use Rattle.node_mail.specs.Lists.{is_queued_for, letter_of, new_letter, number_for, without, SpellsOffer, number_and_dest, octets_or};
ghost use Rattle.node_mail.specs.Queues.{IsInOrder, QueueView, letters};
ghost use Rattle.node_mail.specs.Wires.{IsNumber, IsText};

use crate::mail::{MAX_MAIL, MAX_QUEUED};
use crate::post_refusal::PostRefusal;
use crate::queued_mails::{QueuedMail, place_for, place_of};
use crate::write::write_mail;
use ax_address::Call;
use l3_datagram::Message;
use radio_base::{COUNT_MAX, NoMemory};
use std::alloc::Global;
use std::marker::Model;

/// The mails that aren't settled, by number.
#[derive(Drop)]
pub(crate) struct Queue {
    /// The number that was given last, and 0 before the first.
    last: u64,
    mails: Vec<QueuedMail>,
}

impl Model for Queue {
    ghost use Rattle.node_mail.specs.Queues.{IsInOrder, QueueView, letters};

    ghost Value = { QueueView };

    ghost view = { λ q. record { last = q.last; letters = letters q.mails.items } };

    ghost invariant = { λ q. IsInOrder q.last (letters q.mails.items) };
}

impl Queue {
    pub(crate) fn new(alloc: Global) -> Queue
        ensures { result ≡ record { last = 0; letters = [] } }
    {
        Queue {
            last: 0,
            mails: Vec::new(alloc),
        }
    }

    pub(crate) fn len(&self) -> usize
        ensures { result ≡ length self.now.letters }
    {
        self.mails.len()
    }

    /// The number that a mail of this text gets, or why it isn't posted.
    pub(crate) fn next_number(&self, text: &[u8]) -> Result<u64, PostRefusal>
        ensures exact { result ≡ number_for (length self.now.letters) self.now.last text.now }
        ensures next { IfOk result (λ number. number ≡ self.now.last + 1) }
        ensures is_number { IfOk result IsNumber }
        ensures is_text { IfOk result (λ _. IsText text.now) }
    {
        if text.is_empty() {
            return Err(PostRefusal::Empty);
        }
        if text.len() > MAX_MAIL {
            return Err(PostRefusal::TooLong);
        }
        if self.mails.len() >= MAX_QUEUED {
            return Err(PostRefusal::Full);
        }
        if self.last >= COUNT_MAX {
            return Err(PostRefusal::Exhausted);
        }
        Ok(self.last + 1)
    }

    /// Puts the mail of the next number behind the others.
    pub(crate) fn push(
        &mut self,
        alloc: Global,
        number: u64,
        to: &Call,
        dest: &Call,
        text: &[u8],
    ) -> Result<(), NoMemory>
        requires next { number ≡ self.old.last + 1 }
        requires is_number { IsNumber number }
        requires is_text { IsText text.now }
        ensures last { OnOk result (self.new.last ≡ number) }
        ensures letters { let letter = new_letter number to.now dest.now text.now in
            OnOk result (self.new.letters ≡ self.old.letters ++ letter ∷ []) }
        ensures err { OnErr result (self.new ≡ self.old) }
    {
        let text = Vec::from_slice(alloc, text)?;
        self.mails.push(QueuedMail {
            number,
            to: *to,
            dest: *dest,
            text,
        })?;
        self.last = number;
        Ok(())
    }

    /// The number and the destination of a mail.
    pub(crate) fn name_at(&self, nth: usize) -> Option<(u64, Call)>
        ensures { result ≡ option_map number_and_dest (slice_get self.now.letters nth) }
    {
        name_at(self.mails.as_slice(), nth)
    }

    /// Writes the message that offers the mail of a number. False where it isn't queued: nothing is written then.
    pub(crate) fn wire(&self, number: u64, out: &mut Message) -> bool
        ensures answer { result ≡ is_some (letter_of number self.now.letters) }
        ensures message { out.new.items ≡ octets_or out.old.items (letter_of number self.now.letters) }
        ensures spelled { SpellsOffer (letter_of number self.now.letters) out.new.items }
    {
        wire_at(self.mails.as_slice(), number, out)
    }

    /// Whether the mail of a number is queued for that node.
    pub(crate) fn has_for(&self, dest: &Call, number: u64) -> bool
        ensures { result ≡ is_queued_for self.now.letters dest.now number }
    {
        place_for(self.mails.as_slice(), dest, number).is_some()
    }

    /// Takes the mail of a number away, where it is queued.
    pub(crate) fn take_away(&mut self, number: u64) -> bool
        ensures answer { result ≡ is_some (letter_of number self.old.letters) }
        ensures settled { result ≡ true → self.new.letters ≡ without number self.old.letters }
        ensures same { result ≡ false → self.new ≡ self.old }
        ensures last { self.new.last ≡ self.old.last }
    {
        match place_of(self.mails.as_slice(), number) {
            Some(at) => {
                self.mails.remove(at);
                true
            }
            None => false,
        }
    }

    /// Takes the mail of a number away, where it is queued for that node.
    pub(crate) fn settle(&mut self, dest: &Call, number: u64) -> bool
        ensures answer { result ≡ is_queued_for self.old.letters dest.now number }
        ensures settled { result ≡ true → self.new.letters ≡ without number self.old.letters }
        ensures same { result ≡ false → self.new ≡ self.old }
        ensures last { self.new.last ≡ self.old.last }
    {
        match place_for(self.mails.as_slice(), dest, number) {
            Some(at) => {
                self.mails.remove(at);
                true
            }
            None => false,
        }
    }
}

fn name_at(mails: &[QueuedMail], nth: usize) -> Option<(u64, Call)>
    ensures { result ≡ option_map number_and_dest (slice_get (letters mails.now) nth) }
{
    match mails.get(nth) {
        Some(mail) => Some((mail.number, mail.dest)),
        None => None,
    }
}

fn wire_at(mails: &[QueuedMail], number: u64, out: &mut Message) -> bool
    requires { (last : ℕ) × IsInOrder last (letters mails.now) }
    ensures answer { result ≡ is_some (letter_of number (letters mails.now)) }
    ensures message { out.new.items ≡ octets_or out.old.items (letter_of number (letters mails.now)) }
    ensures spelled { SpellsOffer (letter_of number (letters mails.now)) out.new.items }
{
    match place_of(mails, number) {
        Some(at) => {
            let mail = &mails[at];
            write_mail(mail.number, &mail.to, mail.text.as_slice(), out);
            true
        }
        None => false,
    }
}

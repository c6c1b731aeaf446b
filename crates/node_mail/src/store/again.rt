//! A store is asked what it would do, and does again what was written down of it. Own profile. Called by whoever keeps a log of its mail.
ghost use Rattle.std.specs.Prelude.{◌≡◌, ◌≤◌, ◌++◌, ◌∷◌, [], length, is_some, not, ◌||◌, true, false, IfOk, OnErr};
ghost use Rattle.node_mail.specs.Lists as lists;
ghost use Rattle.node_mail.specs.Lists.{Lists, StandsFor};
ghost use Rattle.node_mail.specs.Wires.{IsNumber, IsText};

use crate::asking::would_hear;
use crate::heard::Heard;
use crate::hearing::mail_of;
use crate::post_refusal::PostRefusal;
use crate::store::Store;
use ax_address::Call;
use radio_base::NoMemory;

impl Store {
    /// What `post` would answer where there is memory.
    pub fn would_post(&self, dest: &Call, text: &[u8]) -> Result<u64, PostRefusal>
        ensures answer { (s : Lists) → StandsFor self.now s → result ≡ lists.post_at s dest.now text.now }
        ensures number { IfOk result IsNumber }
        ensures text { IfOk result (λ _. IsText text.now) }
    {
        if *dest == self.own {
            return Err(PostRefusal::Own);
        }
        self.queue.next_number(text)
    }

    /// What `hear` would answer where there is memory.
    pub fn would_hear(&self, from: &Call, bytes: &[u8]) -> Heard
        ensures answer { (s : Lists) → StandsFor self.now s → result ≡ lists.hear_at s from.now bytes.now }
        ensures read { lists.IsHeardIn bytes.now result }
    {
        would_hear(&self.queue, &self.mailbox, from, bytes)
    }

    /// Takes away the queued mail of a number. False where there is none: then nothing is changed.
    pub fn settle(&mut self, number: u64) -> bool
        ensures answer { (s : Lists) → StandsFor self.old s → result ≡ is_some (lists.letter_of number s.queued) }
        ensures settled { result ≡ true → (s : Lists) → StandsFor self.old s →
            StandsFor self.new (record s { queued = lists.without number s.queued }) }
        ensures same { result ≡ false → self.new ≡ self.old }
    {
        self.queue.take_away(number)
    }

    /// Stores a mail. False where it was stored before, or there is no room for it: then nothing is changed.
    pub fn put(
        &mut self,
        origin: &Call,
        number: u64,
        to: &Call,
        text: &[u8],
    ) -> Result<bool, NoMemory>
        requires { length text.now ≤ 1024 }
        ensures answer { IfOk result (λ is_put. (s : Lists) → StandsFor self.old s →
            is_put ≡ not (lists.is_stored s.stored origin.now number || lists.is_full s.stored)) }
        ensures put { IfOk result (λ is_put. is_put ≡ true → (s : Lists) → StandsFor self.old s →
            StandsFor self.new (record s { stored = s.stored ++ lists.mail_of origin.now number to.now text.now ∷ [] })) }
        ensures same { IfOk result (λ is_put. is_put ≡ false → self.new ≡ self.old) }
        ensures err { OnErr result (self.new ≡ self.old) }
    {
        if self.mailbox.has(origin, number) || self.mailbox.is_full() {
            return Ok(false);
        }
        self.mailbox.push(mail_of(origin, number, to, text))?;
        Ok(true)
    }
}

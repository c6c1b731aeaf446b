//! What changes at a post: each change is a record that is kept first. Called by whoever runs a post.
ghost use Rattle.std.specs.Prelude.{◌≡◌, ◌≤◌, ◌^◌, [], List, length, drop, Ok, IsSome, IfOk, IfErr, OnOk, OnErr};
ghost use Rattle.mail_records.specs.declared.record.Record.{Record as Written};
ghost use Rattle.node_mail.specs.Lists.{IsHeardIn, answer_to, hear_at, octets_in, post_at};
ghost use Rattle.node_mail.specs.declared.heard.Heard.TheVariants as heard;
ghost use Rattle.mail_box.specs.Boxes.{BoxState, MailsStand, place_of, with_room};
ghost use Rattle.mail_box.specs.Inputs as input;
ghost use Rattle.mail_box.specs.Refused as refused;
ghost use Rattle.mail_box.specs.Refused.{HasBoxCause};
ghost use Rattle.mail_box.specs.Kept.{FindsAtMost, IsKept, IsNewLetter, Keeps, Stays};

use crate::box_refusal::BoxRefusal;
use crate::post_mail::MailBox;
use ax_address::Call;
use l3_datagram::Message;
use mail_records::{LetterText, Log, LogFailed, Record};
use node_mail::{Heard, write_receipt};

/// Where the text of a mail begins in its message.
const TEXT_AT: usize = 16;

impl<L: Log + Drop> MailBox<L> {
    /// Posts a mail for a user at another post. Its number.
    pub fn post(&mut self, user: &Call, dest: &Call, text: &[u8]) -> Result<u64, BoxRefusal>
        ensures kept { L.is_honest self.new.log → OnOk result (Keeps L.holds self.old self.new
            (input.Posts user.now dest.now text.now)) }
        ensures number { IfOk result (λ number. (b : BoxState) → MailsStand self.old.mails b →
            post_at b.lists dest.now text.now ≡ Ok number) }
        ensures refused { IfErr result (λ why. (b : BoxState) → MailsStand self.old.mails b →
            refused.IsPostRefused b dest.now text.now why) }
        ensures err { L.is_honest self.new.log → OnErr result (Stays L.holds L.is_open self.old self.new) }
        ensures cause { L.is_honest self.new.log → IfErr result (HasBoxCause L.holds L.faults self.old self.new) }
        ensures crash { L.is_honest self.new.log → FindsAtMost L.holds L.may_find self.old self.new
            (input.Posts user.now dest.now text.now) }
    {
        let number = match self.mails.store().would_post(dest, text) {
            Ok(number) => number,
            Err(why) => return Err(BoxRefusal::Post(why)),
        };
        let text = self.text_of(text)?;
        self.keep(&Record::Posted {
            number,
            user: *user,
            dest: *dest,
            text,
        })?;
        Ok(number)
    }

    /// Posts a letter for a user here. Its number, which no letter had before.
    pub fn post_here(&mut self, user: &Call, text: &[u8]) -> Result<u64, BoxRefusal>
        requires { length text.now ≤ 1024 }
        ensures kept { L.is_honest self.new.log → OnOk result (Keeps L.holds self.old self.new
            (input.PostsHere user.now text.now)) }
        ensures number { IfOk result (λ number. (kept : List Written) → IsKept L.holds self.old kept →
            IsNewLetter self.old.mails self.new.mails number user.now text.now) }
        ensures refused { IfErr result (λ why. (b : BoxState) → MailsStand self.old.mails b →
            refused.IsLetterRefused b why) }
        ensures err { L.is_honest self.new.log → OnErr result (Stays L.holds L.is_open self.old self.new) }
        ensures cause { L.is_honest self.new.log → IfErr result (HasBoxCause L.holds L.faults self.old self.new) }
        ensures crash { L.is_honest self.new.log → FindsAtMost L.holds L.may_find self.old self.new
            (input.PostsHere user.now text.now) }
    {
        if !self.mails.has_room() {
            return Err(BoxRefusal::NoRoom);
        }
        let text = self.text_of(text)?;
        self.keep(&Record::Local { user: *user, text })?;
        Ok(self.mails.last_letter())
    }

    /// Marks a letter as read. One that was read is no record.
    pub fn read(&mut self, letter: u64) -> Result<(), BoxRefusal>
        requires { letter ≤ 2 ^ 62 }
        ensures kept { L.is_honest self.new.log → OnOk result (Keeps L.holds self.old self.new (input.Reads letter)) }
        ensures found { OnOk result ((b : BoxState) → MailsStand self.old.mails b →
            IsSome (place_of letter b.letters)) }
        ensures refused { IfErr result (λ why. (b : BoxState) → MailsStand self.old.mails b →
            refused.IsNumberRefused b letter why) }
        ensures err { L.is_honest self.new.log → OnErr result (Stays L.holds L.is_open self.old self.new) }
        ensures cause { L.is_honest self.new.log → IfErr result (HasBoxCause L.holds L.faults self.old self.new) }
        ensures crash { L.is_honest self.new.log → FindsAtMost L.holds L.may_find self.old self.new
            (input.Reads letter) }
    {
        if !self.mails.has_letter(letter) {
            return Err(BoxRefusal::NoLetter);
        }
        if self.mails.is_read(letter) {
            return Ok(());
        }
        self.keep(&Record::Read { letter })?;
        Ok(())
    }

    /// Lets a letter go.
    pub fn kill(&mut self, letter: u64) -> Result<(), BoxRefusal>
        requires { letter ≤ 2 ^ 62 }
        ensures kept { L.is_honest self.new.log → OnOk result (Keeps L.holds self.old self.new (input.Kills letter)) }
        ensures found { OnOk result ((b : BoxState) → MailsStand self.old.mails b →
            IsSome (place_of letter b.letters)) }
        ensures refused { IfErr result (λ why. (b : BoxState) → MailsStand self.old.mails b →
            refused.IsNumberRefused b letter why) }
        ensures err { L.is_honest self.new.log → OnErr result (Stays L.holds L.is_open self.old self.new) }
        ensures cause { L.is_honest self.new.log → IfErr result (HasBoxCause L.holds L.faults self.old self.new) }
        ensures crash { L.is_honest self.new.log → FindsAtMost L.holds L.may_find self.old self.new
            (input.Kills letter) }
    {
        if !self.mails.has_letter(letter) {
            return Err(BoxRefusal::NoLetter);
        }
        self.keep(&Record::Killed { letter })?;
        Ok(())
    }

    /// Takes in what another post has written, and puts the answer into `out`, which is empty where there is none. What is
    /// answered was kept before.
    pub fn hear(
        &mut self,
        from: &Call,
        bytes: &[u8],
        out: &mut Message,
    ) -> Result<Heard, BoxRefusal>
        ensures kept { L.is_honest self.new.log → OnOk result (Keeps L.holds self.old self.new
            (input.Hears from.now bytes.now)) }
        ensures answer { IfOk result (λ heard. out.new.items ≡ octets_in (answer_to heard)) }
        ensures unanswered { OnErr result (out.new.items ≡ []) }
        ensures heard { IfOk result (λ heard. (b : BoxState) → MailsStand self.old.mails b →
            heard ≡ with_room b (hear_at b.lists from.now bytes.now)) }
        ensures refused { IfErr result refused.IsUnkept }
        ensures err { L.is_honest self.new.log → OnErr result (Stays L.holds L.is_open self.old self.new) }
        ensures cause { L.is_honest self.new.log → IfErr result (HasBoxCause L.holds L.faults self.old self.new) }
        ensures crash { L.is_honest self.new.log → FindsAtMost L.holds L.may_find self.old self.new
            (input.Hears from.now bytes.now) }
    {
        out.clear();
        let heard = self.mails.store().would_hear(from, bytes);
        match &heard {
            Heard::Stored { number, to } => self.take_in(from, *number, to, bytes, out),
            Heard::Again { number } => {
                write_receipt(*number, out);
                Ok(heard)
            }
            Heard::Settled { number } => {
                self.keep(&Record::Settled { number: *number })?;
                Ok(heard)
            }
            Heard::Stray { .. } | Heard::Full { .. } | Heard::Bad => Ok(heard),
        }
    }

    /// Stores a mail from another post, where there is room for a letter more.
    fn take_in(
        &mut self,
        from: &Call,
        number: u64,
        user: &Call,
        bytes: &[u8],
        out: &mut Message,
    ) -> Result<Heard, BoxRefusal>
        requires read { IsHeardIn bytes.now (heard.Stored number user.now) }
        requires heard { (b : BoxState) → MailsStand self.old.mails b →
            hear_at b.lists from.now bytes.now ≡ heard.Stored number user.now }
        requires empty { out.old.items ≡ [] }
        ensures kept { L.is_honest self.new.log → OnOk result (Keeps L.holds self.old self.new
            (input.Hears from.now bytes.now)) }
        ensures answer { IfOk result (λ heard. out.new.items ≡ octets_in (answer_to heard)) }
        ensures unanswered { OnErr result (out.new.items ≡ []) }
        ensures heard { IfOk result (λ heard. (b : BoxState) → MailsStand self.old.mails b →
            heard ≡ with_room b (hear_at b.lists from.now bytes.now)) }
        ensures refused { IfErr result refused.IsUnkept }
        ensures err { L.is_honest self.new.log → OnErr result (Stays L.holds L.is_open self.old self.new) }
        ensures cause { L.is_honest self.new.log → IfErr result (HasBoxCause L.holds L.faults self.old self.new) }
        ensures crash { L.is_honest self.new.log → FindsAtMost L.holds L.may_find self.old self.new
            (input.Hears from.now bytes.now) }
    {
        if !self.mails.has_room() {
            return Ok(Heard::Full { number });
        }
        let text = self.text_of(text_behind(bytes))?;
        self.keep(&Record::Stored {
            origin: *from,
            number,
            user: *user,
            text,
        })?;
        write_receipt(number, out);
        Ok(Heard::Stored { number, to: *user })
    }

    fn text_of(&self, text: &[u8]) -> Result<LetterText, BoxRefusal>
        requires { length text.now ≤ 1024 }
        ensures copy { IfOk result (λ copy. copy ≡ text.now) }
        ensures refused { IfErr result (λ why. why ≡ BoxRefusal.NotKept LogFailed.Memory) }
    {
        match LetterText::from_slice(self.alloc, text) {
            Ok(text) => Ok(text),
            Err(_) => Err(BoxRefusal::NotKept(LogFailed::Memory)),
        }
    }
}

/// What stands behind the head of a mail's message.
fn text_behind(bytes: &[u8]) -> &[u8]
    requires { 16 ≤ length bytes.now }
    ensures { result.now ≡ drop 16 bytes.now }
{
    &bytes[TEXT_AT..]
}

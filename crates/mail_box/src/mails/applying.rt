//! A record is applied to what a post has. Called by `post_mail`.
ghost use Rattle.std.specs.Prelude.{◌≡◌, ◌≤◌, ◌<◌, ◌^◌, ◌++◌, ◌∷◌, [], length, true, false, is_some, IfOk, IfSome, OnOk};
ghost use Rattle.mail_box.specs.Boxes as boxes;
ghost use Rattle.mail_box.specs.Boxes.{BoxState, MailsStand, Goes};
ghost use Rattle.mail_records.specs.declared.record.Record.TheVariants as records;

use crate::letter::Letter;
use crate::mails::{Mails, has_number, place_of};
use ax_address::Call;
use mail_records::{LetterText, Record};
use node_mail::MailName;
use radio_base::NoMemory;

impl Mails {
    /// Applies a record. False where it can't follow on what is there: then nothing is changed. After `NoMemory` nothing
    /// is known.
    pub fn apply(&mut self, entry: &Record) -> Result<bool, NoMemory>
        ensures { IfOk result (λ follows. (b : BoxState) → MailsStand self.old b →
            Goes follows self.old self.new (boxes.after b entry.now)) }
    {
        match entry {
            Record::Posted {
                number,
                user,
                dest,
                text,
            } => self.apply_posted(*number, user, dest, text),
            Record::Settled { number } => Ok(self.apply_settled(*number)),
            Record::Stored {
                origin,
                number,
                user,
                text,
            } => self.apply_stored(origin, *number, user, text),
            Record::Local { user, text } => self.apply_local(user, text),
            Record::Read { letter } => self.apply_read(*letter),
            Record::Killed { letter } => Ok(self.apply_killed(*letter)),
        }
    }

    fn apply_posted(
        &mut self,
        number: u64,
        user: &Call,
        dest: &Call,
        text: &LetterText,
    ) -> Result<bool, NoMemory>
        ensures { IfOk result (λ follows. (b : BoxState) → MailsStand self.old b →
            Goes follows self.old self.new (boxes.after b (records.Posted number user.now dest.now text.now))) }
    {
        match self.store.would_post(dest, text.as_slice()) {
            Ok(next) => {
                if next != number {
                    return Ok(false);
                }
                match self.store.post(user, dest, text.as_slice()) {
                    Ok(_) => Ok(true),
                    Err(_) => Err(NoMemory),
                }
            }
            Err(_) => Ok(false),
        }
    }

    fn apply_settled(&mut self, number: u64) -> bool
        ensures { (b : BoxState) → MailsStand self.old b →
            Goes result self.old self.new (boxes.after b (records.Settled number)) }
    {
        self.store.settle(number)
    }

    fn apply_stored(
        &mut self,
        origin: &Call,
        number: u64,
        user: &Call,
        text: &LetterText,
    ) -> Result<bool, NoMemory>
        ensures { IfOk result (λ follows. (b : BoxState) → MailsStand self.old b →
            Goes follows self.old self.new (boxes.after b (records.Stored origin.now number user.now text.now))) }
    {
        if !self.has_room() {
            return Ok(false);
        }
        if !self.store.put(origin, number, user, text.as_slice())? {
            return Ok(false);
        }
        let name = MailName {
            origin: *origin,
            number,
        };
        self.add_letter(Some(name), user, text)?;
        Ok(true)
    }

    fn apply_local(&mut self, user: &Call, text: &LetterText) -> Result<bool, NoMemory>
        ensures { IfOk result (λ follows. (b : BoxState) → MailsStand self.old b →
            Goes follows self.old self.new (boxes.after b (records.Local user.now text.now))) }
    {
        if !self.has_room() {
            return Ok(false);
        }
        self.add_letter(None, user, text)?;
        Ok(true)
    }

    /// Puts a letter behind the others.
    fn add_letter(
        &mut self,
        mail: Option<MailName>,
        user: &Call,
        text: &LetterText,
    ) -> Result<(), NoMemory>
        requires { self.old.given < 2 ^ 62 }
        ensures { OnOk result ((b : BoxState) → MailsStand self.old b →
            MailsStand self.new (boxes.added mail user.now text.now b)) }
    {
        let text = text.copy(self.alloc)?;
        let number = self.given + 1;
        self.letters.push(Letter {
            number,
            mail,
            user: *user,
            text,
        })?;
        self.given = number;
        Ok(())
    }

    fn apply_read(&mut self, letter: u64) -> Result<bool, NoMemory>
        ensures { IfOk result (λ follows. (b : BoxState) → MailsStand self.old b →
            Goes follows self.old self.new (boxes.after b (records.Read letter))) }
    {
        if !self.has_letter(letter) || self.is_read(letter) {
            return Ok(false);
        }
        self.read.push(letter)?;
        Ok(true)
    }

    fn apply_killed(&mut self, letter: u64) -> bool
        ensures { (b : BoxState) → MailsStand self.old b →
            Goes result self.old self.new (boxes.after b (records.Killed letter)) }
    {
        match place_of(&self.letters, letter) {
            Some(at) => {
                let letter = self.letters.remove(at);
                self.kill_mail(letter.mail);
                true
            }
            None => false,
        }
    }

    /// Kills the mail as which a letter came.
    fn kill_mail(&mut self, mail: Option<MailName>)
        ensures { (b : BoxState) → MailsStand self.old b →
            MailsStand self.new (boxes.with_lists (boxes.without_mail b.lists mail) b) }
    {
        if let Some(name) = mail {
            self.store.kill(&name.origin, name.number);
        }
    }
}

//! A post's mail over its log. Called by whoever runs a post.
ghost use Rattle.std.specs.Prelude.{◌≡◌, true, false, IfOk, IfErr, OnOk, OnErr};
ghost use Rattle.mail_records.specs.Records.{IsNumbered};
ghost use Rattle.mail_box.specs.Boxes.{BoxState, Goes, MailsStand, after, after_all, new_box};
ghost use Rattle.mail_box.specs.Inputs.{Input};
ghost use Rattle.mail_box.specs.Kept.{AfterAll, FindsAtMost, IsKept, IsRecordOf, IsStopped, Keeps, MayFollow, Stays};
ghost use Rattle.mail_box.specs.Refused.{HasBoxCause, IsUnkept};

use crate::box_refusal::BoxRefusal;
use crate::mails::Mails;
use ax_address::Call;
use mail_records::{Log, LogFailed, Record};
use radio_base::NoMemory;
use std::alloc::Global;

/// The letters and mails of a post, and the log in which each change is written down before it is made.
#[derive(Drop)]
pub struct MailBox<L: Log + Drop> {
    pub(crate) alloc: Global,
    pub(crate) log: L,
    pub(crate) mails: Mails,
    /// A record was written that wasn't applied: the log has to be opened again.
    pub(crate) is_behind: bool,
}

impl<L: Log + Drop> MailBox<L> {
    /// The post of this call over a log that was opened, with its records. The place, from 1, of the first record that
    /// can't follow on those before, where there is one.
    pub fn over(
        alloc: Global,
        own: Call,
        log: L,
        records: &[Record],
    ) -> Result<MailBox<L>, LogFailed>
        ensures kept { IfOk result (λ post. L.holds log records.now → IsKept L.holds post records.now) }
        ensures same { IfOk result (λ post. post.log ≡ log) }
        ensures stopped { IfErr result (IsStopped (new_box own) records.now) }
    {
        let mut mails = Mails::new(alloc, own);
        match apply_all(&mut mails, records) {
            Ok(()) => Ok(MailBox {
                alloc,
                log,
                mails,
                is_behind: false,
            }),
            Err(why) => Err(why),
        }
    }

    /// What the post has.
    pub fn mails(&self) -> &Mails
        ensures { result.now ≡ self.now.mails }
    {
        &self.mails
    }

    /// The log, to be opened again.
    pub fn into_log(self) -> L
        ensures { result ≡ self.log }
    {
        self.log
    }

    /// Writes a record down, and then applies it.
    pub(crate) fn keep(&mut self, entry: &Record) -> Result<(), BoxRefusal>
        requires numbered { IsNumbered entry.now }
        requires follows { MayFollow self.old.mails entry.now }
        ensures kept { L.is_honest self.new.log → OnOk result ((input : Input) →
            IsRecordOf self.old.mails input entry.now → Keeps L.holds self.old self.new input) }
        ensures goes { OnOk result ((b : BoxState) → MailsStand self.old.mails b →
            Goes true self.old.mails self.new.mails (after b entry.now)) }
        ensures refused { IfErr result IsUnkept }
        ensures err { L.is_honest self.new.log → OnErr result (Stays L.holds L.is_open self.old self.new) }
        ensures cause { L.is_honest self.new.log → IfErr result (HasBoxCause L.holds L.faults self.old self.new) }
        ensures crash { L.is_honest self.new.log → (input : Input) → IsRecordOf self.old.mails input entry.now →
            FindsAtMost L.holds L.may_find self.old self.new input }
        ensures honest { L.is_honest self.new.log → L.is_honest self.old.log }
    {
        if self.is_behind {
            return Err(BoxRefusal::Behind);
        }
        match self.log.append(entry) {
            Ok(()) => {
                if self.follow(entry) {
                    Ok(())
                } else {
                    Err(BoxRefusal::NotKept(LogFailed::Memory))
                }
            }
            Err(why) => Err(BoxRefusal::NotKept(why)),
        }
    }

    /// Applies a record that was written down. False where there is no memory for that: then the log has to be opened again.
    fn follow(&mut self, entry: &Record) -> bool
        ensures log { self.new.log ≡ self.old.log }
        ensures up { result ≡ true → self.new.is_behind ≡ self.old.is_behind }
        ensures goes { result ≡ true → (b : BoxState) → MailsStand self.old.mails b →
            Goes true self.old.mails self.new.mails (after b entry.now) }
        ensures behind { result ≡ false → self.new.is_behind ≡ true }
    {
        match self.mails.apply(entry) {
            Ok(true) => true,
            _ => {
                self.is_behind = true;
                false
            }
        }
    }
}

/// Applies records in their order.
fn apply_all(mails: &mut Mails, records: &[Record]) -> Result<(), LogFailed>
    ensures follow { OnOk result ((b : BoxState) → MailsStand mails.old b →
        AfterAll mails.new (after_all b records.now)) }
    ensures stopped { IfErr result (λ why. (b : BoxState) → MailsStand mails.old b → IsStopped b records.now why) }
{
    let mut place = 0u64;
    for entry in records {
        place += 1;
        match mails.apply(entry) {
            Ok(true) => {}
            Ok(false) => return Err(LogFailed::Spoilt { place }),
            Err(NoMemory) => return Err(LogFailed::Memory),
        }
    }
    Ok(())
}

//! The mailbox of a node: the mails that are stored there, in the order of storing, found by their names. Own profile.
//! Called by `hearing` and `store`.
ghost use Rattle.std.specs.Prelude.{◌≡◌, ◌++◌, ◌∷◌, [], length, slice_get, OnOk, OnErr, false};
ghost use Rattle.std.specs.Option.{option_copied};
ghost use Rattle.node_mail.specs.Lists.{is_full, is_readable, is_stored, killed_in, stored_mail, with_texts};

use crate::mail::{MAX_EVER_STORED, MAX_STORED, Mail, MailName};
use ax_address::Call;
use indexmap::IndexMap;
use radio_base::NoMemory;
use std::alloc::Global;
use std::marker::Model;

/// The mails that are stored. A look-up is one by the hash of a name, and touches no text.
#[derive(Drop)]
pub(crate) struct Mailbox {
    /// Those that were killed too, without their texts.
    mails: IndexMap<MailName, Mail>,
    /// How many have their texts.
    texts: usize,
}

impl Model for Mailbox {
    ghost use Rattle.std.specs.Prelude.{List};
    ghost use Rattle.indexmap.specs.IndexMap.{values};
    ghost use Rattle.node_mail.specs.Mailboxes.{AreCounted};
    ghost use Rattle.node_mail.specs.Lists.{Mail};

    ghost Value = { List Mail };

    ghost view = { λ b. values b.mails };

    ghost invariant = { λ b. AreCounted b.mails.entries b.texts };
}

impl Mailbox {
    pub(crate) fn new(alloc: Global) -> Mailbox
        ensures { result ≡ [] }
    {
        Mailbox {
            mails: IndexMap::new(alloc),
            texts: 0,
        }
    }

    pub(crate) fn len(&self) -> usize
        ensures { result ≡ length self.now }
    {
        self.mails.len()
    }

    /// A mail, in the order of storing.
    pub(crate) fn mail(&self, nth: usize) -> Option<&Mail>
        ensures { option_copied result ≡ slice_get self.now nth }
    {
        match self.mails.get_index(nth) {
            Some((_, mail)) => Some(mail),
            None => None,
        }
    }

    /// Whether the mail of that number from that node is stored.
    pub(crate) fn has(&self, origin: &Call, number: u64) -> bool
        ensures { result ≡ is_stored self.now origin.now number }
    {
        self.mails.contains_key(&MailName {
            origin: *origin,
            number,
        })
    }

    /// Whether there is no room for a mail more.
    pub(crate) fn is_full(&self) -> bool
        ensures { result ≡ is_full self.now }
    {
        self.texts >= MAX_STORED || self.mails.len() >= MAX_EVER_STORED
    }

    /// Stores a mail behind the others.
    pub(crate) fn push(&mut self, mail: Mail) -> Result<(), NoMemory>
        requires new { is_stored self.old mail.origin mail.number ≡ false }
        requires room { is_full self.old ≡ false }
        ensures ok { OnOk result (self.new ≡ self.old ++ mail ∷ []) }
        ensures err { OnErr result (self.new ≡ self.old) }
    {
        let name = MailName {
            origin: mail.origin,
            number: mail.number,
        };
        let more = texts_of(&mail);
        self.mails.insert(name, mail)?;
        self.texts += more;
        Ok(())
    }

    /// Whether the mail of that number from that node is stored and wasn't killed.
    pub(crate) fn has_text(&self, origin: &Call, number: u64) -> bool
        ensures { result ≡ is_readable (stored_mail self.now origin.now number) }
    {
        let name = MailName {
            origin: *origin,
            number,
        };
        match self.mails.get(&name) {
            Some(mail) => !mail.text.is_empty(),
            None => false,
        }
    }

    /// Lets the text of a mail go. False where it isn't stored, or was killed before: then nothing is changed.
    pub(crate) fn kill(&mut self, origin: &Call, number: u64) -> bool
        ensures answer { result ≡ is_readable (stored_mail self.old origin.now number) }
        ensures killed { self.new ≡ killed_in self.old origin.now number }
        ensures same { result ≡ false → self.new ≡ self.old }
    {
        if !self.has_text(origin, number) {
            return false;
        }
        let name = MailName {
            origin: *origin,
            number,
        };
        match self.mails.get_mut(&name) {
            Some(mail) => {
                mail.text.clear();
                self.texts -= 1;
                true
            }
            None => false,
        }
    }
}

/// One for a mail that has a text.
fn texts_of(mail: &Mail) -> usize
    ensures { result ≡ length (with_texts (mail.now ∷ [])) }
{
    if mail.text.is_empty() { 0 } else { 1 }
}

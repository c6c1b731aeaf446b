//! What a post has of letters and mails, and how each record changes it. Called by `post_mail` and `changing`.
ghost use Rattle.std.specs.Prelude.{◌≡◌, true, ◌==◌, ◌<◌, ◌≤◌, ◌^◌, ℕ, List, length, position, is_some, IfOk, IfSome};
ghost use Rattle.std.specs.List.{list_any};
ghost use Rattle.std.specs.Option.{option_copied};
ghost use Rattle.node_mail.specs.Lists as node_mail_lists;
ghost use Rattle.mail_box.specs.Boxes as boxes;
ghost use Rattle.mail_box.specs.Boxes.{BoxState, MailsStand, Goes};

use crate::letter::Letter;
use ax_address::Call;
use mail_records::{LetterText, Record};
use node_mail::Store;
use radio_base::{COUNT_MAX, NoMemory};
use std::alloc::Global;
use std::marker::Model;

mod applying;

/// The most letters that are kept at a post (this project's profile).
pub const MAX_LETTERS: usize = 4096;

/// What a post has of letters and mails: what the records say that were written down.
#[derive(Drop)]
pub struct Mails {
    alloc: Global,
    store: Store,
    letters: Vec<Letter>,
    /// The numbers of the letters that were read.
    read: Vec<u64>,
    /// The number of the last letter that came.
    given: u64,
}

impl Model for Mails {
    ghost use Rattle.mail_box.specs.Boxes.{MailsView};

    ghost Value = { MailsView };

    ghost view = { λ m. record { store = m.store; letters = m.letters.items; read = m.read.items; given = m.given } };
}

impl Mails {
    /// Nothing yet, at the post of this call.
    pub fn new(alloc: Global, own: Call) -> Mails
        ensures { MailsStand result (boxes.new_box own) }
    {
        Mails {
            alloc,
            store: Store::new(alloc, own),
            letters: Vec::new(alloc),
            read: Vec::new(alloc),
            given: 0,
        }
    }

    /// The mails of the post.
    pub fn store(&self) -> &Store
        ensures { (b : BoxState) → MailsStand self.now b → node_mail_lists.StandsFor result.now b.lists }
    {
        &self.store
    }

    /// The letters that are kept, the oldest first.
    pub fn letters(&self) -> &[Letter]
        ensures { (b : BoxState) → MailsStand self.now b → result.now ≡ b.letters }
    {
        &self.letters
    }

    /// The letter of this number, where it is kept.
    pub fn letter(&self, number: u64) -> Option<&Letter>
        ensures { (b : BoxState) → MailsStand self.now b →
            option_copied result ≡ boxes.letter_at (boxes.place_of number b.letters) b.letters }
    {
        match place_of(&self.letters, number) {
            Some(at) => self.letters.as_slice().get(at),
            None => None,
        }
    }

    /// Whether a letter of this number is kept.
    pub fn has_letter(&self, number: u64) -> bool
        ensures { (b : BoxState) → MailsStand self.now b → result ≡ is_some (boxes.place_of number b.letters) }
    {
        place_of(&self.letters, number).is_some()
    }

    /// Whether a letter of this number was read.
    pub fn is_read(&self, number: u64) -> bool
        ensures { (b : BoxState) → MailsStand self.now b → result ≡ boxes.has_number number b.read }
    {
        has_number(&self.read, number)
    }

    /// Whether a letter more may come.
    pub fn has_room(&self) -> bool
        ensures room { (b : BoxState) → MailsStand self.now b → result ≡ boxes.has_room b }
        ensures numbers { result ≡ true → self.now.given < 2 ^ 62 }
    {
        self.letters.len() < MAX_LETTERS && self.given < COUNT_MAX
    }

    /// The number of the last letter that came.
    pub fn last_letter(&self) -> u64
        ensures { (b : BoxState) → MailsStand self.now b → result ≡ b.given }
    {
        self.given
    }
}

/// The place of the letter of a number.
fn place_of(letters: &[Letter], number: u64) -> Option<usize>
    ensures place { result ≡ boxes.place_of number letters.now }
    ensures within { IfSome result (λ at. at < length letters.now) }
{
    letters.iter().position(|letter| letter.number == number)
}

fn has_number(numbers: &[u64], number: u64) -> bool
    ensures { result ≡ boxes.has_number number numbers.now }
{
    numbers.iter().any(|other| *other == number)
}

//! The text of a letter. Called by `record`, and by whoever reads or writes one.
ghost use Rattle.std.specs.Prelude.{◌≡◌, ◌≤◌, length, IfOk};

use std::alloc::{AllocError, Global};
use std::marker::Model;

/// The most octets of a letter (this project's profile).
pub const MAX_TEXT: usize = 1024;

/// The text of a letter: at most 1,024 octets.
#[derive(Debug, Drop)]
pub struct LetterText {
    octets: Vec<u8>,
}

impl Model for LetterText {
    ghost use Rattle.std.specs.Prelude.{List, ℕ, length, ◌≤◌};

    ghost Value = { List ℕ };

    ghost view = { λ t. t.octets.items };

    ghost invariant = { λ t. length t.octets.items ≤ 1024 };
}

impl LetterText {
    /// The text of these octets.
    pub fn from_slice(alloc: Global, octets: &[u8]) -> Result<LetterText, AllocError>
        requires { length octets.now ≤ 1024 }
        ensures { IfOk result (λ text. text ≡ octets.now) }
    {
        let octets = Vec::from_slice(alloc, octets)?;
        Ok(LetterText { octets })
    }

    /// Its octets.
    pub fn as_slice(&self) -> &[u8]
        ensures octets { result.now ≡ self.now }
        ensures short { length self.now ≤ 1024 }
    {
        self.octets.as_slice()
    }

    /// The same text once more.
    pub fn copy(&self, alloc: Global) -> Result<LetterText, AllocError>
        ensures { IfOk result (λ text. text ≡ self.now) }
    {
        LetterText::from_slice(alloc, self.octets.as_slice())
    }
}

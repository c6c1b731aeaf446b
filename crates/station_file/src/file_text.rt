//! Texts of a file. Used by `fault`, and by the files here that keep texts: `beacons`, `ports`, `posts` and `station`.
use std::alloc::{AllocError, Global};
use std::marker::Model;

/// A text of a file.
#[derive(Debug, Drop)]
pub struct FileText {
    text: String,
}

impl Model for FileText {
    ghost use Rattle.std.specs.Prelude.{ℕ, List, string_bytes};

    ghost Value = { List ℕ };

    ghost view = { λ t. string_bytes t.text };
}

impl FileText {
    ghost use Rattle.std.specs.Prelude.{◌≡◌, IfOk};

    /// A copy of the text.
    pub(crate) fn new(alloc: Global, text: &str) -> Result<FileText, AllocError>
        ensures { IfOk result (λ t. t ≡ text.now) }
    {
        Ok(FileText {
            text: String::from_str(alloc, text)?,
        })
    }

    /// The text.
    pub fn as_str(&self) -> &str
        ensures { result.now ≡ self.now }
    {
        self.text.as_str()
    }
}

//! The text that a trace becomes. Called by most files here.
ghost use Rattle.std.specs.Prelude.{◌≡◌, ◌++◌, [], OnOk};

use radio_base::{NoMemory, TextOut};
use std::alloc::Global;
use std::marker::Model;

/// The text so far, and where the memory for more of it comes from.
#[derive(Drop)]
pub(crate) struct Lines {
    alloc: Global,
    text: TextOut,
}

impl Model for Lines {
    ghost use Rattle.std.specs.Prelude.{List, ℕ};

    ghost Value = { List ℕ };

    ghost view = { λ l. l.text };
}

impl Lines {
    pub(crate) fn new(alloc: Global) -> Lines
        ensures { result ≡ [] }
    {
        Lines {
            alloc,
            text: TextOut::new(alloc),
        }
    }

    /// Where memory comes from.
    pub(crate) fn alloc(&self) -> Global {
        self.alloc
    }

    /// Appends a text.
    pub(crate) fn text(&mut self, text: &str) -> Result<(), NoMemory>
        ensures { OnOk result (self.new ≡ self.old ++ text.now) }
    {
        self.text.text(text)?;
        Ok(())
    }

    /// The whole text.
    pub(crate) fn into_text(self) -> TextOut
        ensures { result ≡ self }
    {
        let Lines { alloc: _, text } = self;
        text
    }
}

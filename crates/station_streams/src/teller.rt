//! What takes a stream in, answers it and tells of it, as a trait. Called by `reads`.
ghost use Rattle.std.specs.Prelude.{◌≡◌, ◌++◌, ◌∷◌, [], Bool, List, ℕ, OnOk};
ghost use Rattle.cmd_streams.specs.Streams.{Read, read_of};

use radio_base::{Moment, NoMemory, TextOut};

/// What takes a stream in read by read, answers each read, and tells of it.
pub trait Teller {
    /// From the first value to the second it has taken these reads, answered them with the text, and told one of the others of each.
    ghost took: { Self → Self → List Read → List ℕ → List (List ℕ) → Type 0 };

    /// So it has, and then ended, with the last of the others, where no more was wanted or, where that is false, it was.
    ghost ended: { Self → Self → Bool → List Read → List ℕ → List (List ℕ) → Type 0 };

    /// Whether no more is wanted.
    ghost over: { Self → Bool };

    /// Takes one read more, at the moment behind it. The answer and what is told come into texts that are empty.
    fn take(
        &mut self,
        bytes: &[u8],
        now: Moment,
        answer: &mut TextOut,
        told: &mut TextOut,
    ) -> Result<(), NoMemory>
        requires answer { answer.old ≡ [] }
        requires told { told.old ≡ [] }
        ensures takes { OnOk result ((first : Self) (reads : List Read) (text : List ℕ) (texts : List (List ℕ))
            → took first self.old reads text texts
            → took first self.new (reads ++ read_of bytes.now now.0 ∷ []) (text ++ answer.new) (texts ++ told.new ∷ [])) };

    /// Whether no more is wanted.
    fn is_over(&self) -> bool
        ensures { result ≡ over self.now };

    /// Ends, once no more is wanted or nothing more comes. The last answer, and what is told last, come into texts that are empty.
    fn end(&mut self, answer: &mut TextOut, told: &mut TextOut) -> Result<(), NoMemory>
        requires answer { answer.old ≡ [] }
        requires told { told.old ≡ [] }
        ensures ends { OnOk result ((first : Self) (reads : List Read) (text : List ℕ) (texts : List (List ℕ))
            → took first self.old reads text texts
            → ended first self.new (over self.old) reads (text ++ answer.new) (texts ++ told.new ∷ [])) };
}

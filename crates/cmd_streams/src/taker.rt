//! What takes a stream in, as a trait. Called by `streams`.
ghost use Rattle.std.specs.Prelude.{◌≡◌, ◌++◌, ◌∷◌, [], List, ℕ, OnOk};
ghost use Rattle.cmd_streams.specs.Streams.{Read, read_of};

use radio_base::{Moment, NoMemory, TextOut};

/// What takes a stream in read by read, and answers each read.
pub trait Taker {
    /// From the first value to the second it has taken these reads, and answered them with this text.
    ghost took: { Self → Self → List Read → List ℕ → Type 0 };

    /// Takes one read more, at the moment behind it, and adds the answer.
    fn take(&mut self, bytes: &[u8], now: Moment, answer: &mut TextOut) -> Result<(), NoMemory>
        ensures added { OnOk result ((more : List ℕ) × (answer.new ≡ answer.old ++ more)) }
        ensures takes { OnOk result ((first : Self) (reads : List Read) (text more : List ℕ)
            → answer.new ≡ answer.old ++ more → took first self.old reads text
            → took first self.new (reads ++ read_of bytes.now now.0 ∷ []) (text ++ more)) };
}

//! Where bytes go, as a trait. Called by `mem_sink`, and by `cmd_streams`, `tool_cmd` and crates above.
ghost use Rattle.std.specs.Prelude.{List, ℕ, Option};
ghost use Rattle.std.specs.Io.KnownBytes.{WriteAppends};
ghost use Rattle.radio_base.specs.Causes.{HasCause};
ghost use Rattle.radio_base.specs.Streams.{TakesSome};

use crate::Failed;

/// Where bytes go.
pub trait Sink {
    /// The bytes that were written, where it tells them.
    ghost written: { Self → Option (List ℕ) };

    /// How often a write has failed. A count that has reached 2^64 - 1 stays there.
    ghost faults: { Self → ℕ };

    /// Takes bytes from the front of the piece, at least one of a piece that isn't empty, and
    /// answers with how many these are. A write that fails takes nothing.
    fn write(&mut self, piece: &[u8]) -> Result<usize, Failed>
        ensures some { TakesSome result piece.now }
        ensures bytes { WriteAppends (written self.old) (written self.new) result piece.now }
        ensures cause { HasCause (faults self.old) (faults self.new) result };
}

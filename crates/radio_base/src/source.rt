//! Where bytes come from, as a trait. Called by `mem_source`, and by `cmd_streams`, `tool_cmd` and crates above.
ghost use Rattle.std.specs.Prelude.{List, ℕ, Option};
ghost use Rattle.std.specs.Io.{ReadsAtMost};
ghost use Rattle.std.specs.Io.KnownBytes.{ReadConsumes};
ghost use Rattle.radio_base.specs.Causes.{HasCause};
ghost use Rattle.radio_base.specs.Streams.{Noted};

use crate::Failed;

/// Where bytes come from.
pub trait Source {
    /// The bytes still to come, where it tells them.
    ghost left: { Self → Option (List ℕ) };

    /// The sizes of the reads that gave bytes, where it tells them.
    ghost reads: { Self → Option (List ℕ) };

    /// How often a read has failed. A count that has reached 2^64 - 1 stays there.
    ghost faults: { Self → ℕ };

    /// Fills the front of the buffer with the next bytes, and answers with how many these are.
    /// `Ok(0)` for a buffer that isn't empty is the end of input. A read that fails takes nothing.
    fn read(&mut self, buf: &mut [u8]) -> Result<usize, Failed>
        ensures bound { ReadsAtMost result buf.new }
        ensures bytes { ReadConsumes (left self.old) (left self.new) result buf.new }
        ensures sizes { Noted (reads self.old) (reads self.new) result }
        ensures cause { HasCause (faults self.old) (faults self.new) result };
}

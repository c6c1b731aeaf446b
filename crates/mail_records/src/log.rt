//! What a log of records is. Called by whoever writes records down.
ghost use Rattle.std.specs.Prelude.{◌≡◌, ◌⊎◌, ◌++◌, [], ◌∷◌, ℕ, List, IfOk, IfErr, OnOk, OnErr};
ghost use Rattle.mail_records.specs.declared.record.Record.{Record as Kept};
ghost use Rattle.mail_records.specs.Records.{IsNumbered};
ghost use Rattle.mail_records.specs.Logs.{HasCause};

use crate::log_failed::LogFailed;
use crate::record::Record;
use std::alloc::Global;

/// Where records are written down, one behind the other.
pub trait Log {
    /// The log is open and has these records, the oldest first.
    ghost holds: { Self → List Kept → Type 0 };

    /// What an opening finds where the program ends at this moment: a crash, a power cut, or its end.
    ghost may_find: { Self → List Kept → Type 0 };

    /// What it is kept on has so far given back what was written, and nobody else has written there.
    ghost is_honest: { Self → Type 0 };

    /// It may be used. Once it may not be, it has to be opened again.
    ghost is_open: { Self → Type 0 };

    /// How many times what it is kept on has failed, up to the largest number of 64 bits.
    ghost faults: { Self → ℕ };

    /// Writes a record behind all others. At `Ok` it is kept: whenever the program ends from then on, an opening finds it.
    fn append(&mut self, entry: &Record) -> Result<(), LogFailed>
        requires numbered { IsNumbered entry.now }
        ensures ok { is_honest self.new → OnOk result ((kept : List Kept) →
            holds self.old kept → holds self.new (kept ++ entry.now ∷ [])) }

        // Nothing has changed. Where the log isn't open any more, an opening finds the record or not, as `crash` says.
        ensures err { is_honest self.new → OnErr result (is_open self.new →
            (kept : List Kept) → holds self.old kept → holds self.new kept) }
        ensures cause { is_honest self.new → IfErr result (λ why.
            (kept : List Kept) → holds self.old kept → HasCause (faults self.old) (faults self.new) kept why) }

        // Where the program ends inside the call, an opening finds what it could have found before, or the record too.
        ensures crash { is_honest self.new → (kept found : List Kept) → holds self.old kept → may_find self.new found →
            may_find self.old found ⊎ (found ≡ kept ++ entry.now ∷ []) }
        ensures honest { is_honest self.new → is_honest self.old };

    /// All records, the oldest first.
    fn records(&mut self, alloc: Global) -> Result<Vec<Record>, LogFailed>
        ensures ok { is_honest self.new → IfOk result (λ records.
            (kept : List Kept) → holds self.old kept → records.items ≡ kept) }
        ensures same { is_honest self.new → OnOk result (
            (kept : List Kept) → holds self.old kept → holds self.new kept) }
        ensures cause { is_honest self.new → IfErr result (λ why.
            (kept : List Kept) → holds self.old kept → HasCause (faults self.old) (faults self.new) kept why) }
        ensures crash { is_honest self.new → (kept found : List Kept) → holds self.old kept →
            may_find self.new found → may_find self.old found }
        ensures honest { is_honest self.new → is_honest self.old };

    /// Where the program ends while the log is open, an opening finds what the log holds, and nothing else.
    ghost settled: { (log : Self) (kept found : List Kept) → holds log kept → may_find log found → found ≡ kept };
}

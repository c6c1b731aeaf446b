//! Records are written down in their order. Called by whoever has several.
ghost use Rattle.std.specs.Prelude.{◌≡◌, ◌≤◌, ◌++◌, ℕ, List, All, length, take, OnOk, IfErr};
ghost use Rattle.mail_records.specs.declared.record.Record.{Record as Kept};
ghost use Rattle.mail_records.specs.Records.{IsNumbered};
ghost use Rattle.mail_records.specs.Logs.{HasCause};

use crate::log::Log;
use crate::log_failed::LogFailed;
use crate::record::Record;

/// Writes records in their order. Wherever the program ends, an opening finds those from before and some of these: in
/// their order, none left out between, none in part.
pub fn append_all<L: Log>(log: &mut L, entries: &[Record]) -> Result<(), LogFailed>
    requires numbered { All IsNumbered entries.now }
    ensures ok { L.is_honest log.new → OnOk result ((kept : List Kept) →
        L.holds log.old kept → L.holds log.new (kept ++ entries.now)) }
    ensures crash { L.is_honest log.new → (kept found : List Kept) → L.holds log.old kept → L.may_find log.new found →
        (n : ℕ) × (n ≤ length entries.now) × (found ≡ kept ++ take n entries.now) }
    ensures cause { L.is_honest log.new → IfErr result (λ why. (kept : List Kept) → L.holds log.old kept →
        (n : ℕ) × (before : ℕ) × HasCause before (L.faults log.new) (kept ++ take n entries.now) why) }
{
    for entry in entries {
        log.append(entry)?;
    }
    Ok(())
}

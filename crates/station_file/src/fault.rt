//! What is wrong with a table, and where. Used by all files here that read a table, and by `refusal` and `told`.
ghost use Rattle.std.specs.Prelude.{◌≡◌, ◌≤◌, ℕ, length, Ok, Err, IfOk, IfErr, MatchResult};
ghost use Rattle.station_file.specs.Keys.{word_of};
ghost use Rattle.station_file.specs.Tables.{Tells, TellsOf, placed, fault_at};
ghost use Rattle.station_file.specs.Values.{seen};

use crate::file_key::FileKey;
use crate::file_text::FileText;
use crate::section::Section;
use crate::why::Why;
use std::alloc::{AllocError, AllocFailed, Global};

/// The first thing that is wrong with the tables of a file.
#[derive(Debug, Drop)]
pub struct Fault {
    /// The table.
    pub section: Section,
    /// The word of the key.
    pub key: FileText,
    /// What is wrong with it.
    pub why: Why,
}

/// Why tables weren't read.
#[derive(Debug, Drop)]
pub enum Stop {
    Refused(Fault),
    NoMemory,
}

impl From<AllocError> for Stop {
    ghost use Rattle.std.specs.Prelude.{◌≡◌};
    ghost use Rattle.station_file.specs.declared.fault.Stop.TheVariants.{NoMemory};

    ghost from_gives = { λ _ e. e ≡ NoMemory };

    fn from(_: AllocError) -> Self {
        Stop::NoMemory
    }
}

impl<T: Drop> From<AllocFailed<T>> for Stop {
    ghost use Rattle.std.specs.Prelude.{◌≡◌};
    ghost use Rattle.station_file.specs.declared.fault.Stop.TheVariants.{NoMemory};

    ghost from_gives = { λ _ e. e ≡ NoMemory };

    fn from(_: AllocFailed<T>) -> Self {
        Stop::NoMemory
    }
}

/// What is wrong with the key of this word.
pub fn refuse(alloc: Global, section: Section, word: &str, why: Why) -> Stop
    ensures { Tells result (fault_at section word.now why) }
{
    match FileText::new(alloc, word) {
        Ok(key) => Stop::Refused(Fault { section, key, why }),
        Err(_) => Stop::NoMemory,
    }
}

/// What was read of a key, or what is wrong with it.
pub fn at<T: Drop>(
    alloc: Global,
    section: Section,
    key: FileKey,
    read: Result<T, Why>,
) -> Result<T, Stop>
    ensures ok { IfOk result (λ x. read ≡ Ok x) }
    ensures err { IfErr result (λ e. (why : Why) × (read ≡ Err why) × Tells e (fault_at section (word_of key) why)) }
{
    match read {
        Ok(value) => Ok(value),
        Err(why) => Err(refuse(alloc, section, key.word(), why)),
    }
}

/// A copy of the text that was read of a key, or what is wrong with it.
pub fn text_at(
    alloc: Global,
    section: Section,
    key: FileKey,
    read: Result<&str, Why>,
) -> Result<FileText, Stop>
    ensures read { MatchResult result (λ t. placed section key (seen read.entry) ≡ Ok t)
        (λ e. TellsOf e (placed section key (seen read.entry))) }
    ensures short { (most : ℕ) → IfOk read.entry (λ s. length s.now ≤ most) → IfOk result (λ t. length t ≤ most) }
{
    match read {
        Ok(text) => Ok(FileText::new(alloc, text)?),
        Err(why) => Err(refuse(alloc, section, key.word(), why)),
    }
}

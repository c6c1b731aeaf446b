//! Why a log didn't do what was asked. Called by `log` and the logs.
ghost use Rattle.std.specs.Prelude.{◌≡◌};

use std::alloc::{AllocError, AllocFailed};

/// Why a log didn't do what was asked.
#[derive(Clone, Copy, Debug, PartialEq, Eq)]
pub enum LogFailed {
    /// There is no memory left.
    Memory,
    /// What it is kept on has failed, or is full. The log may have to be opened again.
    Disk,
    /// No more records can be numbered.
    Full,
    /// What stands at this place, from 1, is no record.
    Spoilt { place: u64 },
}

impl From<AllocError> for LogFailed {
    ghost use Rattle.mail_records.specs.declared.log_failed.LogFailed.TheVariants.{Memory};

    ghost from_gives = { λ _ e. e ≡ Memory };

    fn from(_: AllocError) -> Self {
        LogFailed::Memory
    }
}

impl<T: Drop> From<AllocFailed<T>> for LogFailed {
    ghost use Rattle.mail_records.specs.declared.log_failed.LogFailed.TheVariants.{Memory};

    ghost from_gives = { λ _ e. e ≡ Memory };

    fn from(_: AllocFailed<T>) -> Self {
        LogFailed::Memory
    }
}

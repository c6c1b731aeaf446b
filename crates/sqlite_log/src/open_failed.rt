//! Why a log wasn't opened. Called by `opening`.
use mail_records::LogFailed;
use std::fmt;

/// Why a log wasn't opened.
#[derive(Clone, Copy, Debug, PartialEq, Eq)]
pub enum OpenFailed {
    /// The file can't be opened or made.
    CannotOpen,
    /// Another program has it open.
    Busy,
    /// It is no SQLite database, or it is damaged.
    NoDatabase,
    /// It is another database: its tables aren't those of a log.
    Foreign,
    /// Its records weren't read, or its table wasn't made.
    Log(LogFailed),
}

impl fmt::Display for OpenFailed {
    fn fmt<W: fmt::Write>(&self, f: &mut fmt::Formatter<W>) -> fmt::Result {
        match self {
            OpenFailed::CannotOpen => f.write_str("cannot be opened"),
            OpenFailed::Busy => f.write_str("another program has it open"),
            OpenFailed::NoDatabase => f.write_str("no SQLite database, or a damaged one"),
            OpenFailed::Foreign => f.write_str("a database of something else"),
            OpenFailed::Log(LogFailed::Memory) => f.write_str("no memory"),
            OpenFailed::Log(LogFailed::Disk) => f.write_str("the disk failed or is full"),
            OpenFailed::Log(LogFailed::Full) => f.write_str("no more records can be numbered"),
            OpenFailed::Log(LogFailed::Spoilt { place }) => write!(f, "row {place} is no record"),
        }
    }
}

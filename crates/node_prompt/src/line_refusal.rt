//! Why a line asks for nothing that there is. Used by `command` and `prompt`.

/// Why a line asks for nothing that there is.
#[derive(Clone, Copy, Debug, PartialEq, Eq)]
pub enum LineRefusal {
    /// It has more than 80 bytes.
    TooLong,
    /// Its first word is no command.
    UnknownCommand,
    /// There are too few or too many words.
    WrongWords,
    /// A call is asked for, and the word is none.
    BadCall,
}

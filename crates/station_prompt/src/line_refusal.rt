//! Why a line asks for nothing that there is. Used by `command` and `mail_command`.

/// Why a line asks for nothing that there is: of a prompt whose first words are these.
#[derive(Clone, Copy, Debug)]
pub enum LineRefusal<'a, V> {
    /// Its first word, this one, is no form of a command.
    UnknownCommand(&'a [u8]),
    /// Its other words are none that this command has.
    WrongWords(V),
}

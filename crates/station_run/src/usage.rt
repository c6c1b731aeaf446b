//! What is said where the words are no command's. Used by `top`.

/// All commands with their words.
pub const USAGE: &str = "usage: wursthatch-station check FILE | run FILE [pair=I,D] | try FILE..\n";

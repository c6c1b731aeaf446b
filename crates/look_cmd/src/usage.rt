//! What is said where the words are no command's. Used by `top`.

/// All commands with their words.
pub(crate) const USAGE: &str = "usage: listen modulo=auto|8|128 | trace\n";

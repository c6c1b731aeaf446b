//! What is said where the words are no command's. Used by `top`.

/// All commands with their words.
pub(crate) const USAGE: &str =
    "usage: replay | node call=CALL alias=ALIAS [key=value] | frames modulo=8|128 | soak seed=N | life modulo=8|128 srej=0|1 delay=N | ip call=CALL addr=IP [route=IP/N,IP]\n";

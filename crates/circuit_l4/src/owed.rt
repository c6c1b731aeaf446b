//! What an end owes the other one. Used by `texts`.

/// What has to be put out once more: so many fragments from a number on.
#[derive(Clone, Copy, Debug, PartialEq, Eq)]
pub struct Owed {
    pub from: u64,
    pub many: u64,
}

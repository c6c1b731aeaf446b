//! Who sends a broadcast. Used by `entering`, `reports`, `rows` and `table`.
use ax_address::{Alias, Call};

/// What all reports of a broadcast have in common: who hears it of whom, and for how many rounds a report lives.
#[derive(Clone, Copy)]
pub(crate) struct Sender {
    pub own: Call,
    pub life: u8,
    pub neighbour: Call,
    pub alias: Alias,
    pub path_quality: u8,
}

//! The settings of an end of a circuit. Used by `calls`, `end` and `machine`, and by `circuit_table`, `node_core` and `node_settings`.

/// The settings of an end of a circuit. A time is in milliseconds, and at most 2^62 of them.
#[derive(Clone, Copy, Debug, PartialEq, Eq)]
pub struct EndConfig {
    /// How many fragments may be under way, from 1 to 127.
    pub window: u8,
    /// How long an answer is awaited.
    pub timeout: u64,
    /// How often an answer is asked for again.
    pub retries: u8,
    /// How long an end waits that was told to send no text.
    pub busy: u64,
    /// After how long without a word either way a circuit fails.
    pub inactive: u64,
}

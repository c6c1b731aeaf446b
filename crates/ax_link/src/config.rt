//! The settings of a link. Used by `calls` and `link`, and by `link_life`, `link_table` and crates above.

/// The settings of a link. A time is in milliseconds, and at most 2^62 of them.
#[derive(Clone, Copy, Debug, PartialEq, Eq)]
pub struct LinkConfig {
    /// How many payloads may be under way (k). 0 is the default of the modulus, 4 or 32; more than 7 or 127 counts as that,
    /// and with `srej` more than 4 or 64.
    pub window: u8,
    /// Whether a lost payload is asked for alone (SREJ), and later ones are kept; else all from it on are (REJ). Both
    /// stations have to agree on it.
    pub srej: bool,
    /// How long an answer is awaited (T1), in milliseconds.
    pub t1: u64,
    /// After how long a silent link is asked whether it stands (T3), in milliseconds.
    pub t3: u64,
    /// How often an answer is asked for again (N2).
    pub retries: u8,
}

//! How much a replay may bring. Used by `air`.

/// The most frames that may be in the air.
pub const MAX_FRAMES: usize = 100_000;

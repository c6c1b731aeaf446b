//! Moments, as counts of milliseconds. Used by `clock` and `millis`, and by `ax_link`, `link_life` and crates above.

/// A count of milliseconds.
#[derive(Clone, Copy, Debug, PartialEq, Eq, Hash, PartialOrd, Ord)]
pub struct Moment(pub u64);

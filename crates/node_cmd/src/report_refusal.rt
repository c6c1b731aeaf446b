//! Why no report is written. Used by `outcomes`.
use net_replay::What;
use radio_base::NoMemory;

/// Why there is nothing to write.
#[derive(Clone, Copy, Debug, PartialEq, Eq)]
pub enum ReportRefusal {
    /// The first bad line, counted from 1.
    BadLine { line: u32, what: What },
    /// A frame would be put in the air after the last that may be there.
    TooManyFrames,
    NoMemory,
}

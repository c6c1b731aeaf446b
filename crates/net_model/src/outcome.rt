//! What has become of an end. `ends` keeps it, and the crates of reports and traces read it.
use circuit_l4::EndFacts;

/// What has become of an end.
#[derive(Clone, Copy, Debug, PartialEq, Eq)]
pub enum Outcome {
    /// It is still held.
    Held,
    /// It ended, and is gone.
    Gone(EndFacts),
    /// A restart of its node took it away.
    Lost(EndFacts),
}

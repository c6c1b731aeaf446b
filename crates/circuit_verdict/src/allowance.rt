//! How many overtakers are too many. Used by `book`, `cause` and `verdict`, and by the replay.

/// How many overtakers are too many (this project's profile).
#[derive(Clone, Copy, Debug, PartialEq, Eq)]
pub enum Allowance {
    /// 128, whatever the window of the circuit.
    Fixed,
    /// 256 less twice the window of that end of the circuit which a request has opened.
    OfWindow,
}

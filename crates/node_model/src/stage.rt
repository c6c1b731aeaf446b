//! How far a session has come. Used by `node_core`.
use crate::circuit::Circuit;

/// How far a session has come.
#[derive(Clone, Copy, Debug, PartialEq, Eq)]
pub enum Stage {
    /// Lines of the user are commands.
    AtPrompt,
    /// A circuit is tried, and lines wait.
    Trying(Circuit),
    /// That circuit won't stand, and its end isn't gone yet.
    Failed(Circuit),
    /// Texts of the user go to the circuit, and its messages to the user.
    Connected(Circuit),
}

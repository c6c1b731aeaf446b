//! What a link puts out. Used by `link`, `machine` and `moves`, and by `link_life` and `link_table`.
use ax_frame::Control;
use radio_base::Payload;

/// A frame that a link puts out.
#[derive(Clone, Debug, Drop, PartialEq, Eq)]
pub struct LinkOut {
    /// Whether it is a command; else it is a response.
    pub command: bool,
    pub control: Control,
    /// There in an I frame alone.
    pub payload: Option<Payload>,
}

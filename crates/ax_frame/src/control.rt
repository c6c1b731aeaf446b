//! The kinds of frames, with their numbers and their P/F bit (AX.25 2.2, sections 4.2 and 4.3). Called by `read`, `show` and `write`.
ghost use Rattle.std.specs.Prelude.{◌≡◌};
ghost use Rattle.ax_frame.specs.Controls as controls;

/// What a frame is for (AX.25 2.2, section 4.3): its kind, with the poll or final bit `pf`, and where the
/// kind has them the send and receive sequence numbers N(S) and N(R), `ns` and `nr`.
#[derive(Clone, Copy, Debug, PartialEq, Eq)]
pub enum Control {
    /// Information.
    I { ns: u8, nr: u8, pf: bool },
    /// Receive ready.
    Rr { nr: u8, pf: bool },
    /// Receive not ready.
    Rnr { nr: u8, pf: bool },
    /// Reject.
    Rej { nr: u8, pf: bool },
    /// Selective reject.
    Srej { nr: u8, pf: bool },
    /// Set asynchronous balanced mode, with sequence numbers modulo 8.
    Sabm { pf: bool },
    /// Set asynchronous balanced mode extended, with sequence numbers modulo 128.
    Sabme { pf: bool },
    /// Disconnect.
    Disc { pf: bool },
    /// Disconnected mode.
    Dm { pf: bool },
    /// Unnumbered acknowledgement.
    Ua { pf: bool },
    /// Frame reject.
    Frmr { pf: bool },
    /// Unnumbered information.
    Ui { pf: bool },
    /// Exchange identification.
    Xid { pf: bool },
    /// Test.
    Test { pf: bool },
}

/// How a control field is laid out; the code is its octet with numbers and P/F bit 0.
#[derive(Clone, Copy)]
pub(crate) enum Format {
    Information { ns: u8, nr: u8, pf: bool },
    Supervisory { code: u8, nr: u8, pf: bool },
    Unnumbered { code: u8, pf: bool },
}

impl Control {
    pub(crate) fn format(&self) -> Format
        ensures exact { result ≡ controls.format_of self.now }
        ensures code { controls.CodeFits result }
    {
        use Format::{Supervisory, Unnumbered};
        match *self {
            Control::I { ns, nr, pf } => Format::Information { ns, nr, pf },
            Control::Rr { nr, pf } => Supervisory { code: 0x01, nr, pf },
            Control::Rnr { nr, pf } => Supervisory { code: 0x05, nr, pf },
            Control::Rej { nr, pf } => Supervisory { code: 0x09, nr, pf },
            Control::Srej { nr, pf } => Supervisory { code: 0x0D, nr, pf },
            Control::Sabm { pf } => Unnumbered { code: 0x2F, pf },
            Control::Sabme { pf } => Unnumbered { code: 0x6F, pf },
            Control::Disc { pf } => Unnumbered { code: 0x43, pf },
            Control::Dm { pf } => Unnumbered { code: 0x0F, pf },
            Control::Ua { pf } => Unnumbered { code: 0x63, pf },
            Control::Frmr { pf } => Unnumbered { code: 0x87, pf },
            Control::Ui { pf } => Unnumbered { code: 0x03, pf },
            Control::Xid { pf } => Unnumbered { code: 0xAF, pf },
            Control::Test { pf } => Unnumbered { code: 0xE3, pf },
        }
    }

    /// Whether frames of this kind carry a PID.
    pub(crate) fn has_pid(&self) -> bool
        ensures { result ≡ controls.has_pid self.now }
    {
        matches!(self, Control::I { .. } | Control::Ui { .. })
    }

    /// Whether frames of this kind carry information.
    pub(crate) fn takes_info(&self) -> bool
        ensures { result ≡ controls.takes_info self.now }
    {
        match self {
            Control::Frmr { .. } | Control::Xid { .. } | Control::Test { .. } => true,
            _ => self.has_pid(),
        }
    }
}

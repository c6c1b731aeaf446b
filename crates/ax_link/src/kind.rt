//! What a frame is to a link: its kind, with the two set-up commands told apart by the link's modulus. Called by `frame_in`.
ghost use Rattle.std.specs.Prelude.{◌≡◌};
ghost use Rattle.ax_link.specs.Kinds.{kind_of, set_up_kind};

use ax_frame::Control;
use radio_base::Modulus;

/// What a frame is on a link.
#[derive(Clone, Copy, Debug, PartialEq, Eq)]
pub enum Kind {
    I { ns: u8, nr: u8, pf: bool },
    Rr { nr: u8, pf: bool },
    Rnr { nr: u8, pf: bool },
    Rej { nr: u8, pf: bool },
    Srej { nr: u8, pf: bool },
    /// The set-up command of the link's modulus.
    SetUp { pf: bool },
    /// The set-up command of the other modulus.
    OtherSetUp { pf: bool },
    Disc { pf: bool },
    Dm { pf: bool },
    Ua { pf: bool },
    Frmr { pf: bool },
    Xid { pf: bool },
    /// What links don't speak of.
    Other,
}

impl Kind {
    pub(crate) fn of<M: Modulus>(command: bool, control: &Control) -> Kind
        ensures { result ≡ kind_of M.SIZE command control.now }
    {
        match *control {
            Control::I { ns, nr, pf } => Kind::I { ns, nr, pf },
            Control::Rr { nr, pf } => Kind::Rr { nr, pf },
            Control::Rnr { nr, pf } => Kind::Rnr { nr, pf },
            Control::Rej { nr, pf } => Kind::Rej { nr, pf },
            Control::Srej { nr, pf } => Kind::Srej { nr, pf },
            Control::Sabm { pf } => set_up(command, M::SIZE == 8, pf),
            Control::Sabme { pf } => set_up(command, M::SIZE != 8, pf),
            Control::Disc { pf } => Kind::Disc { pf },
            Control::Dm { pf } => Kind::Dm { pf },
            Control::Ua { pf } => Kind::Ua { pf },
            Control::Frmr { pf } => Kind::Frmr { pf },
            Control::Xid { pf } => Kind::Xid { pf },
            Control::Ui { .. } | Control::Test { .. } => Kind::Other,
        }
    }
}

/// A SABM or SABME: no response sets a link up.
fn set_up(command: bool, own_modulus: bool, pf: bool) -> Kind
    ensures { result ≡ set_up_kind command own_modulus pf }
{
    if !command {
        Kind::Other
    } else if own_modulus {
        Kind::SetUp { pf }
    } else {
        Kind::OtherSetUp { pf }
    }
}

//! A frame as it comes from the other station. Called by `arrivals` and `link`.
ghost use Rattle.std.specs.Prelude.{◌≡◌, true, false, IfSome};
ghost use Rattle.std.specs.Option.{option_map};
ghost use Rattle.ax_link.specs.Kinds.{frame_in};
ghost use Rattle.ax_link.specs.Calls.{brought, frame_come};

use crate::i_frame::IFrame;
use crate::kind::Kind;
use crate::supervisory::Supervisory;
use ax_frame::Control;
use radio_base::{MAX_INFO, Modulus};

/// A frame that has come. Its information stays where it was read.
#[derive(Drop)]
pub(crate) struct FrameIn<'a> {
    /// Whether it is a command; else it is a response.
    pub(crate) command: bool,
    pub(crate) kind: Kind,
    pub(crate) pid: Option<u8>,
    pub(crate) info: &'a [u8],
}

impl<'a> FrameIn<'a> {
    pub(crate) fn of<M: Modulus>(
        command: bool,
        control: &Control,
        pid: Option<u8>,
        info: &'a [u8],
    ) -> FrameIn<'a>
        ensures { frame_come result ≡ frame_in M.SIZE command control.now pid info.now }
    {
        let kind = Kind::of::<M>(command, control);
        FrameIn {
            command,
            kind,
            pid,
            info,
        }
    }

    /// What an I frame with these numbers brings. One without a PID, or with more than 256 octets of information, brings nothing.
    pub(crate) fn brings(&self, ns: u8, pf: bool) -> Option<IFrame<'a>>
        ensures payload { option_map brought result ≡ (frame_come self.now).payload }
        ensures numbers { IfSome result (λ i. (i.ns ≡ ns) × (i.pf ≡ pf)) }
    {
        match self.pid {
            Some(pid) if self.info.len() <= MAX_INFO => Some(IFrame {
                ns,
                pf,
                pid,
                info: self.info,
            }),
            _ => None,
        }
    }

    /// What an RR says.
    pub(crate) fn ready(&self, pf: bool) -> Supervisory
        ensures { result ≡ record { command = self.now.command; busy = false; reject = false; pf = pf } }
    {
        Supervisory {
            command: self.command,
            busy: false,
            reject: false,
            pf,
        }
    }

    /// What an RNR says: the other station is busy.
    pub(crate) fn not_ready(&self, pf: bool) -> Supervisory
        ensures { result ≡ record { command = self.now.command; busy = true; reject = false; pf = pf } }
    {
        Supervisory {
            busy: true,
            ..self.ready(pf)
        }
    }

    /// What a REJ says: all that isn't acknowledged is asked for.
    pub(crate) fn reject(&self, pf: bool) -> Supervisory
        ensures { result ≡ record { command = self.now.command; busy = false; reject = true; pf = pf } }
    {
        Supervisory {
            reject: true,
            ..self.ready(pf)
        }
    }
}

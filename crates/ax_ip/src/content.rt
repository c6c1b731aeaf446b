//! What a frame carries for a forwarder. Called by `forwarder` and `packets`.
ghost use Rattle.std.specs.Prelude.{◌≡◌};
ghost use Rattle.ax_frame.specs.Frames.{view as frame_of};
ghost use Rattle.ax_ip.specs.Machine as contents;

use crate::out::{ARP_PID, IP_PID};
use ax_address::{Address, Call};
use ax_frame::{Control, FrameView};

/// What a frame carries for a station.
#[derive(Clone, Copy, Debug, PartialEq, Eq)]
pub(crate) enum Content {
    Packet,
    Arp,
    Nothing,
}

/// The call to which requests for an address go, as AX.25 2.2 has it for frames to everyone (section 3.12).
#[tactic(auto, using(crate::proofs::Names::everyone_is_call))]
pub(crate) fn everyone() -> Call
    ensures { result ≡ contents.everyone }
{
    Call::from_letters(*b"QST   ", 0)
}

/// What the frame carries for the station `own`: a UI frame that every repeater has repeated.
pub(crate) fn content_of(frame: &FrameView<'_>, own: &Call) -> Content
    ensures { result ≡ contents.content_of own.now (frame_of frame.now) }
{
    match frame.control {
        Control::Ui { .. } if all_repeated(frame.head.path.as_slice()) => {
            by_pid(frame.pid, &frame.head.dest.call, own)
        }
        _ => Content::Nothing,
    }
}

fn all_repeated(path: &[Address]) -> bool
    ensures { result ≡ contents.all_repeated path.now }
{
    path.iter().all(|repeater| repeater.bit7)
}

fn by_pid(pid: Option<u8>, dest: &Call, own: &Call) -> Content
    ensures { result ≡ contents.by_pid pid dest.now own.now }
{
    match pid {
        Some(IP_PID) if dest == own => Content::Packet,
        Some(ARP_PID) if dest == own || *dest == everyone() => Content::Arp,
        _ => Content::Nothing,
    }
}

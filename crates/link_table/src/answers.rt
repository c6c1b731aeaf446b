//! What the node itself answers, where no link does (AX.25 2.2, section 6.3). Called by `held_links`.
ghost use Rattle.std.specs.Prelude.{◌≡◌, ◌++◌, [], None, Some, false, map, OnOk};
ghost use Rattle.ax_frame.specs.Frames.{HasParts, frame as whole, view};
ghost use Rattle.link_table.specs.Calls.{back, refusal_of, source};
ghost use Rattle.link_table.specs.Table.{written};
ghost use Rattle.link_table.specs.Frames.{fitting, head_to, sent};

use crate::pending::{Frames, put};
use crate::route::LinkRoute;
use ax_address::Call;
use ax_frame::{Control, FrameView};
use digi_path::reversed;
use radio_base::{M8, NoMemory};

/// The way back to the station from which a frame came.
pub(crate) fn way_back(own: &Call, frame: &FrameView<'_>) -> LinkRoute
    ensures own { result.own ≡ own.now }
    ensures peer { result.peer ≡ source (view frame.now) }
    ensures path { result.path ≡ back (view frame.now) }
{
    LinkRoute {
        own: *own,
        peer: frame.head.source.call,
        path: reversed(&frame.head.path),
    }
}

/// Answers a frame over the way back.
pub(crate) fn answer(
    frames: &mut Frames,
    own: &Call,
    frame: &FrameView<'_>,
    control: &Control,
    info: &[u8],
) -> Result<(), NoMemory>
    requires { HasParts 8 control.now None info.now }
    ensures { OnOk result (frames.new.items ≡ frames.old.items ++ map written (fitting (sent 8
        (whole (head_to own.now (source (view frame.now)) (back (view frame.now)) false) control.now None info.now)))) }
{
    let head = way_back(own, frame).head(false);
    put::<M8>(frames, &head, control, None, info)?;
    Ok(())
}

/// The P/F bit of the DM with which a station without a link answers a command, where it answers.
pub(crate) fn refusal(control: &Control) -> Option<bool>
    ensures { result ≡ refusal_of control.now }
{
    match *control {
        Control::Disc { pf } | Control::Xid { pf } => Some(pf),
        Control::I { pf, .. }
        | Control::Rr { pf, .. }
        | Control::Rnr { pf, .. }
        | Control::Rej { pf, .. }
        | Control::Srej { pf, .. } => { if pf { Some(true) } else { None } }
        _ => None,
    }
}

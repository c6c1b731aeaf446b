//! The frames of a link go out (AX.25 2.2, section 3). Called by `link_of`.
ghost use Rattle.std.specs.Prelude.{◌≡◌, ◌++◌, [], map, OnOk};
ghost use Rattle.ax_frame.specs.Controls.{IsLinkModulus};
ghost use Rattle.ax_link.specs.Bounds.{CanBeSent};
ghost use Rattle.ax_link.specs.Standing.{frame_of};
ghost use Rattle.link_table.specs.Table.{written};
ghost use Rattle.link_table.specs.Frames.{fitting, sent_by};
ghost use Rattle.link_table.specs.Standing.{gone_out};

use crate::pending::{Frames, put};
use crate::route::LinkRoute;
use ax_link::{Link, LinkOut};
use radio_base::{Modulus, NoMemory};

/// Puts out all frames of a link, each from where it stands.
pub(crate) fn emit<M: Modulus>(
    link: &mut Link<M>,
    route: &LinkRoute,
    frames: &mut Frames,
) -> Result<(), NoMemory>
    requires modulus { IsLinkModulus M.SIZE }
    ensures link { OnOk result (link.new ≡ record link.old { outs = [] }) }
    ensures frames { OnOk result (frames.new.items ≡ frames.old.items ++ gone_out M.SIZE route.now link.old) }
{
    while let Some(out) = link.first_out() {
        emit_one::<M>(frames, route, out)?;
        let _ = link.next_out();
    }
    Ok(())
}

/// Puts out one frame of a link.
fn emit_one<M: Modulus>(
    frames: &mut Frames,
    route: &LinkRoute,
    out: &LinkOut,
) -> Result<(), NoMemory>
    requires modulus { IsLinkModulus M.SIZE }
    requires can_be_sent { CanBeSent M.SIZE out.now }
    ensures { OnOk result (frames.new.items
        ≡ frames.old.items ++ map written
        (fitting (sent_by M.SIZE route.now.own route.now.peer route.now.path (frame_of M.SIZE out.now)))) }
{
    let head = route.head(out.command);
    match &out.payload {
        Some(payload) => put::<M>(
            frames,
            &head,
            &out.control,
            Some(payload.pid),
            payload.info.as_slice(),
        ),
        None => put::<M>(frames, &head, &out.control, None, &[]),
    }
}

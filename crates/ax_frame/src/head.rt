//! Who a frame is to and from, and by whom (AX.25 2.2, sections 3.12 and 6.1.2). Called by `frame`, `read`, `show` and `write`, and by
//! `link_life`, `link_table` and crates above.
ghost use Rattle.std.specs.Prelude.{◌≡◌};
ghost use Rattle.ax_frame.specs.FrameText as texts;

use ax_address::{Address, Path};

/// Who a frame is to and from, and by which repeaters (AX.25 2.2, section 3.12).
#[derive(Clone, Debug, Drop, PartialEq, Eq)]
pub struct Head {
    pub dest: Address,
    pub source: Address,
    pub path: Path,
}

/// Whether the frame is a command (AX.25 2.2, section 6.1.2). By this project's profile it is also one
/// where both C bits are equal, as in frames of AX.25 before version 2.
pub fn is_command(head: &Head) -> bool
    ensures { result ≡ texts.is_command head.now }
{
    head.dest.bit7 || !head.source.bit7
}

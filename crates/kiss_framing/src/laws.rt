//! What holds of every stream and every frame. Called by `feeding` of `node_core`, and by the laws of the replay.
ghost use Rattle.std.specs.Prelude.{◌≡◌};
ghost use Rattle.kiss_framing.specs.Laws.{BytesAdd, FendEnds, FendParts, FramesReadBack, LongFramesAreTooLong};

use crate::{FEND, FESC, LONGEST, TFEND, TFESC};

/// Each byte of a stream adds its item to those before it: a `FEND` the frame of a piece of 1 to 1,024 unescaped
/// bytes, and the 1,025th byte of a piece that it is too long.
pub fn bytes_add()
    ensures { BytesAdd }
{}

/// A `FEND` ends the piece that is open: nothing is held behind it.
pub fn fend_ends()
    ensures { FendEnds }
{}

/// Behind a `FEND` a stream begins anew.
pub fn fend_parts()
    ensures { FendParts }
{}

/// A frame as it is sent reads back as this frame and nothing else.
pub fn frames_read_back()
    ensures { FramesReadBack }
{}

/// A frame of more than 1,023 bytes behind its type byte is too long as it is sent.
pub fn long_frames()
    ensures { LongFramesAreTooLong }
{}

/// The bytes that KISS names, and the most bytes of a frame, 1,024.
pub fn numbers()
    ensures fend { FEND ≡ 0xC0 }
    ensures fesc { FESC ≡ 0xDB }
    ensures tfend { TFEND ≡ 0xDC }
    ensures tfesc { TFESC ≡ 0xDD }
    ensures longest { LONGEST ≡ 1024 }
{}

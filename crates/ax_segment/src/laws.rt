//! What holds of every message and its segments. Called by the laws of `link_table`.
ghost use Rattle.std.specs.Prelude.{◌≡◌};
ghost use Rattle.ax_segment.specs.Joining.{KeepsFew, StaysWithin};
ghost use Rattle.ax_segment.specs.Laws.{PiecesAreFull, SegmentsJoin, JoinedPrefix};

use crate::{FIRST_BIT, FULL_PIECE, LONGEST_MESSAGE};

/// The pieces of a text, one after another, are this text. All but the last are full, and the last isn't empty.
pub fn pieces_are_full()
    ensures { PiecesAreFull }
{}

/// A joiner that holds nothing answers the segments of a message by `More`, and the last by `Whole` with this message
/// and its PID. Then it holds nothing.
pub fn segments_join()
    ensures { SegmentsJoin }
{}

/// However many segments of a run of messages have come, in order, the messages that were joined are the first ones
/// of those that were split.
pub fn joined_prefix()
    ensures { JoinedPrefix }
{}

/// What a joiner holds, with what may still come behind it, is at most 32,639 octets, as long as each segment has at most 256. So it
/// keeps at most so many.
pub fn kept_within()
    ensures stays { StaysWithin }
    ensures few { KeepsFew }
{}

/// The bit of a first segment, the most octets behind the first one of a segment, and the most bytes of a message.
pub fn numbers()
    ensures first_bit { FIRST_BIT ≡ 0x80 }
    ensures full_piece { FULL_PIECE ≡ 255 }
    ensures longest { LONGEST_MESSAGE ≡ 32639 }
{}

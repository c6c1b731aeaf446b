//! Long messages as segments: a message that is too long for one information field, cut into several and joined again.
//!
//! The octets of a segment are this project's own layout. Each is the information field of a frame with PID 08,
//! which marks a segment (AX.25 2.2, section 3.4). Its first octet has the count of the segments still to come in
//! bits 6 to 0, and bit 7 set in the first segment. The first segment's second octet is the PID of the message. Then
//! come the message's bytes: up to 254 in the first segment, up to 255 in each other, and all but the last are full.
#![tactic(auto)]

mod gathered;
mod joined;
mod joiner;
pub mod laws;
mod split;
mod whole;

pub use joined::Joined;
pub use joiner::Joiner;
pub use split::{Split, SplitRefusal};

/// Set in the first octet of a first segment.
pub const FIRST_BIT: u8 = 0x80;
/// The most octets behind the first one of a segment.
pub const FULL_PIECE: usize = 255;
/// The most bytes of a message: a first segment and 127 others carry these.
pub const LONGEST_MESSAGE: usize = 32_639;

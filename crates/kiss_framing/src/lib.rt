//! KISS framing (Chepponis and Karn, "The KISS TNC"): the frames of a byte stream, and frames as bytes.
//!
//! A frame is a type byte, with the port in its high and the command in its low four bits, and a payload. On the
//! stream `FEND` stands before and behind it, and in it `FESC TFEND` stands for `FEND` and `FESC TFESC` for `FESC`.
//! No call takes memory.
#![tactic(auto)]

mod deframer;
mod enframing;
mod item;
pub mod laws;
mod piece;

pub use deframer::Deframer;
pub use enframing::{Full, enframe};
pub use item::KissItem;

/// Ends a frame, and a piece of the stream.
pub const FEND: u8 = 0xC0;
/// Begins an escape of two bytes.
pub const FESC: u8 = 0xDB;
/// Behind `FESC`, it stands for `FEND`.
pub const TFEND: u8 = 0xDC;
/// Behind `FESC`, it stands for `FESC`.
pub const TFESC: u8 = 0xDD;
/// The most unescaped bytes that a frame may have, its type byte among them (this project's profile).
pub const LONGEST: usize = 1024;

//! Repeaters: what a station does with a frame by the path that it travels, and the way back (AX.25 2.2, section 3.12).
//!
//! The path of a frame lists its repeaters (digipeaters) in the order in which they repeat it. Bit 7 of a repeater's
//! address is its H bit, "has been repeated": the repeater itself sets it. No call takes memory.
#![tactic(auto)]

mod digi_step;
mod h_bit;
pub mod laws;
mod reversal;

pub use digi_step::{DigiStep, step};
pub use h_bit::set_h_bit;
pub use reversal::reversed;

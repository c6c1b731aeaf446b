//! Frames of AX.25 2.2, read from octets and written to them.
#![tactic(auto)]

mod control;
mod frame;
mod head;
pub mod laws;
mod read;
mod show;
mod write;

pub use control::Control;
pub use frame::{Behind, FrameBytes, FrameRefusal, FrameView, Full, MAX_FRAME};
pub use head::{Head, is_command};
pub use read::{read_behind, read_frame, read_head};
pub use show::show_frame;
pub use write::write_frame;

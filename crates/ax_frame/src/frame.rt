//! A frame that is lent from its octets, and why octets are none. Used by `read`, `show` and `write`, and by `link_life`, `ax_ip` and
//! crates above.
use crate::{Control, Head};
use arrayvec::ArrayVec;

/// A frame whose information lies where the frame was read from.
#[derive(Debug, Drop, PartialEq, Eq)]
pub struct FrameView<'a> {
    pub head: Head,
    pub control: Control,
    /// There for I and UI alone.
    pub pid: Option<u8>,
    pub info: &'a [u8],
}

/// What stands behind the head of a frame: the control field, the PID and the information, which lies where it was read from.
#[derive(Debug, Drop, PartialEq, Eq)]
pub struct Behind<'a> {
    pub control: Control,
    /// There for I and UI alone.
    pub pid: Option<u8>,
    pub info: &'a [u8],
}

/// The most octets of a frame: those that a frame of KISS has beside its type byte (this project's profile).
pub const MAX_FRAME: usize = 1023;

/// Room for the octets of a frame.
pub type FrameBytes = ArrayVec<u8, MAX_FRAME>;

/// Why octets are no frame: the first octet that can't stand at its place, or that is missing. Places
/// count octets from 0.
#[derive(Clone, Copy, Debug, PartialEq, Eq)]
pub enum FrameRefusal {
    /// The octets end at `at`, where another must stand.
    Short { at: usize },
    /// The octet at `at` can't stand in its address, or is octet 6 with the extension bit set.
    BadCall { at: usize },
    /// The eighth repeater isn't the last address.
    TooManyRepeaters,
    /// The octet at `at` begins no control field.
    BadControl { at: usize },
    /// The octets end at `at`, where the PID must stand.
    NoPid { at: usize },
    /// At `at` stands an octet, behind a control field of a kind without information.
    ExtraInfo { at: usize },
}

/// The frame has more than 1,023 octets.
#[derive(Clone, Copy, Debug, PartialEq, Eq)]
pub struct Full;

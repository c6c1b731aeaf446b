//! What an information frame carries. The machines of links make theirs by `Payload::of`. Used by `link_life`, `link_table` and all crates
//! that carry payloads.
ghost use Rattle.std.specs.Prelude.{◌≡◌, ◌≤◌, length};

use arrayvec::ArrayVec;

/// The protocol of a text (AX.25 2.2, section 3.4) that belongs to NET/ROM.
pub const NETROM_PID: u8 = 0xCF;
/// The protocol of a text that belongs to no layer 3.
pub const TEXT_PID: u8 = 0xF0;
/// The protocol of a segment of a longer message.
pub const SEGMENT_PID: u8 = 0x08;

/// The most octets of information in one information frame (the N1 of AX.25 2.2).
pub const MAX_INFO: usize = 256;

/// What one information frame carries: the protocol of its text (AX.25 2.2, section 3.4) and at most 256 octets.
///
/// The default is an empty text of protocol 0: what an unused place of a buffer holds.
#[derive(Clone, Debug, Default, Drop, PartialEq, Eq)]
pub struct Payload {
    pub pid: u8,
    pub info: ArrayVec<u8, MAX_INFO>,
}

impl Payload {
    /// A payload of these octets, which are put where it stands, so that they are copied once.
    pub fn of(pid: u8, info: &[u8]) -> Payload
        requires { length info.now ≤ 256 }
        ensures { result ≡ record { pid = pid; info = record { items = info.now } } }
    {
        let mut payload = Payload {
            pid,
            info: ArrayVec::new(),
        };
        let _ = payload.info.try_extend_from_slice(info);
        payload
    }
}

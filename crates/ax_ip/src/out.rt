//! What a forwarder sends. Used by most files here, and by `tool_cmd`.
use arrayvec::ArrayVec;
use ax_address::Call;

/// The PID of packets (AX.25 2.2, section 3.4).
pub const IP_PID: u8 = 0xCC;
/// The PID of messages of ARP (AX.25 2.2, section 3.4).
pub const ARP_PID: u8 = 0xCD;

/// Room for a packet.
pub(crate) type Info = ArrayVec<u8, 256>;

/// The information of a UI frame, and whom it goes to.
#[derive(Clone, Debug, Drop, PartialEq, Eq)]
pub struct IpOut {
    pub to: Call,
    /// 0xCC for a packet, and 0xCD for a message of ARP.
    pub pid: u8,
    pub info: ArrayVec<u8, 256>,
}

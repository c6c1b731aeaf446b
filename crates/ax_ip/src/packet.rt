//! The header of a packet (RFC 791, section 3.1). Called by `echo`, `onward` and `packets`, and by `frame_lines`.
ghost use Rattle.std.specs.Prelude.{◌≡◌, ◌≤◌, length, IfOk, Ok};
ghost use Rattle.ax_ip.specs.Packets as packets;

use crate::numbers::{long, word};
use crate::sums::is_right;

/// What a packet's header says.
#[derive(Clone, Copy, Debug, PartialEq, Eq)]
pub struct PacketHead {
    pub source: u32,
    pub dest: u32,
    /// How often the packet may still be forwarded, and once more.
    pub ttl: u8,
    /// What the data belongs to; 1 is ICMP.
    pub protocol: u8,
    /// The octets of the header.
    pub header: usize,
    /// The octets of the packet: its header and its data.
    pub total: usize,
}

/// Why octets are no packet. What stands first comes first.
#[derive(Clone, Copy, Debug, PartialEq, Eq)]
pub enum PacketRefusal {
    /// There are fewer than 20 octets.
    Short,
    /// There are more than 256 octets.
    TooLong,
    /// The version isn't 4.
    BadVersion,
    /// The header has fewer than 20 octets, or more than there are.
    BadHeader,
    /// The packet has fewer octets than its header, or more than there are.
    BadLength,
    /// The header's checksum is wrong.
    BadSum,
}

/// The header of the packet that these octets begin with, or why they begin with none. Octets behind the packet are not
/// looked at.
pub fn read_packet(bytes: &[u8]) -> Result<PacketHead, PacketRefusal>
    // What is read is laid out so.
    ensures found { IfOk result (λ head. packets.SpellsPacket head bytes.now) }

    // What is laid out so is read.
    ensures only { (head : packets.PacketHead) → packets.SpellsPacket head bytes.now → result ≡ Ok head }

    // Which refusal it is.
    ensures exact { result ≡ packets.packet_at bytes.now }
{
    if bytes.len() < 20 {
        return Err(PacketRefusal::Short);
    }
    if bytes.len() > 256 {
        return Err(PacketRefusal::TooLong);
    }
    if bytes[0] / 16 != 4 {
        return Err(PacketRefusal::BadVersion);
    }
    let header = 4 * (bytes[0] % 16) as usize;
    if header < 20 || header > bytes.len() {
        return Err(PacketRefusal::BadHeader);
    }
    let total = word(bytes, 2) as usize;
    if total < header || total > bytes.len() {
        return Err(PacketRefusal::BadLength);
    }
    if !is_right(&bytes[..header]) {
        return Err(PacketRefusal::BadSum);
    }
    Ok(PacketHead {
        source: long(bytes, 12),
        dest: long(bytes, 16),
        ttl: bytes[8],
        protocol: bytes[9],
        header,
        total,
    })
}

//! Echo requests and their replies (RFC 792, "Echo or Echo Reply Message"). Called by `packets`.
ghost use Rattle.std.specs.Prelude.{◌≡◌, ◌≤◌, ◌++◌, length};
ghost use Rattle.ax_ip.specs.Packets.{PacketHead};
ghost use Rattle.ax_ip.specs.Machine as echoes;

use crate::numbers::word;
use crate::onward::summed;
use crate::out::Info;
use crate::packet::PacketHead;
use crate::sums::is_right;

/// The packet, which has no options and is no fragment, is an echo request with the right checksum.
pub(crate) fn is_request(head: &PacketHead, packet: &[u8]) -> bool
    requires header { 20 ≤ length packet.now }
    requires few { length packet.now ≤ 256 }
    ensures { result ≡ echoes.is_request head.now packet.now }
{
    if head.header != 20
        || head.protocol != 1
        || word(packet, 6) % 0x4000 != 0
        || packet.len() < 28
    {
        return false;
    }
    packet[20] == 8 && packet[21] == 0 && is_right(&packet[20..])
}

/// Puts the reply to an echo request in place of what the buffer holds.
pub(crate) fn put_reply(packet: &[u8], info: &mut Info)
    requires header { 28 ≤ length packet.now }
    requires few { length packet.now ≤ 256 }
    ensures { info.new.items ≡ echoes.reply packet.now }
{
    let front = [
        0x45, packet[1], packet[2], packet[3], packet[4], packet[5], 0, 0, 64, 1,
    ];
    let back = [
        packet[16], packet[17], packet[18], packet[19], packet[12], packet[13], packet[14],
        packet[15],
    ];
    info.clear();
    summed(info, &front, &back);
    summed(info, &[0, 0], &packet[24..]);
}

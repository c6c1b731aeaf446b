//! A packet on its way: its time to live is one less, and its checksum follows (RFC 791, section 3.2). Called by `echo` and `packets`.
ghost use Rattle.std.specs.Prelude.{◌≡◌, ◌+◌, ◌%◌, ◌<◌, ◌≤◌, ◌++◌, length};
ghost use Rattle.ax_ip.specs.Packets.{PacketHead};
ghost use Rattle.ax_ip.specs.Packets as sums;
ghost use Rattle.ax_ip.specs.Machine as packets;

use crate::numbers::{push_octets, word_octets};
use crate::out::Info;
use crate::packet::PacketHead;
use crate::sums::{checksum, word_sum};

/// Puts the packet with a time to live of one less in place of what the buffer holds.
pub(crate) fn put_onward(head: &PacketHead, packet: &[u8], info: &mut Info)
    requires options { 20 ≤ head.now.header }
    requires header { head.now.header ≤ length packet.now }
    requires few { length packet.now ≤ 256 }
    requires alive { 1 < head.now.ttl }
    ensures { info.new.items ≡ packets.onward head.now packet.now }
{
    info.clear();
    push_octets(info, packet);
    age(info.as_mut_slice(), head);
}

/// Takes one from the packet's time to live.
fn age(packet: &mut [u8], head: &PacketHead)
    requires options { 20 ≤ head.now.header }
    requires header { head.now.header ≤ length packet.old }
    requires few { length packet.old ≤ 256 }
    requires alive { 1 < head.now.ttl }
    ensures { packet.new ≡ packets.onward head.now packet.old }
{
    packet[8] = head.ttl - 1;
    let sum = checksum(word_sum(&packet[..10]) + word_sum(&packet[12..head.header]));
    let [high, low] = word_octets(sum);
    packet[10] = high;
    packet[11] = low;
}

/// Appends octets with their checksum between them.
#[tactic(auto, using(crate::proofs::Words::word_sum_append))]
pub(crate) fn summed(info: &mut Info, front: &[u8], back: &[u8])
    requires room { length info.old.items + length front.now + 2 + length back.now ≤ 256 }
    requires even { length front.now % 2 ≡ 0 }
    ensures octets { info.new.items ≡ info.old.items ++ sums.summed front.now back.now }
    ensures len { length info.new.items ≡ length info.old.items + length front.now + 2 + length back.now }
{
    let sum = checksum(word_sum(front) + word_sum(back));
    push_octets(info, front);
    push_octets(info, &word_octets(sum));
    push_octets(info, back);
}

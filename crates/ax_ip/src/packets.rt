//! Packets at a forwarder (RFC 791, section 2.4). Called by `forwarder`.
ghost use Rattle.std.specs.Prelude.{◌≡◌, ◌<◌, ◌≤◌, length, None};
ghost use Rattle.ax_ip.specs.Machine as machine;
ghost use Rattle.ax_ip.specs.Packets as packets;

use crate::arp::Arp;
use crate::content::everyone;
use crate::echo::{is_request, put_reply};
use crate::forwarder::Forwarder;
use crate::ip_done::{IpDone, IpWhy};
use crate::messages::put_message;
use crate::neighbours::call_of;
use crate::onward::put_onward;
use crate::out::{ARP_PID, IP_PID};
use crate::packet::{PacketHead, read_packet};
use crate::routes::{longest, next_hop};
use ax_address::Call;

impl Forwarder {
    pub(crate) fn take_packet(&mut self, source: &Call, info: &[u8]) -> IpDone
        requires fetched { machine.waiting self.old ≡ None }
        ensures { machine.Does
            (machine.packet_turn (machine.state self.old) source.now info.now (packets.packet_at info.now))
            result self.old self.new }
    {
        match read_packet(info) {
            Ok(head) => self.take_whole(source, &head, &info[..head.total]),
            Err(_) => IpDone::Dropped(IpWhy::Bad),
        }
    }

    fn take_whole(&mut self, source: &Call, head: &PacketHead, packet: &[u8]) -> IpDone
        requires fetched { machine.waiting self.old ≡ None }
        requires header { head.now.header ≤ length packet.now }
        requires options { 20 ≤ head.now.header }
        requires few { length packet.now ≤ 256 }
        ensures { machine.Does (machine.whole_turn (machine.state self.old) source.now head.now packet.now)
            result self.old self.new }
    {
        if head.dest == self.address {
            self.answer(source, head, packet)
        } else {
            self.forward(head, packet)
        }
    }

    fn answer(&mut self, source: &Call, head: &PacketHead, packet: &[u8]) -> IpDone
        requires fetched { machine.waiting self.old ≡ None }
        requires header { head.now.header ≤ length packet.now }
        requires options { 20 ≤ head.now.header }
        requires few { length packet.now ≤ 256 }
        ensures { machine.Does (machine.own_turn (machine.state self.old) source.now head.now packet.now)
            result self.old self.new }
    {
        if !is_request(head, packet) {
            return IpDone::Dropped(IpWhy::Ours);
        }
        put_reply(packet, &mut self.out.info);
        self.send(source, IP_PID);
        IpDone::Echoed
    }

    fn forward(&mut self, head: &PacketHead, packet: &[u8]) -> IpDone
        requires fetched { machine.waiting self.old ≡ None }
        requires header { head.now.header ≤ length packet.now }
        requires options { 20 ≤ head.now.header }
        requires few { length packet.now ≤ 256 }
        ensures { machine.Does (machine.onward_turn (machine.state self.old) head.now packet.now)
            result self.old self.new }
    {
        if head.ttl <= 1 {
            return IpDone::Dropped(IpWhy::Expired);
        }
        match longest(self.routes.as_slice(), head.dest) {
            Some(route) => self.send_to(next_hop(&route, head.dest), head, packet),
            None => IpDone::Dropped(IpWhy::NoRoute),
        }
    }

    fn send_to(&mut self, hop: u32, head: &PacketHead, packet: &[u8]) -> IpDone
        requires fetched { machine.waiting self.old ≡ None }
        requires header { head.now.header ≤ length packet.now }
        requires options { 20 ≤ head.now.header }
        requires few { length packet.now ≤ 256 }
        requires alive { 1 < head.now.ttl }
        ensures { machine.Does (machine.to_hop (machine.state self.old) head.now packet.now hop)
            result self.old self.new }
    {
        match call_of(self.cache.as_slice(), hop) {
            Some(to) => {
                put_onward(head, packet, &mut self.out.info);
                self.send(&to, IP_PID);
                IpDone::Forwarded
            }
            None => {
                let request = Arp {
                    reply: false,
                    sender: self.call,
                    sender_ip: self.address,
                    target: None,
                    target_ip: hop,
                };
                put_message(&request, &mut self.out.info);
                self.send(&everyone(), ARP_PID);
                IpDone::Asked
            }
        }
    }
}

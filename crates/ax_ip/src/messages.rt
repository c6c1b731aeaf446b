//! Messages of ARP at a forwarder (RFC 826, "Packet Reception"). Called by `forwarder` and `packets`.
ghost use Rattle.std.specs.Prelude.{◌≡◌, None};
ghost use Rattle.ax_ip.specs.Arps as arps;
ghost use Rattle.ax_ip.specs.Machine as machine;

use crate::arp::{Arp, read_arp, write_arp};
use crate::forwarder::Forwarder;
use crate::ip_done::{IpDone, IpWhy};
use crate::neighbours::{Neighbour, learn};
use crate::numbers::push_octets;
use crate::out::{ARP_PID, Info};

impl Forwarder {
    pub(crate) fn take_arp(&mut self, info: &[u8]) -> IpDone
        requires fetched { machine.waiting self.old ≡ None }
        ensures { machine.Does (machine.arp_turn (machine.state self.old) (arps.arp_at info.now))
            result self.old self.new }
    {
        match read_arp(info) {
            Ok(arp) => self.take_message(&arp),
            Err(_) => IpDone::Dropped(IpWhy::Bad),
        }
    }

    fn take_message(&mut self, arp: &Arp) -> IpDone
        requires fetched { machine.waiting self.old ≡ None }
        ensures { machine.Does (machine.message_turn (machine.state self.old) arp.now) result self.old self.new }
    {
        if arp.target_ip != self.address {
            return IpDone::Dropped(IpWhy::NotMine);
        }
        learn(
            &mut self.cache,
            &Neighbour {
                address: arp.sender_ip,
                call: arp.sender,
            },
        );
        if arp.reply {
            return IpDone::Learned;
        }
        let reply = Arp {
            reply: true,
            sender: self.call,
            sender_ip: self.address,
            target: Some(arp.sender),
            target_ip: arp.sender_ip,
        };
        put_message(&reply, &mut self.out.info);
        self.send(&arp.sender, ARP_PID);
        IpDone::Answered
    }
}

/// Puts a message in place of what the buffer holds.
pub(crate) fn put_message(arp: &Arp, info: &mut Info)
    ensures { info.new.items ≡ arps.arp_octets arp.now }
{
    info.clear();
    push_octets(info, &write_arp(arp));
}

//! Laws of the definitions of packets, messages of ARP and forwarders alone. Called by `arp`.

ghost use Rattle.ax_ip.specs.Laws as law;

/// Octets that spell a message of ARP are read as it, and so spell no other; what is written for a message spells it, and is
/// read as it.
pub fn arp_spelling()
    ensures read { law.SpelledArpIsRead }
    ensures written { law.WrittenArpSpellsIt }
    ensures read_back { law.WrittenArpIsRead }
{
    ax_address::laws::net_call_spelling();
}

/// The route that is taken matches, and none that matches is longer; where none is taken, none matches.
pub fn longest_match()
    ensures { law.LongestIsTaken }
{}

/// A packet that is forwarded is the one that came, octet by octet, but for its time to live, which is one less, and its
/// checksum; and its header is right.
pub fn forwarding()
    ensures sent { law.ForwardedIsSentOn }
    ensures packet { law.OnwardIsPacket }
    ensures same { law.OnwardIsTheSame }
{}

/// Over any list of forwarders a packet is forwarded at most as often as its time to live.
pub fn ip_hops()
    ensures { law.AtMostItsTimeToLive }
{}

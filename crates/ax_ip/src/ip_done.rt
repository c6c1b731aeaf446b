//! What a forwarder does with a frame, and why it drops one. Used by `forwarder`, `messages` and `packets`.

/// What a forwarder did with a frame.
#[derive(Clone, Copy, Debug, PartialEq, Eq)]
pub enum IpDone {
    /// A packet goes on.
    Forwarded,
    /// An echo request is answered.
    Echoed,
    /// The next hop of a packet isn't known: it is asked for, and the packet is dropped.
    Asked,
    /// A request of ARP is answered.
    Answered,
    /// A reply of ARP is heard.
    Learned,
    Dropped(IpWhy),
}

/// Why a forwarder dropped a frame.
#[derive(Clone, Copy, Debug, PartialEq, Eq)]
pub enum IpWhy {
    /// It isn't for this station.
    NotMine,
    /// It carries no packet, or no message of ARP, though it says so.
    Bad,
    /// A packet for this station is no echo request.
    Ours,
    /// A packet's time to live ends here.
    Expired,
    /// No route leads to a packet's destination.
    NoRoute,
}

//! The settings of a member, and of a beacon. Used by `members`, `joining`, `desk`, `seat` and `beacons`, and by the crates that run a
//! station.
use arrayvec::ArrayVec;
use ax_address::Call;
use node_core::NodeConfig;
use station_ports::MAX_PORTS;

/// What a member is beside its node. Times are in milliseconds.
#[derive(Clone, Debug, Drop, PartialEq, Eq)]
pub struct MemberRules {
    /// The ports on which it stands, from 0, in their order.
    pub ports: ArrayVec<u8, MAX_PORTS>,
    /// Whether it repeats frames that it hears on a port.
    pub digipeat: bool,
    /// Whether users are served at it.
    pub users: bool,
    /// How long an answer that says nothing but what has come waits for a frame that says more; 0 where none waits.
    pub t2: u64,
    /// The most bytes of a piece of a text that goes to a user over a link: from 16 to 256.
    pub paclen: u16,
    /// How long after its first tick its first round is due, where its node does rounds by itself.
    pub first: u64,
}

/// The settings of a member.
#[derive(Clone, Debug, Drop, PartialEq, Eq)]
pub struct MemberConfig {
    pub node: NodeConfig,
    pub rules: MemberRules,
}

/// A text that is sent on a port again and again.
#[derive(Clone, Copy, Debug, PartialEq, Eq)]
pub struct BeaconConfig<'a> {
    /// From 0.
    pub port: u8,
    pub from: Call,
    pub to: Call,
    /// At most 256 bytes.
    pub text: &'a [u8],
    /// Milliseconds from the first tick to the first one, and from one to the next.
    pub every: u64,
}

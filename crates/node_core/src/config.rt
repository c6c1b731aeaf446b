//! The settings of a node. Used by `node` and `station`, and by `node_settings` and `node_cmd`.
use ax_address::{Alias, Call};
use ax_link::LinkConfig;
use circuit_l4::{EndConfig, Pair};
use route_table::RouteRules;

/// The settings of a node. Times are in milliseconds, each at most 2^62.
#[derive(Clone, Copy, Debug, PartialEq, Eq)]
pub struct NodeConfig {
    /// The node's own call.
    pub call: Call,
    /// The name under which it broadcasts itself.
    pub alias: Alias,
    /// What its routing table goes by.
    pub routes: RouteRules,
    /// The quality of the path to each neighbour, from 0 to 255.
    pub quality: u8,
    /// How many hops a datagram of this node goes over at most: at least 1.
    pub ttl: u8,
    /// The settings of the ends of its circuits.
    pub ends: EndConfig,
    /// Whether datagrams go over links, else each in a UI frame.
    pub links: bool,
    /// Whether the links that the node sets up are of modulo 128, else of modulo 8.
    pub modulo128: bool,
    /// The settings of its links.
    pub link: LinkConfig,
    /// Whether users are served at a prompt; else the texts that come over links are dropped.
    pub prompt: bool,
    /// How long after a round the next one is due; 0 where no round is done by itself.
    pub interval: u64,
    /// The pair of the first end that is made, with index and identifier from 1 to 255.
    pub pair: Pair,
    /// The number of the first end that is made: from 1 to 2^62 + 1.
    pub first: u64,
}

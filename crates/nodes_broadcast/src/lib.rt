//! NODES broadcasts: what a NET/ROM node tells its neighbours of the nodes that it knows (NET/ROM, Appendix B).
//!
//! The information of a broadcast is 0xFF, the sender's alias, and an entry of 21 octets for each destination. No call
//! takes memory.
#![tactic(auto)]

pub mod laws;
mod nodes;
mod read;
mod write;

pub use nodes::{Nodes, NodesRefusal, nodes_call};
pub use read::{read_nodes, read_nodes_into};
pub use write::{push_nodes, write_nodes};

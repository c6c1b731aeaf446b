//! Network files: what each line says, and what is wrong with a bad one.
//!
//! A network file describes nodes and what happens to them, line by line. `read_network` reads it whole: the network,
//! or the first bad line. `docs/network-file.md` has the rules in words; the definitions are in `specs/`.
#![tactic(auto)]

pub mod laws;
mod limits;
mod lines;
mod network;
mod places;
mod plan;
mod what;

pub use limits::MAX_NODES;
pub use network::{Network, NetworkRefusal, read_network};
pub use plan::channels::{Channel, can_hear, heard_by, is_on_air};
pub use plan::declarations::Declaration;
pub use plan::heard_nodes::HeardNodes;
pub use plan::instructions::{Instruction, NumberedInstruction};
pub use plan::keys::Key;
pub use plan::live::{LiveNode, read_live_node};
pub use plan::pairs::FirstPair;
pub use plan::settings::{Setting, set_to, value_of};
pub use plan::text::Text;
pub use plan::vias::Via;
pub use what::What;

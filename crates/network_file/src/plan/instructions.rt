//! What happens in a network, one instruction a line. Used by most files here, and by the replay and `trace_lines`.
use crate::plan::heard_nodes::HeardNodes;
use crate::plan::pairs::FirstPair;
use crate::plan::text::Text;
use ax_address::{Alias, Call};

/// What happens in a network, one instruction a line.
///
/// `node` is the number of a declared node, from 1 to 16. An `end` is one end of a circuit: those of a node are numbered
/// from 1 in the order of their making. Frames are numbered from 1 as they are put in the air.
#[derive(Debug, Drop)]
pub enum Instruction {
    /// The node hears a broadcast of `call`.
    Heard {
        node: u8,
        call: Call,
        nodes: HeardNodes,
    },
    /// An operator locks a route in.
    Lock {
        node: u8,
        dest: Call,
        alias: Alias,
        neighbour: Call,
        quality: u8,
    },
    /// The node's routing counts go down by one, and it broadcasts its routes.
    Round {
        node: u8,
    },
    /// The node's link with `call` fails.
    LinkFail {
        node: u8,
        call: Call,
    },
    /// The node's table is told.
    Show {
        node: u8,
    },
    /// Time goes on by so many milliseconds, 1 to 86,400,000, and each node is told.
    Tick {
        milliseconds: u32,
    },
    /// The node loses its circuits, links, reports and locks, and starts again: it gives this pair first.
    Restart {
        node: u8,
        pair: FirstPair,
    },
    /// The node asks for a circuit to the node `dest`.
    Open {
        node: u8,
        dest: Call,
    },
    /// The end writes a text of characters from 0x20 to 0x7E, of any length.
    Say {
        node: u8,
        end: u32,
        text: Text,
    },
    /// The end writes the decimal texts from 1 to `count`, 1 to 10,000, up to the first that is refused.
    Burst {
        node: u8,
        end: u32,
        count: u32,
    },
    /// The oldest message that waits at the end is taken.
    Take {
        node: u8,
        end: u32,
    },
    /// The end is closed.
    Close {
        node: u8,
        end: u32,
    },
    /// A mail is posted at the node.
    Post {
        node: u8,
        to: Call,
        dest: Call,
        text: Text,
    },
    /// A turn of the agent of the node.
    Mail {
        node: u8,
    },
    /// An unsettled frame goes to the node and is settled.
    Deliver {
        frame: u32,
        node: u8,
    },
    /// A settled frame goes to the node again.
    Again {
        frame: u32,
        node: u8,
    },
    /// An unsettled frame is settled.
    Lose {
        frame: u32,
    },
    /// So many times, 1 to 100,000, the oldest unsettled frame goes to each node that hears its sender, and is settled.
    Flow {
        count: u32,
    },
    /// So many times, 1 to 100,000, the oldest unsettled frame is settled.
    Cut {
        count: u32,
    },
}

/// An instruction with the number of its line, from 1.
#[derive(Debug, Drop)]
pub struct NumberedInstruction {
    pub line: u32,
    pub instruction: Instruction,
}

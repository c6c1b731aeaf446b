//! How ends of circuits are named (NET/ROM, Appendix B). Used by most files here, and by `circuit_table`, `node_core` and crates above.

/// How a node names one end of a circuit: its index and its identification (NET/ROM, Appendix B).
#[derive(Clone, Copy, Debug, Default, PartialEq, Eq)]
pub struct Pair {
    pub index: u8,
    pub ident: u8,
}

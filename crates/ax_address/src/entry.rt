//! One destination of a NODES broadcast (NET/ROM, Appendix B). Used by `nodes_broadcast`, `route_table` and crates above.
use crate::{Alias, Call};

/// What a NODES broadcast says of one destination: by which neighbour its sender would reach it, and how well.
#[derive(Clone, Copy, Debug, Default, PartialEq, Eq)]
pub struct Entry {
    pub dest: Call,
    pub alias: Alias,
    pub best: Call,
    pub quality: u8,
}

//! What holds of circuits over every schedule: laws of the machine of `circuit_table`, whose calls this crate hands on.
#![tactic(auto)]

pub mod laws;

pub use circuit_table::{
    CircuitSet, ConnectRefusal, DiscardRefusal, MAX_ENDS, NoEnd, SetEvent, SetRefusal,
};

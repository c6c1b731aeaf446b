//! What is promised of every network: the laws of `net_laws`, each once more. Called by `outcomes` of node_cmd.

pub use net_laws::laws::{
    copies_alone_return, datagrams_sent, hops_take_one, in_time_is_safe, mail_in_time,
    networks_are_sound, retries_are_told, tables_of_logs, users_agree, worlds_are_circuit_runs,
};

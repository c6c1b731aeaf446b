//! What a network file lays down: nodes, who hears whom, settings, ways over repeaters, and what happens. Filled by `network`, and read by
//! `node_settings`, the replay and `trace_lines`.
pub mod channels;
pub mod declarations;
pub mod heard_nodes;
pub mod instructions;
pub mod keys;
pub mod live;
pub mod pairs;
pub mod settings;
pub mod text;
pub mod vias;

//! The commands that run no node: `frames`, `ip` and `life`, with their words.
//!
//! Each takes what its words gave, and answers with a status; `run` of the crate `node_cmd` chooses among them.
#![tactic(auto)]

mod frames;
mod ip;
pub mod laws;
mod lives;
mod modulo_word;
mod words;

pub use frames::frames_of_stream;
pub use ip::gateway::Gateway;
pub use ip::ip_over_stream;
pub use ip::words::gateway_of;
pub use lives::life_of_file;
pub use lives::settings::{LifeSettings, settings_of};
pub use modulo_word::modulo_of;
pub use words::number_behind;

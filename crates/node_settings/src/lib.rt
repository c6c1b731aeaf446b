//! The settings of a node: from the keys of a file, or of words, to a `NodeConfig` (`config_of`), and the repeaters over which it reaches its
//! peers (`path_of`, `set_paths`). The nodes of a replay, the one on the air and those of a station start by it. Own profile.
#![tactic(auto)]

mod paths;
mod settings;

pub use paths::{path_of, set_paths};
pub use settings::config_of;

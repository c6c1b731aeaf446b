//! The prompt of a node: what a line of a user asks for, and every text that the node says to one.
//!
//! A `Prompt` goes by the node's names alone. Lines come in, one by one, and an `Action` goes out; where it shows something of the node,
//! the node hands in what there is of it. A prompt cuts no lines, makes no circuit and keeps nothing of what it said: that is the node's part.
#![tactic(auto)]

mod action;
mod command;
pub mod laws;
mod line_refusal;
mod lines;
mod prompt;
mod sight;
mod trouble;
mod view;
mod words;

pub use action::Action;
pub use command::wanted;
pub use prompt::Prompt;
pub use sight::Sight;
pub use trouble::Trouble;
pub use view::View;

//! The prompt of a station: what a line of a user asks for, and how its replies begin and tell names and ages.
//!
//! A user's text is cut into lines (`next_line`). A line is put into capital letters (`capitals_of`) and cut into words
//! (`text_lines::words_of`); `command_of` says what they ask for at the prompt, `mail_command_of` what at the mail prompt. What is done for
//! a command, and the rest of each reply, is the station's part.
#![tactic(auto)]

mod capitals;
mod command;
pub mod laws;
mod line_refusal;
mod lines;
mod mail_command;
mod mail_verb;
mod replies;
mod stop_words;
mod verb;

pub use capitals::{MAX_LINE, capitals_of};
pub use command::{Command, NodesAsked, command_of};
pub use line_refusal::LineRefusal;
pub use lines::next_line;
pub use mail_command::{MailCommand, mail_command_of};
pub use mail_verb::MailVerb;
pub use replies::{age_text, name_of, reply};
pub use stop_words::ends_try;
pub use verb::Verb;

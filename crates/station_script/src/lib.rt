//! What `wursthatch-station` is told beside frames: the directives of a trial, and what consoles send on the KISS port of theirs.
#![tactic(auto)]

mod call_word;
mod consoles;
mod directive;
mod directive_refusal;

pub use call_word::call_in;
pub use consoles::{ConsoleFrame, console_frame};
pub use directive::{Directive, directive_of};
pub use directive_refusal::DirectiveRefusal;

//! What a line asks for. Called by `prompt`.
ghost use Rattle.std.specs.Prelude.{◌≡◌, Ok};
ghost use Rattle.node_prompt.specs.Commands as commands;

use crate::line_refusal::LineRefusal;
use crate::words::{MAX_LINE, capitals};
use ax_address::Call;
use text_lines::first_word;

/// What a line asks for.
#[derive(Clone, Copy, Debug, PartialEq, Eq)]
pub enum Command {
    /// The line is empty, or spaces alone.
    Nothing,
    /// A circuit to this destination.
    Connect(Call),
    /// The destinations.
    Nodes,
    /// The routes to this destination.
    RoutesTo(Call),
    /// The neighbours: the destinations that have a direct route.
    Routes,
    /// The partners of the ends that are held.
    Users,
    /// What this is.
    Info,
    /// The end of the session.
    Bye,
    /// The commands.
    Help,
}

impl Command {
    /// The destination whose routes are asked for.
    fn wanted(&self) -> Option<Call>
        ensures { result ≡ commands.wanted_by (Ok self.now) }
    {
        match self {
            Command::RoutesTo(dest) => Some(*dest),
            _ => None,
        }
    }
}

/// The commands by their first words.
#[derive(Clone, Copy, Debug, PartialEq, Eq)]
pub enum Verb {
    Connect,
    Nodes,
    Routes,
    Users,
    Info,
    Bye,
    Help,
}

/// What the line asks for, or the first reason why it asks for nothing that there is.
#[tactic(auto, unfolding(crate::specs::Commands::command_at))]
pub fn command_at(line: &[u8]) -> Result<Command, LineRefusal>
    ensures { result ≡ commands.command_at line.now }
{
    if line.len() > MAX_LINE {
        return Err(LineRefusal::TooLong);
    }
    command_of(&capitals(line))
}

/// The destination whose routes a line asks for, without the CR that ended it; None where it asks for none.
pub fn wanted(text: &[u8]) -> Option<Call>
    ensures { result ≡ commands.wanted text.now }
{
    match command_at(text) {
        Ok(command) => command.wanted(),
        Err(_) => None,
    }
}

/// What the line, in capital letters, asks for.
fn command_of(line: &[u8]) -> Result<Command, LineRefusal>
    ensures { result ≡ commands.command_of (commands.words_of line.now) }
{
    match first_word(line) {
        None => Ok(Command::Nothing),
        Some((word, rest)) => match verb_of(word) {
            None => Err(LineRefusal::UnknownCommand),
            Some(verb) => command_with(verb, rest),
        },
    }
}

/// What a command's first word and the rest of its line ask for.
fn command_with(verb: Verb, rest: &[u8]) -> Result<Command, LineRefusal>
    ensures { result ≡ commands.command_with verb (commands.words_of rest.now) }
{
    match first_word(rest) {
        None => command_alone(verb),
        Some((word, rest)) => match first_word(rest) {
            None => command_about(verb, word),
            Some(_) => Err(LineRefusal::WrongWords),
        },
    }
}

fn command_alone(verb: Verb) -> Result<Command, LineRefusal>
    ensures { result ≡ commands.command_alone verb }
{
    match verb {
        Verb::Connect => Err(LineRefusal::WrongWords),
        Verb::Nodes => Ok(Command::Nodes),
        Verb::Routes => Ok(Command::Routes),
        Verb::Users => Ok(Command::Users),
        Verb::Info => Ok(Command::Info),
        Verb::Bye => Ok(Command::Bye),
        Verb::Help => Ok(Command::Help),
    }
}

fn command_about(verb: Verb, word: &[u8]) -> Result<Command, LineRefusal>
    ensures { result ≡ commands.command_about verb word.now }
{
    match verb {
        Verb::Connect => match Call::read(word) {
            Ok(dest) => Ok(Command::Connect(dest)),
            Err(_) => Err(LineRefusal::BadCall),
        },
        Verb::Nodes => match Call::read(word) {
            Ok(dest) => Ok(Command::RoutesTo(dest)),
            Err(_) => Err(LineRefusal::BadCall),
        },
        _ => Err(LineRefusal::WrongWords),
    }
}

/// The command that a word in capital letters names, whole or by its first letter.
fn verb_of(word: &[u8]) -> Option<Verb>
    ensures { result ≡ commands.verb_of word.now }
{
    if is_either(word, b"CONNECT", b"C") {
        Some(Verb::Connect)
    } else if is_either(word, b"NODES", b"N") {
        Some(Verb::Nodes)
    } else if is_either(word, b"ROUTES", b"R") {
        Some(Verb::Routes)
    } else if is_either(word, b"USERS", b"U") {
        Some(Verb::Users)
    } else if is_either(word, b"INFO", b"I") {
        Some(Verb::Info)
    } else if is_either(word, b"BYE", b"B") {
        Some(Verb::Bye)
    } else if is_either(word, b"HELP", b"H") || word == b"?".as_slice() {
        Some(Verb::Help)
    } else {
        None
    }
}

fn is_either(word: &[u8], whole: &[u8], letter: &[u8]) -> bool
    ensures { result ≡ commands.is_either word.now whole.now letter.now }
{
    word == whole || word == letter
}

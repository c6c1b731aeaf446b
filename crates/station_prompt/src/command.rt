//! What a line at the prompt asks for. Called by the crates that run a station.
ghost use Rattle.std.specs.Prelude.{◌≡◌};
ghost use Rattle.text_lines.specs.Lines.{texts};
ghost use Rattle.station_prompt.specs.Commands as commands;
ghost use Rattle.station_prompt.specs.Asked as asked;

use crate::line_refusal::LineRefusal;
use crate::verb::{Verb, is_form};

/// Which destinations are asked for.
#[derive(Clone, Copy, Debug)]
pub enum NodesAsked<'a> {
    /// Those whose alias doesn't begin with `#`.
    Shown,
    /// All.
    All,
    /// Those whose alias begins so.
    Beginning(&'a [u8]),
    /// The routes to this alias or call.
    RoutesTo(&'a [u8]),
}

/// What a line at the prompt asks for. Its words are in capital letters.
#[derive(Clone, Copy, Debug)]
pub enum Command<'a> {
    /// The line has no word.
    Nothing,
    /// A circuit to this alias or call.
    Connect(&'a [u8]),
    /// A link to this call on this port, over these repeaters, of which there are at most two.
    ConnectByPort {
        port: &'a [u8],
        to: &'a [u8],
        via: &'a [&'a [u8]],
    },
    /// The destinations.
    Nodes(NodesAsked<'a>),
    /// The neighbours.
    Routes,
    /// The users.
    Users,
    /// The ports.
    Ports,
    /// Who was heard at this port, or at all of them.
    MHeard(Option<&'a [u8]>),
    /// The links.
    Links,
    /// What there is of each, counted.
    Stats,
    /// What the operator has to say.
    Info,
    /// The version of the program.
    Version,
    /// The mail prompt.
    Mail,
    /// The end of the session.
    Bye,
    /// The commands.
    Help,
}

/// What the words of a line ask for, in capital letters, or why it is nothing that there is: the first word is judged first.
pub fn command_of<'a>(words: &'a [&'a [u8]]) -> Result<Command<'a>, LineRefusal<'a, Verb>>
    ensures { asked.asked_by result ≡ commands.command_of (texts words.now) }
{
    match words {
        [] => Ok(Command::Nothing),
        [word, more @ ..] => match Verb::of(word) {
            None => Err(LineRefusal::UnknownCommand(word)),
            Some(verb) => match command_with(verb, more) {
                Some(command) => Ok(command),
                None => Err(LineRefusal::WrongWords(verb)),
            },
        },
    }
}

/// What a verb asks for with these words behind it.
fn command_with<'a>(verb: Verb, words: &'a [&'a [u8]]) -> Option<Command<'a>>
    ensures { asked.if_asked result ≡ commands.command_with verb (texts words.now) }
{
    match words {
        [] => command_alone(verb),
        [word] => command_about(verb, word),
        [port, to, more @ ..] => match verb {
            Verb::Connect => connect_by_port(port, to, more),
            _ => None,
        },
    }
}

/// The commands of one word.
fn command_alone<'a>(verb: Verb) -> Option<Command<'a>>
    ensures { asked.if_asked result ≡ commands.command_alone verb }
{
    match verb {
        Verb::Connect => None,
        Verb::Nodes => Some(Command::Nodes(NodesAsked::Shown)),
        Verb::Routes => Some(Command::Routes),
        Verb::Users => Some(Command::Users),
        Verb::Ports => Some(Command::Ports),
        Verb::MHeard => Some(Command::MHeard(None)),
        Verb::Links => Some(Command::Links),
        Verb::Stats => Some(Command::Stats),
        Verb::Info => Some(Command::Info),
        Verb::Version => Some(Command::Version),
        Verb::Mail => Some(Command::Mail),
        Verb::Bye => Some(Command::Bye),
        Verb::Help => Some(Command::Help),
    }
}

/// The commands of two words.
fn command_about<'a>(verb: Verb, word: &'a [u8]) -> Option<Command<'a>>
    ensures { asked.if_asked result ≡ commands.command_about verb word.now }
{
    match verb {
        Verb::Connect => Some(Command::Connect(word)),
        Verb::Nodes => Some(Command::Nodes(nodes_asked(word))),
        Verb::MHeard => Some(Command::MHeard(Some(word))),
        _ => None,
    }
}

/// A star at the end asks for the destinations whose alias begins so.
fn nodes_asked(word: &[u8]) -> NodesAsked<'_>
    ensures { asked.nodes_asked result ≡ commands.nodes_asked word.now }
{
    if !word.ends_with(b"*") {
        return NodesAsked::RoutesTo(word);
    }
    match word.len() - 1 {
        0 => NodesAsked::All,
        front => NodesAsked::Beginning(&word[..front]),
    }
}

/// `Connect PORT X`, and what stands behind it.
fn connect_by_port<'a>(port: &'a [u8], to: &'a [u8], more: &'a [&'a [u8]]) -> Option<Command<'a>>
    ensures { asked.if_asked result ≡ commands.connect_by_port port.now to.now (texts more.now) }
{
    match more {
        [] => Some(Command::ConnectByPort {
            port,
            to,
            via: more,
        }),
        [word, via @ ..] if is_form(word, b"VIA", 1) => connect_over(port, to, via),
        _ => None,
    }
}

/// A link over one repeater or two.
fn connect_over<'a>(port: &'a [u8], to: &'a [u8], via: &'a [&'a [u8]]) -> Option<Command<'a>>
    ensures { asked.if_asked result ≡ commands.connect_over port.now to.now (texts via.now) }
{
    match via {
        [_] | [_, _] => Some(Command::ConnectByPort { port, to, via }),
        _ => None,
    }
}

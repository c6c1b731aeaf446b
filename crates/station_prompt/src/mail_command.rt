//! What a line at the mail prompt asks for. Called by the crates that run a station.
ghost use Rattle.std.specs.Prelude.{◌≡◌, ◌==◌, ◌<◌, length, position, IfSome};
ghost use Rattle.text_lines.specs.Lines.{texts};
ghost use Rattle.station_prompt.specs.Asked as asked;
ghost use Rattle.station_prompt.specs.MailCommands as commands;

use crate::line_refusal::LineRefusal;
use crate::mail_verb::MailVerb;

/// What a line at the mail prompt asks for. Its words are in capital letters.
#[derive(Clone, Copy, Debug)]
pub enum MailCommand<'a> {
    /// The line has no word.
    Nothing,
    /// The letters for the user.
    List,
    /// The text of the letter of this number.
    Read(&'a [u8]),
    /// The letter of this number is to go.
    Kill(&'a [u8]),
    /// The letters of the user that are queued.
    Queued,
    /// A letter to this user, at this post, or here.
    Send {
        to: &'a [u8],
        post: Option<&'a [u8]>,
    },
    /// The end of the mail prompt.
    Bye,
    /// The commands.
    Help,
}

/// What the words of a line ask for, in capital letters, or why it is nothing that there is: the first word is judged first.
pub fn mail_command_of<'a>(
    words: &'a [&'a [u8]],
) -> Result<MailCommand<'a>, LineRefusal<'a, MailVerb>>
    ensures { asked.mail_asked_by result ≡ commands.command_of (texts words.now) }
{
    match words {
        [] => Ok(MailCommand::Nothing),
        [word, more @ ..] => match MailVerb::of(word) {
            None => Err(LineRefusal::UnknownCommand(word)),
            Some(verb) => match command_with(verb, more) {
                Some(command) => Ok(command),
                None => Err(LineRefusal::WrongWords(verb)),
            },
        },
    }
}

/// What a verb asks for with these words behind it.
fn command_with<'a>(verb: MailVerb, words: &'a [&'a [u8]]) -> Option<MailCommand<'a>>
    ensures { asked.if_mail_asked result ≡ commands.command_with verb (texts words.now) }
{
    match words {
        [] => command_alone(verb),
        [word] => command_about(verb, word),
        [to, at, post] if *at == b"@".as_slice() => match verb {
            MailVerb::Send => Some(MailCommand::Send {
                to,
                post: Some(post),
            }),
            _ => None,
        },
        _ => None,
    }
}

/// The commands of one word.
fn command_alone<'a>(verb: MailVerb) -> Option<MailCommand<'a>>
    ensures { asked.if_mail_asked result ≡ commands.command_alone verb }
{
    match verb {
        MailVerb::List => Some(MailCommand::List),
        MailVerb::Queued => Some(MailCommand::Queued),
        MailVerb::Bye => Some(MailCommand::Bye),
        MailVerb::Help => Some(MailCommand::Help),
        _ => None,
    }
}

/// The commands of two words.
fn command_about<'a>(verb: MailVerb, word: &'a [u8]) -> Option<MailCommand<'a>>
    ensures { asked.if_mail_asked result ≡ commands.command_about verb word.now }
{
    match verb {
        MailVerb::Read => Some(MailCommand::Read(word)),
        MailVerb::Kill => Some(MailCommand::Kill(word)),
        MailVerb::Send => Some(send(word)),
        _ => None,
    }
}

/// A letter to CALL, or to CALL@POST.
fn send<'a>(word: &'a [u8]) -> MailCommand<'a>
    ensures { asked.mail_asked result ≡ commands.send word.now }
{
    match at_sign(word) {
        None => MailCommand::Send {
            to: word,
            post: None,
        },
        Some(at) => MailCommand::Send {
            to: &word[..at],
            post: Some(&word[at + 1..]),
        },
    }
}

fn at_sign(word: &[u8]) -> Option<usize>
    ensures place { result ≡ position (λ b. b == 64) word.now }
    ensures bound { IfSome result (λ at. at < length word.now) }
{
    word.iter().position(|byte| *byte == b'@')
}

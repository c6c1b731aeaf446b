//! What lines at the mail prompt begin with. Called by `mail_command`.
ghost use Rattle.std.specs.Prelude.{◌≡◌};
ghost use Rattle.station_prompt.specs.MailCommands as commands;

use crate::verb::is_form;

/// What a line at the mail prompt begins with.
#[derive(Clone, Copy, Debug, PartialEq, Eq)]
pub enum MailVerb {
    List,
    Read,
    Kill,
    Queued,
    Send,
    Bye,
    Help,
}

impl MailVerb {
    /// The verb of which a word in capital letters is a form.
    pub fn of(word: &[u8]) -> Option<MailVerb>
        ensures { result ≡ commands.verb_of word.now }
    {
        if is_form(word, b"LIST", 1) {
            Some(MailVerb::List)
        } else if is_form(word, b"READ", 1) {
            Some(MailVerb::Read)
        } else if is_form(word, b"KILL", 1) {
            Some(MailVerb::Kill)
        } else if is_form(word, b"QUEUED", 1) {
            Some(MailVerb::Queued)
        } else if is_form(word, b"SEND", 1) {
            Some(MailVerb::Send)
        } else if is_form(word, b"BYE", 1) {
            Some(MailVerb::Bye)
        } else if is_form(word, b"HELP", 1) || is_form(word, b"?", 1) {
            Some(MailVerb::Help)
        } else {
            None
        }
    }

    /// The forms of its line.
    pub fn forms(self) -> &'static str
        ensures { result.now ≡ commands.forms_of self }
    {
        match self {
            MailVerb::List => "List",
            MailVerb::Read => "Read N",
            MailVerb::Kill => "Kill N",
            MailVerb::Queued => "Queued",
            MailVerb::Send => "Send CALL, Send CALL@X, Send CALL @ X",
            MailVerb::Bye => "Bye",
            MailVerb::Help => "Help, ?",
        }
    }

    /// The words that the mail prompt knows, the letters of the shortest form of each in capitals.
    pub fn help() -> &'static str
        ensures { result.now ≡ commands.help_text }
    {
        "List Read Kill Queued Send Bye Help ?"
    }
}

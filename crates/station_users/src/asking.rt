//! The lines of a user at the prompt. Called by `serving`.
ghost use Rattle.std.specs.Prelude.{◌≡◌, [], slice_get, IfOk, OnOk};
ghost use Rattle.text_lines.specs.Lines.{texts as texts_of};
ghost use Rattle.station_lists.specs.Telling.{about, told_text};
ghost use Rattle.station_prompt.specs.Asked.{asked, refused};
ghost use Rattle.station_prompt.specs.Commands.{help_text};
ghost use Rattle.station_users.specs.Asking as asking;
ghost use Rattle.station_users.specs.Sights.{words as words_in};
ghost use Rattle.station_users.specs.Standing.{HallGoes, HallStands};
ghost use Rattle.station_users.specs.States.{UsersState, at_nth};
ghost use Rattle.station_users.specs.Telling as telling;
ghost use Rattle.station_users.specs.Texts as texts;
ghost use Rattle.station_users.specs.Things as things;

use crate::connecting::connect;
use crate::hall::Hall;
use crate::linking::connect_by_port;
use crate::texts::take_line;
use crate::things::say_bye;
use crate::turn::Turn;
use radio_base::{NoMemory, TextOut};
use station_lists::Told;
use station_looks::Looks;
use station_prompt::{Command, LineRefusal, MAX_LINE, Verb, capitals_of, command_of};
use text_lines::words_of;

impl Hall {
    /// Does the next line of the user of the session in a place.
    #[tactic(auto, unfolding(crate::specs::Asking::do_line))]
    pub(crate) fn do_line(&mut self, nth: usize, turn: Turn) -> Result<(), NoMemory>
        ensures { OnOk result (HallGoes (asking.do_line nth turn.moment) self.old self.new) }
    {
        let line = self.take_line(nth, turn)?;
        self.do_taken(&line, nth, turn)?;
        Ok(())
    }

    /// Takes it.
    fn take_line(&mut self, nth: usize, turn: Turn) -> Result<Vec<u8>, NoMemory>
        ensures line { IfOk result (λ line. (u : UsersState) → HallStands self.old u
            → line.items ≡ asking.line_by (slice_get u.sessions nth) turn.moment u) }
        ensures goes { OnOk result (HallGoes (at_nth nth (texts.take_line turn.moment)) self.old self.new) }
    {
        if nth < self.sessions.len() {
            let line = take_line(&mut self.sessions[nth], &mut self.sides, turn)?;
            Ok(line)
        } else {
            Ok(Vec::new(turn.alloc))
        }
    }

    #[tactic(auto, unfolding(crate::specs::Asking::do_taken))]
    fn do_taken(&mut self, line: &[u8], nth: usize, turn: Turn) -> Result<(), NoMemory>
        ensures { OnOk result (HallGoes (asking.do_taken line.now nth turn.moment) self.old self.new) }
    {
        if line.len() > MAX_LINE {
            self.answer(&Told::LineTooLong, nth, turn)?;
            Ok(())
        } else {
            self.do_short(line, nth, turn)?;
            Ok(())
        }
    }

    /// Does a line that isn't too long.
    fn do_short(&mut self, line: &[u8], nth: usize, turn: Turn) -> Result<(), NoMemory>
        ensures { OnOk result (HallGoes (asking.do_words (words_in line.now) nth turn.moment) self.old self.new) }
    {
        let capitals = capitals_of(turn.alloc, line)?;
        let words = words_of(turn.alloc, &capitals)?;
        self.do_words(&words, nth, turn)?;
        Ok(())
    }

    fn do_words(&mut self, words: &[&[u8]], nth: usize, turn: Turn) -> Result<(), NoMemory>
        ensures { OnOk result (HallGoes (asking.do_words (texts_of words.now) nth turn.moment) self.old self.new) }
    {
        match command_of(words) {
            Ok(command) => self.do_command(&command, nth, turn),
            Err(why) => self.answer(&told_of(&why), nth, turn),
        }
    }

    /// Does what a line asks for.
    fn do_command(&mut self, command: &Command<'_>, nth: usize, turn: Turn) -> Result<(), NoMemory>
        ensures { OnOk result (HallGoes (asking.do_command (asked command.now) nth turn.moment) self.old self.new) }
    {
        match command {
            Command::Nothing => Ok(()),
            Command::Connect(to) => self.connect(to, nth, turn),
            Command::ConnectByPort { port, to, via } => {
                self.connect_by_port(port, to, via, nth, turn)
            }
            Command::Mail => self.answer(&Told::NoMail, nth, turn),
            Command::Bye => self.say_bye(nth, turn),
            Command::Version => self.say_version(nth, turn),
            Command::Help => self.say_help(nth, turn),
            Command::Nodes(_)
            | Command::Routes
            | Command::Users
            | Command::Ports
            | Command::MHeard(_)
            | Command::Links
            | Command::Stats
            | Command::Info => self.show(command, nth, turn),
        }
    }

    /// The program and its version are told.
    fn say_version(&mut self, nth: usize, turn: Turn) -> Result<(), NoMemory>
        ensures { OnOk result (HallGoes (at_nth nth (telling.answer (about [] asking.version) turn.moment)) self.old self.new) }
    {
        self.answer(&Told::Said(version().as_bytes()), nth, turn)?;
        Ok(())
    }

    /// The commands are told.
    fn say_help(&mut self, nth: usize, turn: Turn) -> Result<(), NoMemory>
        ensures { OnOk result (HallGoes (at_nth nth (telling.answer (about [] help_text) turn.moment)) self.old self.new) }
    {
        self.answer(&Told::Said(Verb::help().as_bytes()), nth, turn)?;
        Ok(())
    }

    /// Shows the user what there is to see.
    #[tactic(auto, unfolding(crate::specs::Asking::show))]
    fn show(&mut self, command: &Command<'_>, nth: usize, turn: Turn) -> Result<(), NoMemory>
        ensures { OnOk result (HallGoes (asking.show (asked command.now) nth turn.moment) self.old self.new) }
    {
        let text = self.shown(command, nth, turn)?;
        self.say(text.bytes(), nth, turn)?;
        Ok(())
    }

    /// The reply that shows it.
    fn shown(&self, command: &Command<'_>, nth: usize, turn: Turn) -> Result<TextOut, NoMemory>
        ensures { IfOk result (λ text. (u : UsersState) → HallStands self.now u
            → text ≡ asking.shown (asked command.now) nth turn.moment u) }
    {
        let looks = Looks {
            alloc: turn.alloc,
            members: &self.sides.members,
            about: &self.about,
            sessions: &self.sessions,
            started: self.started,
        };
        let text = looks.reply(self.member_of(nth), command, turn.moment)?;
        Ok(text)
    }

    /// The member at whose prompt the user is.
    fn member_of(&self, nth: usize) -> usize
        ensures { (u : UsersState) → HallStands self.now u → result ≡ asking.member_by (slice_get u.sessions nth) }
    {
        match self.sessions.get(nth) {
            Some(session) => session.member(),
            None => 0,
        }
    }

    fn connect(&mut self, to: &[u8], nth: usize, turn: Turn) -> Result<(), NoMemory>
        ensures { OnOk result (HallGoes (asking.connect to.now nth turn.moment) self.old self.new) }
    {
        if nth < self.sessions.len() {
            connect(
                to,
                &self.about,
                &mut self.sessions[nth],
                &mut self.sides,
                turn,
            )?;
            Ok(())
        } else {
            Ok(())
        }
    }

    fn connect_by_port(
        &mut self,
        port: &[u8],
        to: &[u8],
        via: &[&[u8]],
        nth: usize,
        turn: Turn,
    ) -> Result<(), NoMemory>
        ensures { OnOk result
            (HallGoes (asking.connect_by_port port.now to.now (texts_of via.now) nth turn.moment) self.old self.new) }
    {
        if nth < self.sessions.len() {
            connect_by_port(
                port,
                to,
                via,
                &self.about,
                &mut self.sessions[nth],
                &mut self.sides,
                turn,
            )?;
            Ok(())
        } else {
            Ok(())
        }
    }

    fn say_bye(&mut self, nth: usize, turn: Turn) -> Result<(), NoMemory>
        ensures { OnOk result (HallGoes (at_nth nth (things.say_bye turn.moment)) self.old self.new) }
    {
        if nth < self.sessions.len() {
            say_bye(&mut self.sessions[nth], &mut self.sides, turn)?;
            Ok(())
        } else {
            Ok(())
        }
    }
}

/// The program's name and its version.
fn version() -> &'static str
    ensures { result.now ≡ asking.version }
{
    "Wursthatch 0.1.0"
}

/// What is told of a line that asks for nothing that there is.
fn told_of<'a>(why: &LineRefusal<'a, Verb>) -> Told<'a>
    ensures { told_text result ≡ asking.refused_line (refused why.now) }
{
    match why {
        LineRefusal::UnknownCommand(word) => Told::UnknownCommand(word),
        LineRefusal::WrongWords(verb) => Told::WrongWords(verb.forms()),
    }
}

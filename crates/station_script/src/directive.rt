//! The directives of a trial: the words behind `!`. Called by the crates that run a station, for each such line.
ghost use Rattle.std.specs.Prelude.{◌≡◌};
ghost use Rattle.text_lines.specs.Lines.{texts};
ghost use Rattle.station_script.specs.Directives as directives;

use crate::directive_refusal::DirectiveRefusal;
use text_lines::number_of;

/// What a directive asks for. A call, a port and the digits of a frame are as they were typed.
#[derive(Clone, Copy, Debug)]
pub enum Directive<'a> {
    /// The console of this station from now on, from 1.
    At(u32),
    /// The console is opened anew under this call.
    Open(&'a [u8]),
    /// So many milliseconds go by.
    Tick(u32),
    /// Each station does a round.
    Round,
    /// Frames are shown from now on, or aren't.
    Frames(bool),
    /// So many frames that go next are lost.
    Lose(u32),
    /// A frame is heard at a port.
    Heard { port: &'a [u8], digits: &'a [u8] },
    /// This station starts again, from 1.
    Restart(u32),
    /// This station goes down, from 1.
    Stop(u32),
    /// The end of the trial.
    Quit,
}

/// The most stations of a trial (this project's profile).
const MAX_STATIONS: u32 = 8;

/// The most milliseconds that go by at a time: a day.
const MAX_TICK: u32 = 86_400_000;

/// The most frames that are lost at a time (this project's profile).
const MAX_LOST: u32 = 1_000_000;

/// What the words behind `!` ask for, or why it is nothing that there is.
pub fn directive_of<'a>(words: &[&'a [u8]]) -> Result<Directive<'a>, DirectiveRefusal>
    ensures { directives.asked_by result ≡ directives.directive_of (texts words.now) }
{
    match words {
        [verb] => directive_alone(verb),
        [verb, word] => directive_about(verb, word),
        [verb, port, digits] => directive_at(verb, port, digits),
        _ => Err(DirectiveRefusal::NoDirective),
    }
}

/// The one directive of three words.
fn directive_at<'a>(
    verb: &[u8],
    port: &'a [u8],
    digits: &'a [u8],
) -> Result<Directive<'a>, DirectiveRefusal>
    ensures { directives.asked_by result ≡ directives.directive_at verb.now port.now digits.now }
{
    if verb == b"heard".as_slice() {
        Ok(Directive::Heard { port, digits })
    } else {
        Err(DirectiveRefusal::NoDirective)
    }
}

/// The directives of one word.
fn directive_alone<'a>(verb: &[u8]) -> Result<Directive<'a>, DirectiveRefusal>
    ensures { directives.asked_by result ≡ directives.directive_alone verb.now }
{
    if verb == b"round".as_slice() {
        Ok(Directive::Round)
    } else if verb == b"quit".as_slice() {
        Ok(Directive::Quit)
    } else {
        Err(DirectiveRefusal::NoDirective)
    }
}

/// The directives of two words.
fn directive_about<'a>(verb: &[u8], word: &'a [u8]) -> Result<Directive<'a>, DirectiveRefusal>
    ensures { directives.asked_by result ≡ directives.directive_about verb.now word.now }
{
    if verb == b"at".as_slice() {
        Ok(Directive::At(station_in(word)?))
    } else if verb == b"call".as_slice() {
        Ok(Directive::Open(word))
    } else if verb == b"tick".as_slice() {
        Ok(Directive::Tick(number_in(1, MAX_TICK, word)?))
    } else if verb == b"frames".as_slice() {
        frames(word)
    } else if verb == b"lose".as_slice() {
        Ok(Directive::Lose(number_in(0, MAX_LOST, word)?))
    } else if verb == b"restart".as_slice() {
        Ok(Directive::Restart(station_in(word)?))
    } else if verb == b"stop".as_slice() {
        Ok(Directive::Stop(station_in(word)?))
    } else {
        Err(DirectiveRefusal::NoDirective)
    }
}

/// `!frames on` and `!frames off`.
fn frames<'a>(word: &[u8]) -> Result<Directive<'a>, DirectiveRefusal>
    ensures { directives.asked_by result ≡ directives.frames word.now }
{
    if word == b"on".as_slice() {
        Ok(Directive::Frames(true))
    } else if word == b"off".as_slice() {
        Ok(Directive::Frames(false))
    } else {
        Err(DirectiveRefusal::NoDirective)
    }
}

fn number_in(least: u32, most: u32, word: &[u8]) -> Result<u32, DirectiveRefusal>
    ensures { result ≡ directives.number_in least most word.now }
{
    match number_of(least, most, word) {
        Some(number) => Ok(number),
        None => Err(DirectiveRefusal::BadNumber),
    }
}

/// The number of a station, of which there are at most 8.
fn station_in(word: &[u8]) -> Result<u32, DirectiveRefusal>
    ensures { result ≡ directives.station_in word.now }
{
    match number_of(1, MAX_STATIONS, word) {
        Some(number) => Ok(number),
        None => Err(DirectiveRefusal::NoStation),
    }
}

//! What a line of a script says: its kind is named by its first word. Called by `script`.
ghost use Rattle.std.specs.Prelude.{◌≡◌, ◌∷◌, MatchOption, None, Some};
ghost use Rattle.link_life.specs.Lines as lines;
ghost use Rattle.text_lines.specs.Lines.{words_of};

use crate::act::{EndAct, LifeAct, Side};
use crate::life_refusals::LifeWhat;
use crate::sent_text::SentText;
use radio_base::MAX_INFO;
use text_lines::{after_space, first_word, is_text, number_of, past_word};

/// The milliseconds of a day.
const DAY: u32 = 86_400_000;

/// What a line says, or the first thing that is wrong with it.
#[tactic(auto, unfolding(crate::specs::Lines::line_at))]
pub fn read_line(line: &[u8]) -> Result<LifeAct<'_>, LifeWhat>
    ensures { result ≡ lines.line_at line.now }
{
    if !is_text(line) {
        return Err(LifeWhat::Char);
    }
    match first_word(line) {
        Some((first, rest)) => line_of(line, first, rest),
        None => Err(LifeWhat::Word),
    }
}

/// What a line says of which this is the first word, and what stands behind it.
fn line_of<'a>(line: &'a [u8], first: &[u8], rest: &[u8]) -> Result<LifeAct<'a>, LifeWhat>
    ensures { result ≡ lines.line_of line.now (first.now ∷ words_of rest.now) }
{
    if first == b"send".as_slice() {
        send_line(line, rest)
    } else if first == b"tick".as_slice() {
        tick_line(rest)
    } else {
        end_line_if(act_of(first), rest)
    }
}

/// The acts of an end that have no text, by their words.
fn act_of(word: &[u8]) -> Option<EndAct<'static>>
    ensures { result ≡ lines.act_of word.now }
{
    if word == b"setup".as_slice() {
        Some(EndAct::SetUp)
    } else if word == b"close".as_slice() {
        Some(EndAct::Close)
    } else if word == b"take".as_slice() {
        Some(EndAct::Take)
    } else if word == b"arrive".as_slice() {
        Some(EndAct::Arrive)
    } else if word == b"lose".as_slice() {
        Some(EndAct::Lose)
    } else {
        None
    }
}

fn end_line_if<'a>(act: Option<EndAct<'a>>, words: &[u8]) -> Result<LifeAct<'a>, LifeWhat>
    ensures { result ≡ lines.end_line_if act.entry (words_of words.now) }
{
    match act {
        Some(act) => end_line(act, words),
        None => Err(LifeWhat::Word),
    }
}

/// `setup S`, `close S`, `take S`, `arrive S`, `lose S`
fn end_line<'a>(act: EndAct<'a>, words: &[u8]) -> Result<LifeAct<'a>, LifeWhat>
    ensures { result ≡ lines.end_line act.entry (words_of words.now) }
{
    let Some((word, more)) = first_word(words) else {
        return Err(LifeWhat::Count);
    };
    match first_word(more) {
        Some(_) => Err(LifeWhat::Count),
        None => end_at(act, word),
    }
}

#[tactic(auto, unfolding(crate::specs::Lines::end_at))]
fn end_at<'a>(act: EndAct<'a>, word: &[u8]) -> Result<LifeAct<'a>, LifeWhat>
    ensures { result ≡ lines.end_at act.entry word.now }
{
    let side = side_at(word)?;
    Ok(LifeAct::At(side, act))
}

fn side_at(word: &[u8]) -> Result<Side, LifeWhat>
    ensures { result ≡ lines.side_at word.now }
{
    if word == b"a".as_slice() {
        Ok(Side::A)
    } else if word == b"b".as_slice() {
        Ok(Side::B)
    } else {
        Err(LifeWhat::Side)
    }
}

/// `tick MS`
fn tick_line(words: &[u8]) -> Result<LifeAct<'static>, LifeWhat>
    ensures { result ≡ lines.tick_line (words_of words.now) }
{
    let Some((word, more)) = first_word(words) else {
        return Err(LifeWhat::Count);
    };
    match first_word(more) {
        Some(_) => Err(LifeWhat::Count),
        None => tick_at(word),
    }
}

#[tactic(auto, unfolding(crate::specs::Lines::tick_at))]
fn tick_at(word: &[u8]) -> Result<LifeAct<'static>, LifeWhat>
    ensures { result ≡ lines.tick_at word.now }
{
    match number_of(1, DAY, word) {
        Some(passed) => Ok(LifeAct::Tick(passed as u64)),
        None => Err(LifeWhat::Number),
    }
}

/// `send S TEXT`: TEXT may hold spaces.
fn send_line<'a>(line: &'a [u8], words: &[u8]) -> Result<LifeAct<'a>, LifeWhat>
    ensures { result ≡ lines.send_line line.now (words_of words.now) }
{
    match first_word(words) {
        Some((word, _)) => send_at(line, word),
        None => Err(LifeWhat::Count),
    }
}

#[tactic(auto, unfolding(crate::specs::Lines::send_at))]
fn send_at<'a>(line: &'a [u8], word: &[u8]) -> Result<LifeAct<'a>, LifeWhat>
    ensures { result ≡ lines.send_at line.now word.now }
{
    let Some(text) = sent_text(line) else {
        return Err(LifeWhat::Count);
    };
    let side = side_at(word)?;
    let payload = payload_at(text)?;
    Ok(LifeAct::At(side, EndAct::Send(payload)))
}

/// TEXT of a `send` line: what stands after its second word and the one space after that, if that space is there.
#[tactic(auto, unfolding(crate::specs::Lines::sent_text))]
fn sent_text(line: &[u8]) -> Option<&[u8]>
    ensures { MatchOption result (lines.sent_text line.now ≡ None) (λ text. lines.sent_text line.now ≡ Some text.now) }
{
    after_space(past_word(past_word(line)))
}

fn payload_at(text: &[u8]) -> Result<SentText<'_>, LifeWhat>
    ensures { result ≡ lines.payload_at text.now }
{
    if text.is_empty() || text.len() > MAX_INFO {
        return Err(LifeWhat::Text);
    }
    Ok(SentText::new(text))
}

//! The lines of a user's text. Called by the sessions of a station.
ghost use Rattle.std.specs.Prelude.{◌≡◌};
ghost use Rattle.text_lines.specs.UserLines as lines;

use text_lines::place_of;

/// The first line of a user's text, and what stands behind it. A CR ends a line, and an LF right behind that is no part of the text.
#[tactic(auto, using(crate::proofs::FirstLine::line_before, crate::proofs::FirstLine::line_whole, crate::proofs::FirstLine::nothing_behind,))]
pub fn next_line(text: &[u8]) -> (&[u8], &[u8])
    ensures line { result.0.now ≡ lines.first_line text.now }
    ensures behind { result.1.now ≡ lines.behind_line text.now }
{
    match place_of(b'\r', text) {
        Some(end) => (&text[..end], without_lf(&text[end + 1..])),
        None => (text, &text[text.len()..]),
    }
}

fn without_lf(text: &[u8]) -> &[u8]
    ensures { result.now ≡ lines.without_lf text.now }
{
    match text {
        [] => text,
        [first, rest @ ..] => { if *first == b'\n' { rest } else { text } }
    }
}

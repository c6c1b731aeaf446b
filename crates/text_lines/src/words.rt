//! The words of a line, which spaces part. Own profile. Called by `link_life` and `network_file`.
ghost use Rattle.std.specs.Prelude.{◌≡◌, ◌<◌, ◌==◌, ◌∷◌, [], None, Some, length, IfOk, IfSome, MatchOption};
ghost use Rattle.std.specs.List.{slice_split, position};
ghost use Rattle.text_lines.specs.Lines as words;

use std::alloc::{AllocError, Global};

/// The words of a line, which spaces part.
pub fn words_of(alloc: Global, line: &[u8]) -> Result<Vec<&[u8]>, AllocError>
    ensures { IfOk result (λ v. words.texts v.items ≡ words.words_of line.now) }
{
    let pieces = pieces_of(alloc, line)?;
    let mut found = Vec::new(alloc);
    for piece in &pieces {
        if !piece.is_empty() {
            found.push(*piece)?;
        }
    }
    Ok(found)
}

fn pieces_of(alloc: Global, line: &[u8]) -> Result<Vec<&[u8]>, AllocError>
    ensures { IfOk result (λ v. words.texts v.items ≡ slice_split (λ b. b == 32) line.now) }
{
    line.split(|b| *b == b' ').collect(alloc)
}

/// The first word of a line, and what stands behind it: nothing, or a space and what follows. None where it has no word.
pub fn first_word(line: &[u8]) -> Option<(&[u8], &[u8])>
    ensures { MatchOption result (words.words_of line.now ≡ [])
        (λ cut. words.words_of line.now ≡ cut.0.now ∷ words.words_of cut.1.now) }
{
    let rest = after_spaces(line);
    if rest.is_empty() {
        return None;
    }
    Some(at_space(rest))
}

/// A line up to its first space, and from there on.
#[tactic(auto, using(crate::proofs::FirstWords::cut))]
fn at_space(line: &[u8]) -> (&[u8], &[u8])
    ensures front { result.0.now ≡ words.before_space line.now }
    ensures rest { result.1.now ≡ words.after_word line.now }
{
    line.split_at(first_space(line).unwrap_or(line.len()))
}

/// The place of the first space.
fn first_space(line: &[u8]) -> Option<usize>
    ensures place { result ≡ position (λ b. b == 32) line.now }
    ensures within { IfSome result (λ at. at < length line.now) }
{
    line.iter().position(|b| *b == b' ')
}

/// What stands after the one space at the front, if that space is there.
pub fn after_space(rest: &[u8]) -> Option<&[u8]>
    ensures { MatchOption result (words.after_space rest.now ≡ None)
        (λ text. words.after_space rest.now ≡ Some text.now) }
{
    match rest {
        [] => None,
        [_, text @ ..] => Some(text),
    }
}

/// What stands behind the first word of a line: nothing, or a space and what follows.
#[tactic(auto, unfolding(crate::specs::Lines::past_word))]
pub fn past_word(line: &[u8]) -> &[u8]
    ensures { result.now ≡ words.past_word line.now }
{
    at_space(after_spaces(line)).1
}

/// The line without the spaces at its front.
fn after_spaces(line: &[u8]) -> &[u8]
    ensures { result.now ≡ words.after_spaces line.now }
{
    let mut rest = line;
    while !rest.is_empty() && rest[0] == b' ' {
        rest = &rest[1..];
    }
    rest
}

//! The commands, and the words that ask for them. Called by the top call.
ghost use Rattle.std.specs.Prelude.{◌≡◌, ◌<◌, ◌↔◌, ◌∷◌, [], codes, length, position, IfSome, IsTrue};
ghost use Rattle.circuit_table.specs.Pairs.{IsPair};
ghost use Rattle.station_cmd.specs.Words as words;
ghost use Rattle.station_cmd.specs.Words.{IsCommandOf, texts_of};

use circuit_l4::Pair;
use text_lines::number_of;

/// The most files of `try`.
const MAX_FILES: usize = 8;

/// What the program can do.
#[derive(Clone, Copy, Debug)]
pub enum StationCommand<'a> {
    /// `check FILE`
    Check { file: &'a str },
    /// `run FILE`, and `pair=I,D` for the pair that each member gives first: each number from 1 to 255, (1, 1) where none is named
    Run { file: &'a str, pair: Pair },
    /// `try FILE..`, of at most 8 files
    Try { files: &'a [String] },
}

/// The command that the words ask for.
pub fn command_of(words: &[String]) -> Option<StationCommand<'_>>
    ensures { IsCommandOf (texts_of words.now) result }
{
    match words {
        [word, rest @ ..] => command_behind(word.as_bytes(), rest),
        [] => None,
    }
}

/// The command of a word and those behind it.
fn command_behind<'a>(word: &[u8], rest: &'a [String]) -> Option<StationCommand<'a>>
    ensures { IsCommandOf (word.now ∷ texts_of rest.now) result }
{
    if is_check(word) {
        check_of(rest)
    } else if is_run(word) {
        run_of(rest)
    } else if is_try(word) {
        try_of(rest)
    } else {
        None
    }
}

/// `check` of a file, by the words behind it.
fn check_of(rest: &[String]) -> Option<StationCommand<'_>>
    ensures { IsCommandOf (codes "check" ∷ texts_of rest.now) result }
{
    let count = rest.len();
    if count == 1 {
        Some(StationCommand::Check {
            file: rest[0].as_str(),
        })
    } else {
        None
    }
}

/// `run` of a file, with a pair or without.
fn run_of(rest: &[String]) -> Option<StationCommand<'_>>
    ensures { IsCommandOf (codes "run" ∷ texts_of rest.now) result }
{
    let count = rest.len();
    if count == 1 {
        Some(StationCommand::Run {
            file: rest[0].as_str(),
            pair: Pair { index: 1, ident: 1 },
        })
    } else if count == 2 {
        run_with(rest[0].as_str(), rest[1].as_bytes())
    } else {
        None
    }
}

/// `run` of a file with the pair that a word says.
fn run_with<'a>(file: &'a str, word: &[u8]) -> Option<StationCommand<'a>>
    ensures { IsCommandOf (codes "run" ∷ file.now ∷ word.now ∷ []) result }
{
    match pair_of(word) {
        Some(pair) => Some(StationCommand::Run { file, pair }),
        None => None,
    }
}

/// `try` of some files.
fn try_of(files: &[String]) -> Option<StationCommand<'_>>
    ensures { IsCommandOf (codes "try" ∷ texts_of files.now) result }
{
    let count = files.len();
    if count == 0 {
        return None;
    }
    if count > MAX_FILES {
        None
    } else {
        Some(StationCommand::Try { files })
    }
}

fn is_check(word: &[u8]) -> bool
    ensures { IsTrue result ↔ (word.now ≡ codes "check") }
{
    word == b"check".as_slice()
}

fn is_run(word: &[u8]) -> bool
    ensures { IsTrue result ↔ (word.now ≡ codes "run") }
{
    word == b"run".as_slice()
}

fn is_try(word: &[u8]) -> bool
    ensures { IsTrue result ↔ (word.now ≡ codes "try") }
{
    word == b"try".as_slice()
}

/// `pair=I,D`, each number from 1 to 255.
fn pair_of(word: &[u8]) -> Option<Pair>
    ensures value { result ≡ words.pair_at word.now }
    ensures good { IfSome result IsPair }
{
    match word.strip_prefix(b"pair=".as_slice()) {
        Some(numbers) => pair_behind(numbers),
        None => None,
    }
}

/// `I,D`
fn pair_behind(numbers: &[u8]) -> Option<Pair>
    ensures value { result ≡ words.pair_behind numbers.now }
    ensures good { IfSome result IsPair }
{
    match comma_in(numbers) {
        Some(at) => pair_in(&numbers[..at], &numbers[at + 1..]),
        None => None,
    }
}

/// The place of the first comma.
fn comma_in(numbers: &[u8]) -> Option<usize>
    ensures place { result ≡ position words.is_comma numbers.now }
    ensures within { IfSome result (λ at. at < length numbers.now) }
{
    numbers.iter().position(|byte| is_comma(*byte))
}

fn is_comma(byte: u8) -> bool
    ensures { result ≡ words.is_comma byte }
{
    byte == b','
}

fn pair_in(index: &[u8], ident: &[u8]) -> Option<Pair>
    ensures value { result ≡ words.pair_in index.now ident.now }
    ensures good { IfSome result IsPair }
{
    let Some(index) = number_of(1, 255, index) else {
        return None;
    };
    let Some(ident) = number_of(1, 255, ident) else {
        return None;
    };
    Some(Pair {
        index: index as u8,
        ident: ident as u8,
    })
}

//! The words that end a try. Called by the crates that run a station, for the line of a user that is next to be done while something is
//! tried.
ghost use Rattle.std.specs.Prelude.{◌≡◌};
ghost use Rattle.text_lines.specs.Lines.{texts};
ghost use Rattle.station_prompt.specs.Commands as commands;

use crate::verb::is_form;

/// Whether the words of a line, in capital letters, end a try: `Bye`, `Quit` or `Abort`, alone.
pub fn ends_try(words: &[&[u8]]) -> bool
    ensures { result ≡ commands.ends_try (texts words.now) }
{
    match words {
        [word] => {
            is_form(word, b"BYE", 1) || is_form(word, b"QUIT", 1) || is_form(word, b"ABORT", 1)
        }
        _ => false,
    }
}

//! The lines of a text. Called by `session`.
ghost use Rattle.std.specs.Prelude.{◌≡◌, ◌≤◌, drop, length};
ghost use Rattle.node_model.specs.Asking as asking;

use text_lines::place_of;

/// The first line of a text: up to its first CR, or all of it.
pub fn first_line(text: &[u8]) -> &[u8]
    ensures { result.now ≡ asking.first_line text.now }
{
    &text[..line_end(text)]
}

/// How many bytes of a text are done with when its first line is: its CR is too, and an LF right behind that.
pub fn line_size(text: &[u8]) -> usize
    ensures behind { drop result text.now ≡ asking.behind_line text.now }
    ensures most { result ≤ length text.now }
{
    let end = line_end(text);
    if end == text.len() {
        end
    } else if end + 1 == text.len() {
        end + 1
    } else if text[end + 1] == b'\n' {
        end + 2
    } else {
        end + 1
    }
}

/// How long the first line is.
fn line_end(text: &[u8]) -> usize
    ensures value { result ≡ length (asking.first_line text.now) }
    ensures most { result ≤ length text.now }
{
    match place_of(b'\r', text) {
        Some(end) => end,
        None => text.len(),
    }
}

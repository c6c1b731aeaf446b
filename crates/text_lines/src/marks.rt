//! Where a text is parted by a byte. Called by `node_core` and `station_prompt` for the CR at the end of a line that a user types, and by
//! `network_file` and `tool_cmd` for the marks in words.
ghost use Rattle.std.specs.Prelude.{◌≡◌, ◌<◌, ◌==◌, length, IfSome};
ghost use Rattle.std.specs.List.{position};

/// The place of the first such byte. None where there is none.
pub fn place_of(mark: u8, text: &[u8]) -> Option<usize>
    ensures place { result ≡ position (λ b. b == mark) text.now }
    ensures within { IfSome result (λ at. at < length text.now) }
{
    text.iter().position(|b| *b == mark)
}

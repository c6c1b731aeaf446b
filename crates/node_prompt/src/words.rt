//! A line in capital letters. Called by `command`.
ghost use Rattle.std.specs.Prelude.{◌≡◌, ◌≤◌, length, map};
ghost use Rattle.node_prompt.specs.Commands as words;

use arrayvec::ArrayVec;

/// The most bytes of a line.
pub const MAX_LINE: usize = 80;

/// A line in capital letters.
pub type CapitalLine = ArrayVec<u8, 80>;

/// The line with a to z as A to Z.
pub fn capitals(line: &[u8]) -> CapitalLine
    requires { length line.now ≤ 80 }
    ensures { result.items ≡ map words.capital line.now }
{
    let mut capitals = CapitalLine::new();
    for b in line {
        capitals.push(capital(*b));
    }
    capitals
}

fn capital(b: u8) -> u8
    ensures { result ≡ words.capital b }
{
    b.to_ascii_uppercase()
}

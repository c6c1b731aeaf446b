//! Lines in capital letters. Called by the crates that run a station.
ghost use Rattle.std.specs.Prelude.{◌≡◌, map, IfOk};
ghost use Rattle.station_prompt.specs.Commands as words;

use radio_base::NoMemory;
use std::alloc::Global;

/// The most bytes of a line (this project's profile).
pub const MAX_LINE: usize = 256;

/// A line or a word in capital letters, with a point for each byte that isn't printed.
pub fn capitals_of(alloc: Global, line: &[u8]) -> Result<Vec<u8>, NoMemory>
    ensures { IfOk result (λ capitals. capitals.items ≡ map words.capital line.now) }
{
    let mut capitals = Vec::new(alloc);
    for byte in line {
        capitals.push(capital(*byte))?;
    }
    Ok(capitals)
}

fn capital(byte: u8) -> u8
    ensures { result ≡ words.capital byte }
{
    if byte < 0x20 || byte > 0x7E {
        b'.'
    } else {
        byte.to_ascii_uppercase()
    }
}

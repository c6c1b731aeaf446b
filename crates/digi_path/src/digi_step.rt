//! What a station does with a frame by its path (AX.25 2.2, sections 3.12 and C2.5). Called by `node_core`.
ghost use Rattle.std.specs.Prelude.{◌≡◌, ◌<◌, ◌≤◌, length, slice_set};
ghost use Rattle.digi_path.specs.Paths.{action, action_of};

use crate::h_bit::{times_repeated, with_h_bit};
use ax_address::{Address, Call, Path};

/// What a station does with a frame that it hears, by the frame's addresses.
#[derive(Debug, Drop, PartialEq, Eq)]
pub enum DigiStep {
    /// Every repeater has repeated it, and it is addressed to this station.
    ForMe,
    /// This station is its next repeater, and sends it on with this path.
    Repeat(Path),
    /// Another station is its next repeater.
    NotYet,
    /// Every repeater has repeated it, and it is addressed to another station.
    Heard,
}

/// What the station `own` does with a frame to `dest` that travels this path (AX.25 2.2, section 3.12).
///
/// The first repeater whose H bit is unset decides. Where that is `own`, the frame is repeated, with this bit set
/// and nothing else changed. Where no H bit is unset, the destination decides.
pub fn step(path: &Path, dest: &Call, own: &Call) -> DigiStep
    ensures { action_of result ≡ action path.now.items dest.now own.now }
{
    let path = path.as_slice();
    let next = times_repeated(path);
    match path.get(next) {
        Some(repeater) if repeater.call == *own => {
            DigiStep::Repeat(replaced(path, next, with_h_bit(repeater, true)))
        }
        Some(_) => DigiStep::NotYet,
        None if dest == own => DigiStep::ForMe,
        None => DigiStep::Heard,
    }
}

/// The path with another address at `at`.
fn replaced(path: &[Address], at: usize, address: Address) -> Path
    requires fits { length path.now ≤ 8 }
    requires within { at < length path.now }
    ensures { result.items ≡ slice_set path.now at address }
{
    let mut new = Path::new();
    for old in path {
        new.push(*old);
    }
    new[at] = address;
    new
}

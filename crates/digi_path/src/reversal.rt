//! The way back of an answer. Called by `link_table`.
ghost use Rattle.std.specs.Prelude.{◌≡◌};
ghost use Rattle.digi_path.specs.Paths.{way_back};

use crate::h_bit::with_h_bit;
use ax_address::Path;

/// The path of an answer: the repeaters in reverse order, none of which has repeated it yet (AX.25 2.2, section
/// 3.12). Their reserved bits stay as they came.
pub fn reversed(path: &Path) -> Path
    ensures { result.items ≡ way_back path.now.items }
{
    let mut back = Path::new();
    for repeater in path.as_slice() {
        back.push(with_h_bit(repeater, false));
    }
    back.reverse();
    back
}

//! Laws of the definitions of lines and replies alone. No code calls them.

ghost use Rattle.std.specs.Prelude.{◌≡◌};

use crate::MAX_LINE;

/// The most bytes of a line.
pub fn numbers()
    ensures { MAX_LINE ≡ 256 }
{}

//! Laws of the definitions of fragments alone. No code calls them.

ghost use Rattle.std.specs.Prelude.{◌≡◌};
ghost use Rattle.circuit_reassembly.specs.Laws.{FragmentsMakeTheMessage, GathersTheMessage};

use crate::{FRAGMENT, LONGEST};

/// The fragments of a message, joined in order, are the message. Each has 1 to 236 bytes, each but the last has 236, and
/// exactly the last has the flag that no more follow.
pub fn fragments_make_the_message()
    ensures { FragmentsMakeTheMessage }
{}

/// Where nothing is held, the fragments of a message of 1 to 8,192 bytes are answered by "more" and at the last by the
/// whole message. Nothing is held then.
pub fn gathers_the_message()
    ensures { GathersTheMessage }
{}

/// The most bytes of a fragment, and of a message.
pub fn numbers()
    ensures fragment { FRAGMENT ≡ 236 }
    ensures longest { LONGEST ≡ 8192 }
{}

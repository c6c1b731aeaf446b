//! What holds of the definitions alone. No code calls them.
ghost use Rattle.std.specs.Prelude.{◌≡◌, ◌^◌};
ghost use Rattle.radio_base.specs.Modulus.{OnePlace};

use crate::{COUNT_MAX, MAX_INFO, NETROM_PID, SEGMENT_PID, TEXT_PID};

/// A number on the air has at most one place among as many numbers as there are on the air.
pub fn one_place()
    ensures { OnePlace }
{}

/// The numbers that the crates share.
pub fn numbers()
    ensures count_max { COUNT_MAX ≡ 2 ^ 62 }
    ensures info { MAX_INFO ≡ 256 }
    ensures netrom { NETROM_PID ≡ 0xCF }
    ensures text { TEXT_PID ≡ 0xF0 }
    ensures segment { SEGMENT_PID ≡ 0x08 }
{}

//! How many overtakers are too many, by the version of a file. `start` of net_world calls it.
ghost use Rattle.std.specs.Prelude.{◌≡◌, nat_le, if◌then◌else◌};

use circuit_verdict::Allowance;

/// How many overtakers are too many in files of a version.
pub fn allowance_of(version: u8) -> Allowance
    ensures { result ≡ (if nat_le 3 version then Allowance.OfWindow else Allowance.Fixed) }
{
    if version >= 3 {
        Allowance::OfWindow
    } else {
        Allowance::Fixed
    }
}

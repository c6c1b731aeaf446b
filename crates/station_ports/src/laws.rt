//! Laws of the definitions of what a station keeps of its radios alone. No code calls them.

ghost use Rattle.std.specs.Prelude.{◌≡◌};
ghost use Rattle.station_ports.specs.Laws.{SpellsWithDest, SpellsWithSource};

use crate::MAX_PORTS;

/// Octets that spell a frame spell the same one with another destination or source, once that call stands there.
pub fn readdressed()
    ensures dest { SpellsWithDest }
    ensures source { SpellsWithSource }
{}

/// The most ports of a station.
pub fn numbers()
    ensures { MAX_PORTS ≡ 8 }
{}

//! Calls as they are typed. Called by the crates that run a station, for what directives and consoles name.
ghost use Rattle.std.specs.Prelude.{◌≡◌, IfOk, map};
ghost use Rattle.std.specs.Result.{result_ok};
ghost use Rattle.ax_address.specs.Callsign as calls;
ghost use Rattle.station_prompt.specs.Commands.{capital};

use ax_address::Call;
use radio_base::NoMemory;
use station_prompt::capitals_of;
use std::alloc::Global;

/// The call that a word spells in letters of either case, where it spells one.
pub fn call_in(alloc: Global, word: &[u8]) -> Result<Option<Call>, NoMemory>
    ensures { IfOk result (λ call. call ≡ result_ok (calls.call_at (map capital word.now))) }
{
    let capitals = capitals_of(alloc, word)?;
    Ok(Call::read(&capitals).ok())
}

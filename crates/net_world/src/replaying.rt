//! Replays. Called by look_cmd, and by node_cmd through net_replay.
ghost use Rattle.std.specs.Prelude.{◌≡◌, ◌≤◌, IfOk, IfErr, length};
ghost use Rattle.net_model.specs.World.{most_frames};
ghost use Rattle.net_model.specs.SoundPlans.{IsSound};
ghost use Rattle.net_model.specs.Circuits.{allowance_of};
ghost use Rattle.net_model.specs.Lines as lines;
ghost use Rattle.net_model.specs.Traces.{IsRefusal, allowance_in, left_of};
ghost use Rattle.net_model.specs.Standing.{IsTraceOf};

use crate::world::start;
use net_model::{ReplayRefusal, Trace};
use network_file::Network;
use std::alloc::Global;

/// Runs a network from its start to its last line.
pub fn replay(alloc: Global, network: &Network) -> Result<Trace, ReplayRefusal>
    ensures ok { IfOk result (λ trace. IsTraceOf (left_of trace) (lines.world network.now)) }
    ensures allowance { IfOk result (λ trace. allowance_in trace ≡ allowance_of network.now) }
    ensures sound { IfOk result (λ _. IsSound network.now) }
    ensures few { IfOk result (λ trace. length (left_of trace).air ≤ most_frames) }

    // More frames than may be in the air would have been put there, or memory ran out.
    ensures err { IfErr result (λ e. IsRefusal e (length (lines.world network.now).air)) }
{
    let mut world = start(alloc, network)?;
    world.do_all(network, network.instructions())?;
    Ok(world.left())
}

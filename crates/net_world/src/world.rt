//! A replay while it runs, and its start. Called by `replaying`; each file of lines and moves adds methods to it.
ghost use Rattle.std.specs.Prelude.{◌≡◌, IfOk};
ghost use Rattle.circuit_table.specs.Runs.{AreStarts};
ghost use Rattle.net_model.specs.SoundPlans.{first_sets};
ghost use Rattle.net_world.specs.Running.{Stands, course};
ghost use Rattle.net_model.specs.World as worlds;

use circuit_verdict::Allowance;
use net_model::{
    Air, Ends, Member, NumberedEvent, Trace, allowance_of, declared_by_number, members_of,
};
use network_file::{Channel, Network};
use radio_base::{Moment, NoMemory};
use std::alloc::Global;

/// A replay while it runs: the channels, the allowance, the nodes by number, the time, the frames in the air, and the events so far.
#[derive(Drop)]
pub(crate) struct World<'a> {
    pub(crate) alloc: Global,
    pub(crate) channels: &'a [Channel],
    /// How many overtakers are too many.
    pub(crate) allowance: Allowance,
    pub(crate) members: Vec<Member>,
    pub(crate) time: Moment,
    pub(crate) air: Air,
    pub(crate) ends: Ends,
    pub(crate) events: Vec<NumberedEvent>,
}

/// The nodes as they start, at time 0.
pub(crate) fn start(alloc: Global, network: &Network) -> Result<World<'_>, NoMemory>
    ensures stands { IfOk result (λ world. Stands (course world) (worlds.start network.now)) }
    ensures starts { IfOk result (λ _. AreStarts (first_sets network.now)) }
{
    let declared = declared_by_number(alloc, network)?;
    let members = members_of(alloc, network, &declared)?;
    Ok(World {
        alloc,
        channels: network.channels(),
        allowance: allowance_of(network.version()),
        members,
        time: Moment(0),
        air: Air::new(alloc),
        ends: Ends::new(alloc)?,
        events: Vec::new(alloc),
    })
}

impl World<'_> {
    ghost use Rattle.std.specs.Prelude.{◌≡◌, ◌≤◌, length};
    ghost use Rattle.net_model.specs.Traces.{left_of};
    ghost use Rattle.net_model.specs.World.{most_frames};
    ghost use Rattle.net_world.specs.Running.{course};

    /// What it leaves.
    pub(crate) fn left(self) -> Trace
        ensures left { left_of result ≡ (course self.entry).left }
        ensures few { length self.entry.air ≤ most_frames }
    {
        Trace::of(
            self.members,
            self.air,
            self.ends,
            self.events,
            self.allowance,
        )
    }
}

//! What a replay leaves. net_world makes it, and the crates of reports, verdicts and traces read it.

use crate::air::{Air, Aired};
use crate::ends::{EndRecord, Ends};
use crate::events::NumberedEvent;
use crate::members::Member;
use circuit_verdict::Allowance;

/// What is left of a replay: the nodes by number, the frames in the air, the ends that each node ever made, and the events in
/// their order.
#[derive(Drop)]
pub struct Trace {
    members: Vec<Member>,
    air: Air,
    ends: Ends,
    events: Vec<NumberedEvent>,
    allowance: Allowance,
}

impl Trace {
    ghost use Rattle.std.specs.Prelude.{◌≡◌, ◌≤◌, length};
    ghost use Rattle.net_model.specs.World.{most_frames};
    ghost use Rattle.net_model.specs.Ends.{ends_at};
    ghost use Rattle.net_model.specs.Traces.{allowance_in, left_of, left_with};

    /// What these leave.
    pub fn of(
        members: Vec<Member>,
        air: Air,
        ends: Ends,
        events: Vec<NumberedEvent>,
        allowance: Allowance,
    ) -> Trace
        ensures left { left_of result ≡ left_with members.items air ends events.items allowance }
        ensures few { length air ≤ most_frames }
    {
        Trace {
            members,
            air,
            ends,
            events,
            allowance,
        }
    }

    /// The nodes as they were left, by number, each as it is declared and with its mail.
    pub fn members(&self) -> &[Member]
        ensures { result.now ≡ (left_of self.now).members }
    {
        &self.members
    }

    /// The frames in the air, in the order in which they were put there.
    pub fn frames(&self) -> &[Aired]
        ensures { result.now ≡ (left_of self.now).air }
    {
        self.air.frames()
    }

    /// The ends that the node of that number ever made, by number.
    pub fn ends_of(&self, node: u8) -> &[EndRecord]
        ensures { result.now ≡ ends_at node (left_of self.now).ends }
    {
        self.ends.of_node(node)
    }

    /// The events in their order.
    pub fn events(&self) -> &[NumberedEvent]
        ensures { result.now ≡ (left_of self.now).events }
    {
        &self.events
    }

    /// How many overtakers are too many.
    pub fn allowance(&self) -> Allowance
        ensures { result ≡ allowance_in self.now }
    {
        self.allowance
    }
}

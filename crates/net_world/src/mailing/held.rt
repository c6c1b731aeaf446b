//! What an agent asks of the ends that its node holds. Called by `mailing`, `taking` and `offering`.
ghost use Rattle.std.specs.Prelude.{◌≡◌, ℕ, IfOk, slice_get};
ghost use Rattle.std.specs.Option.{option_copied};
ghost use Rattle.circuit_l4.specs.State as ends;
ghost use Rattle.circuit_table.specs.CircuitSets as sets;
ghost use Rattle.circuit_table.specs.CircuitSets.{LentStands};
ghost use Rattle.circuit_table.specs.Sets.{end_of};
ghost use Rattle.circuit_table.specs.Standing.{take_answer};
ghost use Rattle.net_world.specs.Agents as agents;
ghost use Rattle.net_model.specs.Mailing as mailing;
ghost use Rattle.net_model.specs.Mailing.{ends_here};
ghost use Rattle.net_world.specs.Running.{NodeLent, Stands, course};
ghost use Rattle.net_model.specs.World as worlds;

use crate::world::World;
use ax_address::Call;
use circuit_l4::{End, EndPhase};
use node_core::Node;
use radio_base::NoMemory;

/// A node holds 64 ends at most.
const MAX_ENDS: usize = 64;

impl World<'_> {
    /// The ends that the node at a place holds, by number. They are named first, since taking its last message takes an ended end
    /// away.
    pub(crate) fn held_ids(&self, at: usize) -> Result<Vec<u64>, NoMemory>
        ensures { IfOk result (λ ids. (w : worlds.World) → Stands (course self.now) w
            → ids.items ≡ sets.held_ids (ends_here at w)) }
    {
        let mut ids = Vec::new(self.alloc);
        for nth in 0..MAX_ENDS + 1 {
            match self.held_id(at, nth) {
                Some(id) => ids.push(id)?,
                None => return Ok(ids),
            }
        }
        Err(NoMemory)
    }

    fn held_id(&self, at: usize, nth: usize) -> Option<u64>
        ensures { (w : worlds.World) → Stands (course self.now) w
            → result ≡ slice_get (sets.held_ids (ends_here at w)) nth }
    {
        self.node_at(at)?.circuits().held(nth)
    }

    /// The end of that number at the node at a place.
    pub(crate) fn end_at(&self, at: usize, id: u64) -> Option<&End>
        ensures { (w : worlds.World) → Stands (course self.now) w
            → LentStands (option_copied result) (end_of id (ends_here at w)) }
    {
        self.node_at(at)?.circuits().end(id)
    }

    /// The node of the partner of that end.
    pub(crate) fn partner_at(&self, at: usize, id: u64) -> Option<Call>
        ensures { (w : worlds.World) → Stands (course self.now) w
            → result ≡ sets.partner_at (end_of id (ends_here at w)) }
    {
        self.node_at(at)?.circuits().partner(id)
    }

    /// Whether a message waits at an end.
    pub(crate) fn has_message(&self, at: usize, id: u64) -> bool
        ensures { (w : worlds.World) → Stands (course self.now) w
            → result ≡ mailing.waits (take_answer (end_of id (ends_here at w))) }
    {
        match self.end_at(at, id) {
            Some(end) => end.has_message(),
            None => false,
        }
    }

    /// Whether an end takes a message.
    pub(crate) fn may_write(&self, at: usize, id: u64, message: &[u8]) -> bool
        ensures { (w : worlds.World) → Stands (course self.now) w → result ≡ mailing.may_write at id message.now w }
    {
        match self.end_at(at, id) {
            Some(end) => end.may_write(message).is_ok(),
            None => false,
        }
    }

    /// The node of the partner of an end, where the node asked for the circuit and it is up.
    pub(crate) fn dest_of(&self, at: usize, id: u64) -> Option<Call>
        ensures { (w : worlds.World) → Stands (course self.now) w
            → result ≡ mailing.dest_of (end_of id (ends_here at w)) }
    {
        if !self.is_requested(at, id) {
            return None;
        }
        if !self.is_up(at, id) {
            return None;
        }
        self.partner_at(at, id)
    }

    fn is_requested(&self, at: usize, id: u64) -> bool
        ensures { (w : worlds.World) → Stands (course self.now) w
            → result ≡ agents.is_requested (end_of id (ends_here at w)) }
    {
        self.requested_at(at, id).unwrap_or(false)
    }

    /// Whether the node at a place asked for the circuit of an end, where it holds the end.
    fn requested_at(&self, at: usize, id: u64) -> Option<bool>
        ensures { (w : worlds.World) → Stands (course self.now) w
            → result ≡ sets.requested_at (end_of id (ends_here at w)) }
    {
        self.node_at(at)?.circuits().requested(id)
    }

    fn is_up(&self, at: usize, id: u64) -> bool
        ensures { (w : worlds.World) → Stands (course self.now) w
            → result ≡ agents.is_up_end (end_of id (ends_here at w)) }
    {
        match self.end_at(at, id) {
            Some(end) => is_up(end.facts().phase),
            None => false,
        }
    }

    /// The node at a place, where there is one.
    fn node_at(&self, at: usize) -> Option<&Node>
        ensures { (w : worlds.World) → Stands (course self.now) w
            → NodeLent (option_copied result) (slice_get w.nodes at) }
    {
        let member = self.members.get(at)?;
        Some(&member.node)
    }
}

fn is_up(phase: EndPhase) -> bool
    ensures { result ≡ ends.is_up phase }
{
    matches!(phase, EndPhase::Up)
}

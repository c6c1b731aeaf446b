//! Restarts of nodes. Called by `doing`.
ghost use Rattle.std.specs.Prelude.{◌≡◌, ◌≤◌, ◌<◌, ℕ, OnOk, length, slice_get};
ghost use Rattle.circuit_table.specs.Pairs.{IsPair};
ghost use Rattle.net_model.specs.Lines as lines;
ghost use Rattle.net_world.specs.Running as running;
ghost use Rattle.net_world.specs.Running.{GoesOn, Stands, course};
ghost use Rattle.net_model.specs.World as worlds;

use crate::world::World;
use circuit_l4::Pair;
use net_model::{Event, LostEnd, started};
use network_file::Network;
use radio_base::{COUNT_MAX, NoMemory};

impl World<'_> {
    /// The node of that number starts again, at a pair: its ends are lost.
    pub(crate) fn restart(
        &mut self,
        network: &Network,
        line: u32,
        number: u8,
        pair: Pair,
    ) -> Result<(), NoMemory>
        requires { IsPair pair }
        ensures { OnOk result (GoesOn (course self.old) (course self.new)
            (lines.restart network.now line number pair)) }
    {
        let at = self.place_of(number);
        if at < self.members.len() {
            self.restart_at(network, line, at, pair)
        } else {
            Ok(())
        }
    }

    fn restart_at(
        &mut self,
        network: &Network,
        line: u32,
        at: usize,
        pair: Pair,
    ) -> Result<(), NoMemory>
        requires pair { IsPair pair }
        requires within { at < length self.old.members.items }
        ensures { OnOk result (GoesOn (course self.old) (course self.new)
            (worlds.at_node at (lines.restarts network.now line at pair))) }
    {
        let declared = self.members[at].declared;
        let node = declared.node;
        let made = self.ends.of_node(node).len() as u64;
        if made > COUNT_MAX {
            return Err(NoMemory);
        }
        self.tell(line, Event::Restarted { node, pair })?;
        self.tell_losses(line, at, node, made)?;
        let anew = started(self.alloc, network, &declared, pair, made + 1)?;
        self.members[at].node = anew;
        Ok(())
    }

    /// Tells which of so many ends the node at a place holds: they are lost.
    fn tell_losses(&mut self, line: u32, at: usize, node: u8, made: u64) -> Result<(), NoMemory>
        requires within { at < length self.old.members.items }
        requires made { made ≤ 4611686018427387904 }
        ensures goes { OnOk result (GoesOn (course self.old) (course self.new)
            (λ w. worlds.tell line (running.losses_at node made (slice_get w.nodes at)) w)) }
        ensures members { self.new.members.items ≡ self.old.members.items }
    {
        for id in 1..made + 1 {
            self.tell_loss(line, at, node, id)?;
        }
        Ok(())
    }

    /// Tells that an end of the node at a place is lost, where it is held.
    fn tell_loss(&mut self, line: u32, at: usize, node: u8, end: u64) -> Result<(), NoMemory>
        requires { at < length self.old.members.items }
        ensures goes { OnOk result (GoesOn (course self.old) (course self.new)
            (λ w. worlds.tell line (running.loss_at node end (slice_get w.nodes at)) w)) }
        ensures members { self.new.members.items ≡ self.old.members.items }
    {
        match self.members[at].node.facts(end) {
            Some(facts) => {
                let end = Box::new(self.alloc, LostEnd { id: end, facts })?;
                self.tell(line, Event::Lost { node, end })?;
                Ok(())
            }
            None => Ok(()),
        }
    }
}

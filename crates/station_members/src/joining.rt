//! One member more: it and each other are fellows. Called by `Members`.
ghost use Rattle.std.specs.Prelude.{◌≡◌, false, IfOk, OnOk};
ghost use Rattle.node_core.specs.Configs.{IsConfig};
ghost use Rattle.node_core.specs.declared.quality_refusal.QualityRefusal.TheVariants as qualities;
ghost use Rattle.station_members.specs.Standing.{PlaneGoes, PlaneStands};
ghost use Rattle.station_members.specs.States as states;
ghost use Rattle.station_members.specs.States.{State};

use crate::backplane::Backplane;
use crate::{MAX_MEMBERS, MemberConfig, nodes};
use ax_address::{Alias, Call};
use node_core::{Node, QualityRefusal, UserAct};
use radio_base::{Moment, NoMemory};

impl Backplane {
    /// One member more, behind the others, where fewer than 8 stand. Whether it is. It and each other is a fellow.
    pub(crate) fn add(&mut self, config: MemberConfig) -> Result<bool, NoMemory>
        requires config { IsConfig config.node }
        requires prompt { config.node.prompt ≡ false }
        ensures goes { OnOk result (PlaneGoes (states.add config) self.old self.new) }
        ensures added { IfOk result (λ added. (s : State) → PlaneStands self.old s → added ≡ states.has_room s) }
    {
        let last = self.nodes.len();
        if last >= MAX_MEMBERS {
            return Ok(false);
        }
        self.make(config)?;
        self.meet_all(last)?;
        Ok(true)
    }

    fn make(&mut self, config: MemberConfig) -> Result<(), NoMemory>
        requires config { IsConfig config.node }
        requires prompt { config.node.prompt ≡ false }
        ensures { OnOk result (PlaneGoes (states.made config) self.old self.new) }
    {
        self.nodes.push(Node::hosting(self.alloc, config.node)?)?;
        let node = config.node;
        self.desk.seat(self.alloc, &node, config.rules)?;
        Ok(())
    }

    /// The member at a place, and each before it, are fellows.
    fn meet_all(&mut self, last: usize) -> Result<(), NoMemory>
        ensures { OnOk result (PlaneGoes (states.meet_all last) self.old self.new) }
    {
        for at in 0..last {
            self.meet_both(last, at)?;
        }
        Ok(())
    }

    /// The members at two places are fellows.
    fn meet_both(&mut self, last: usize, at: usize) -> Result<(), NoMemory>
        ensures { OnOk result (PlaneGoes (states.meet_both last at) self.old self.new) }
    {
        self.meet_at(last, at)?;
        self.meet_at(at, last)?;
        Ok(())
    }

    /// The member at a place has the one at another as fellow.
    fn meet_at(&mut self, fellow: usize, at: usize) -> Result<(), NoMemory>
        ensures { OnOk result (PlaneGoes (states.meet_at fellow at) self.old self.new) }
    {
        match self.desk.name_at(fellow) {
            Some((call, alias)) => {
                self.meet(&call, &alias, at)?;
                Ok(())
            }
            None => Ok(()),
        }
    }

    /// The member at a place has this fellow: a path of quality 255, and a locked route of that quality.
    fn meet(&mut self, call: &Call, alias: &Alias, at: usize) -> Result<(), NoMemory>
        ensures { OnOk result (PlaneGoes (states.meet call.now alias.now at) self.old self.new) }
    {
        self.give_quality(call, at)?;
        let lock = UserAct::Lock {
            dest: *call,
            alias: *alias,
            neighbour: *call,
            quality: 255,
        };
        nodes::give_act_only(&mut self.nodes, at, &lock, Moment(0))?;
        Ok(())
    }

    fn give_quality(&mut self, call: &Call, at: usize) -> Result<(), NoMemory>
        ensures { OnOk result (PlaneGoes (states.meet_quality call.now at) self.old self.new) }
    {
        match nodes::give_quality(&mut self.nodes, at, call, 255) {
            Ok(()) => Ok(()),
            Err(why) => {
                unless_spent(why)?;
                Ok(())
            }
        }
    }
}

/// Memory ran out, or there was no room.
fn unless_spent(why: QualityRefusal) -> Result<(), NoMemory>
    ensures { OnOk result (why ≡ qualities.Full) }
{
    match why {
        QualityRefusal::Full => Ok(()),
        QualityRefusal::NoMemory => Err(NoMemory),
    }
}

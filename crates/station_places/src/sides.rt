//! All at which users of a station are. Asked by the users of a station, for the side of each of them.
ghost use Rattle.std.specs.Prelude.{◌≡◌, ◌↔◌, IsErr, IsErrOf, IsTrue, OnOk};
ghost use Rattle.node_core.specs.Acts.{act_of};
ghost use Rattle.node_core.specs.Standing.{IsAnswer};
ghost use Rattle.node_core.specs.declared.acts.ActRefusal.TheVariants as refusals;
ghost use Rattle.station_places.specs.Sides as sides;
ghost use Rattle.station_places.specs.Sides.{SidesGo};

use crate::ConsoleOuts;
use node_core::{ActDone, ActRefusal, UserAct};
use radio_base::{Moment, NoMemory};
use station_members::Members;

/// All at which users of a station are: its members, with their links and the ends of their circuits, and its consoles.
///
/// - Looks: `has_room`, `goes_on`, `has_text`, `has_ended`, `is_gone`; of links `link_room`, `is_called`, `is_closing`.
/// - Steps: `take_from`, `drop_texts`, `close_at`, `give`, `act`.
///
/// What each does stands in `specs/Looks.antt`, `specs/Taking.antt` and `specs/Giving.antt`. Once a call has answered NoMemory nothing is
/// said of the members any more.
#[derive(Drop)]
pub struct Sides {
    pub members: Members,
    /// What waits for the consoles.
    pub outs: ConsoleOuts,
}

impl Sides {
    /// Does something at the member at a place. Where that is refused, the act itself changes nothing.
    pub fn act(&mut self, member: usize, act: &UserAct, now: Moment) -> Result<(), NoMemory>
        ensures goes { OnOk result (SidesGo (sides.act now member (act_of act.now)) self.old self.new) }
        ensures memory { IsErr result ↔ IsTrue self.new.members.spent }
        ensures outs { self.new.outs ≡ self.old.outs }
    {
        done(self.members.act(member, act, now))
    }
}

/// An act was done or refused, or memory ran out.
fn done(outcome: Result<ActDone, ActRefusal>) -> Result<(), NoMemory>
    ensures answer { OnOk result (IsAnswer outcome) }
    ensures memory { IsErr result ↔ IsErrOf outcome refusals.NoMemory }
{
    match outcome {
        Ok(_) => Ok(()),
        Err(ActRefusal::NoMemory) => Err(NoMemory),
        Err(_) => Ok(()),
    }
}

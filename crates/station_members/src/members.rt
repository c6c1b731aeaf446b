//! The members of a station. Called by the crates that run a station.
ghost use Rattle.std.specs.Prelude.{◌≡◌, ◌≤◌, ◌↔◌, length, false, slice_get, IfOk, OnOk, OnErr, IsErr, IsErrOf, IsTrue};
ghost use Rattle.std.specs.Option.{option_copied, option_map};
ghost use Rattle.link_table.specs.Standing.{NotNoMemory};
ghost use Rattle.node_core.specs.Acts.{act_of};
ghost use Rattle.node_core.specs.Configs.{IsConfig};
ghost use Rattle.node_core.specs.Qualities.{QualityNotNoMemory};
ghost use Rattle.node_core.specs.Standing.{IsAnswer};
ghost use Rattle.station_members.specs.Looks as looks;
ghost use Rattle.station_members.specs.States as states;
ghost use Rattle.station_members.specs.States.{State};

use crate::backplane::Backplane;
use crate::{BeaconConfig, MemberConfig, MemberRules};
use ax_address::{Alias, Call, Path};
use link_table::PathRefusal;
use node_core::{ActDone, ActRefusal, Node, NodeEntry, QualityRefusal, UserAct, wants_memory};
use radio_base::{Moment, NoMemory};
use station_ports::{Heard, PortFrame};
use std::alloc::Global;
use std::marker::Model;

/// The members of a station: several nodes with their ports, joined by the backplane. A pure machine, which reads no clock and no stream.
/// Members are named by their place, from 0, in the order in which they were added.
///
/// - Making: `new`, `add`, `add_beacon`, `set_path`, `set_quality`.
/// - Inputs, with their moments: `hear`, `tick`, `round`, `act`; and `remember`.
/// - After each input `settle_frames` and `next_entry` until nothing is done any more: so what members have put out goes, what passes in
///   the backplane comes, and what has happened is told.
/// - Output: `next_frame`. Looks: the others.
///
/// Once a call has answered NoMemory they are spent, and answer that ever after. What each call does stands in `specs/States.antt`.
#[derive(Drop)]
pub struct Members {
    plane: Backplane,
    spent: bool,
}

impl Model for Members {
    ghost use Rattle.std.specs.Coded.{codes};
    ghost use Rattle.indexmap.specs.Layout.{hash_map_code};
    ghost use Rattle.circuit_table.specs.contracts.held_ends.HeldEnds.{the_row as held_row};
    ghost use Rattle.station_members.specs.Standing.{Kept, view_of};

    ghost Value = { Kept };

    ghost coded = { Prim.hlevel (codes, hash_map_code, held_row.coded) };

    ghost view = { λ m. view_of m.plane m.spent };
}

impl Members {
    ghost use Rattle.station_members.specs.Standing.{MembersGo, MembersStand, MembersStay, told_by};
    ghost use Rattle.node_core.specs.declared.acts.ActRefusal.TheVariants as refusals;
    ghost use Rattle.link_table.specs.declared.path_refusal.PathRefusal.TheVariants as path_refusals;
    ghost use Rattle.node_core.specs.declared.quality_refusal.QualityRefusal.TheVariants as quality_refusals;

    /// A station of so many ports, without members, that hears nobody of these.
    pub fn new(alloc: Global, ports: usize, deny: &[Call]) -> Result<Members, NoMemory>
        ensures { IfOk result (λ members. MembersStand members (states.new_state ports deny.now)) }
    {
        Ok(Members {
            plane: Backplane::new(alloc, ports, deny)?,
            spent: false,
        })
    }

    /// One member more, behind the others, where fewer than 8 stand. Whether it is. It and each other is a fellow: the path between
    /// them has quality 255, and so has a locked route to each.
    pub fn add(&mut self, config: MemberConfig) -> Result<bool, NoMemory>
        requires config { IsConfig config.node }
        requires prompt { config.node.prompt ≡ false }
        ensures goes { OnOk result (MembersGo (states.add config) self.old self.new) }
        ensures added { IfOk result (λ added. (s : State) → MembersStand self.old s → added ≡ states.has_room s) }
        ensures memory { IsErr result ↔ IsTrue self.new.spent }
        ensures spent { IsTrue self.old.spent → self.new ≡ self.old }
    {
        if self.spent {
            return Err(NoMemory);
        }
        let added = self.plane.add(config);
        self.spent = added.is_err();
        added
    }

    /// One beacon more, behind the others.
    pub fn add_beacon(&mut self, config: &BeaconConfig<'_>) -> Result<(), NoMemory>
        requires { length config.now.text.now ≤ 256 }
        ensures goes { OnOk result (MembersGo (states.add_beacon config.now) self.old self.new) }
        ensures memory { IsErr result ↔ IsTrue self.new.spent }
        ensures spent { IsTrue self.old.spent → self.new ≡ self.old }
    {
        if self.spent {
            return Err(NoMemory);
        }
        let added = self.plane.add_beacon(config);
        self.spent = added.is_err();
        added
    }

    /// Sets the repeaters over which the member at a place reaches a peer. It is refused as by `Node::set_path`, and, `Full`, where no
    /// member stands there.
    pub fn set_path(&mut self, at: usize, peer: &Call, path: &Path) -> Result<(), PathRefusal>
        ensures goes { OnOk result (MembersGo (states.set_path at peer.now path.now) self.old self.new) }
        ensures err { OnErr result (NotNoMemory result → MembersStay self.old self.new) }
        ensures answer { NotNoMemory result → (s : State) → MembersStand self.old s
            → result ≡ states.path_answer at peer.now path.now s }
        ensures memory { IsErrOf result path_refusals.NoMemory ↔ IsTrue self.new.spent }
        ensures spent { IsTrue self.old.spent → self.new ≡ self.old }
    {
        if self.spent {
            return Err(PathRefusal::NoMemory);
        }
        let outcome = self.plane.set_path(at, peer, path);
        self.spent = outcome == Err(PathRefusal::NoMemory);
        outcome
    }

    /// Sets the quality of the path from the member at a place to a neighbour. It is refused as by `Node::set_quality`, and, `Full`,
    /// where no member stands there.
    pub fn set_quality(
        &mut self,
        at: usize,
        neighbour: &Call,
        quality: u8,
    ) -> Result<(), QualityRefusal>
        ensures goes { OnOk result (MembersGo (states.set_quality at neighbour.now quality) self.old self.new) }
        ensures err { OnErr result (QualityNotNoMemory result → MembersStay self.old self.new) }
        ensures answer { QualityNotNoMemory result → (s : State) → MembersStand self.old s
            → result ≡ states.quality_answer at neighbour.now s }
        ensures memory { IsErrOf result quality_refusals.NoMemory ↔ IsTrue self.new.spent }
        ensures spent { IsTrue self.old.spent → self.new ≡ self.old }
    {
        if self.spent {
            return Err(QualityRefusal::NoMemory);
        }
        let outcome = self.plane.set_quality(at, neighbour, quality);
        self.spent = outcome == Err(QualityRefusal::NoMemory);
        outcome
    }

    /// The member at a place remembers by which port a call is reached.
    pub fn remember(&mut self, at: usize, call: &Call, port: u8) -> Result<(), NoMemory>
        ensures goes { OnOk result (MembersGo (states.remember at call.now port) self.old self.new) }
        ensures memory { IsErr result ↔ IsTrue self.new.spent }
        ensures spent { IsTrue self.old.spent → self.new ≡ self.old }
    {
        if self.spent {
            return Err(NoMemory);
        }
        let outcome = self.plane.remember(at, call, port);
        self.spent = outcome.is_err();
        outcome
    }

    /// A frame comes at a port, from 0.
    pub fn hear(&mut self, port: u8, octets: &[u8], now: Moment) -> Result<(), NoMemory>
        ensures goes { OnOk result (MembersGo (states.hear port octets.now now) self.old self.new) }
        ensures memory { IsErr result ↔ IsTrue self.new.spent }
        ensures spent { IsTrue self.old.spent → self.new ≡ self.old }
    {
        if self.spent {
            return Err(NoMemory);
        }
        let outcome = self.plane.hear(port, octets, now);
        self.spent = outcome.is_err();
        outcome
    }

    /// Time has passed: for all members, then for beacons, then for what is held back.
    pub fn tick(&mut self, now: Moment) -> Result<(), NoMemory>
        ensures goes { OnOk result (MembersGo (states.tick now) self.old self.new) }
        ensures memory { IsErr result ↔ IsTrue self.new.spent }
        ensures spent { IsTrue self.old.spent → self.new ≡ self.old }
    {
        if self.spent {
            return Err(NoMemory);
        }
        let outcome = self.plane.tick(now);
        self.spent = outcome.is_err();
        outcome
    }

    /// Each member does a round, in their order.
    pub fn round(&mut self, now: Moment) -> Result<(), NoMemory>
        ensures goes { OnOk result (MembersGo (states.round now) self.old self.new) }
        ensures memory { IsErr result ↔ IsTrue self.new.spent }
        ensures spent { IsTrue self.old.spent → self.new ≡ self.old }
    {
        if self.spent {
            return Err(NoMemory);
        }
        let outcome = self.plane.round(now);
        self.spent = outcome.is_err();
        outcome
    }

    /// Does something at the member at a place, or tells why not: `NoEnd` where none stands there.
    pub fn act(&mut self, at: usize, act: &UserAct, now: Moment) -> Result<ActDone, ActRefusal>
        ensures answer { IsAnswer result → (s : State) → MembersStand self.old s
            → result ≡ states.act_answer now at (act_of act.now) s }
        ensures goes { IsAnswer result → MembersGo (states.act now at (act_of act.now)) self.old self.new }
        ensures memory { IsErrOf result refusals.NoMemory ↔ IsTrue self.new.spent }
        ensures spent { IsTrue self.old.spent → self.new ≡ self.old }
    {
        if self.spent {
            return Err(ActRefusal::NoMemory);
        }
        let outcome = self.plane.act(at, act, now);
        self.spent = wants_memory(&outcome);
        outcome
    }

    /// Each frame that waits at a member is sent, member by member. Whether there was one.
    pub fn settle_frames(&mut self, now: Moment) -> Result<bool, NoMemory>
        ensures goes { OnOk result (MembersGo (states.send_all now) self.old self.new) }
        ensures sent { IfOk result (λ sent. (s : State) → MembersStand self.old s → sent ≡ states.sends_any now s) }
        ensures memory { IsErr result ↔ IsTrue self.new.spent }
        ensures spent { IsTrue self.old.spent → self.new ≡ self.old }
    {
        if self.spent {
            return Err(NoMemory);
        }
        let outcome = self.plane.send_all(now);
        self.spent = outcome.is_err();
        outcome
    }

    /// The next thing that the first member has to tell that has any, the oldest one, and the member's place. None where there is none.
    pub fn next_entry(&mut self) -> Option<(usize, NodeEntry)>
        ensures answer { (s : State) → MembersStand self.old s → option_map told_by result ≡ states.first_told s }
        ensures goes { MembersGo states.fetch_told self.old self.new }
        ensures spent { self.new.spent ≡ self.old.spent }
    {
        self.plane.next_entry()
    }

    /// The next frame that goes on a port, the oldest one. None where none waits.
    pub fn next_frame(&mut self) -> Option<PortFrame>
        ensures answer { (s : State) → MembersStand self.old s → result ≡ slice_get s.desk.air.frames 0 }
        ensures goes { MembersGo states.fetch_frame self.old self.new }
        ensures spent { self.new.spent ≡ self.old.spent }
    {
        self.plane.desk.ports.next_frame()
    }

    /// How many members stand.
    pub fn len(&self) -> usize
        ensures { (s : State) → MembersStand self.now s → result ≡ length s.nodes }
    {
        self.plane.nodes.len()
    }

    /// The node of the member at a place.
    pub fn node(&self, at: usize) -> Option<&Node>
        ensures { (s : State) → MembersStand self.now s → looks.LentStands (option_copied result) (slice_get s.nodes at) }
    {
        if at < self.plane.nodes.len() {
            Some(&self.plane.nodes[at])
        } else {
            None
        }
    }

    /// The call of the member at a place.
    pub fn call(&self, at: usize) -> Option<Call>
        ensures { (s : State) → MembersStand self.now s → result ≡ looks.call_at at s }
    {
        self.plane.desk.call(at)
    }

    /// The alias of the member at a place.
    pub fn alias(&self, at: usize) -> Option<Alias>
        ensures { (s : State) → MembersStand self.now s → result ≡ looks.alias_at at s }
    {
        self.plane.desk.alias(at)
    }

    /// What the member at a place is beside its node.
    pub fn rules(&self, at: usize) -> Option<&MemberRules>
        ensures { (s : State) → MembersStand self.now s → option_copied result ≡ looks.rules_at at s }
    {
        self.plane.desk.rules(at)
    }

    /// The port by which the member at a place reaches a call, where it is remembered.
    pub fn port_of(&self, at: usize, call: &Call) -> Option<u8>
        ensures { (s : State) → MembersStand self.now s → result ≡ looks.port_of at call.now s }
    {
        self.plane.desk.known_port(at, call)
    }

    /// The place of the member of this call.
    pub fn place_of(&self, call: &Call) -> Option<usize>
        ensures { (s : State) → MembersStand self.now s → result ≡ looks.place_of call.now s }
    {
        self.plane.desk.place_of(call)
    }

    /// How many ports there are.
    pub fn ports(&self) -> usize
        ensures { (s : State) → MembersStand self.now s → result ≡ length s.desk.air.ports }
    {
        self.plane.desk.ports.ports.len()
    }

    /// Who was heard at a port, the latest first: at most 32.
    pub fn heard(&self, port: u8) -> &[Heard]
        ensures value { (s : State) → MembersStand self.now s → result.now ≡ looks.heard_at port s }
        ensures few { length result.now ≤ 32 }
    {
        self.plane.desk.ports.heard(port)
    }

    /// How many frames came at a port.
    pub fn came(&self, port: u8) -> u64
        ensures { (s : State) → MembersStand self.now s → result ≡ looks.came_at port s }
    {
        self.plane.desk.ports.came(port)
    }

    /// How many frames went on a port.
    pub fn went(&self, port: u8) -> u64
        ensures { (s : State) → MembersStand self.now s → result ≡ looks.went_at port s }
    {
        self.plane.desk.ports.went(port)
    }

    /// Whether memory ran out in an earlier call.
    pub fn is_spent(&self) -> bool
        ensures { result ≡ self.now.spent }
    {
        self.spent
    }
}

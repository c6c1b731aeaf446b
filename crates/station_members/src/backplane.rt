//! A station's members and ports, and what passes between them. Called by `Members`.
ghost use Rattle.std.specs.Prelude.{◌≡◌, ◌≤◌, length, IfOk, OnErr, OnOk};
ghost use Rattle.node_core.specs.Acts.{act_of};
ghost use Rattle.node_core.specs.Qualities.{QualityNotNoMemory};
ghost use Rattle.node_core.specs.Standing.{IsAnswer};
ghost use Rattle.link_table.specs.Standing.{NotNoMemory};
ghost use Rattle.station_members.specs.Standing.{PlaneGoes, PlaneStands, PlaneStays};
ghost use Rattle.station_members.specs.States as states;
ghost use Rattle.station_members.specs.States.{State};

use crate::desk::Desk;
use crate::hearing::{Intake, is_set_up};
use crate::{BeaconConfig, MAX_MEMBERS, MemberConfig, nodes};
use ax_address::{Call, Path};
use link_table::PathRefusal;
use node_core::{ActDone, ActRefusal, Node, QualityRefusal, UserAct};
use radio_base::{Moment, NoMemory};
use station_ports::{Heading, heading_of, with_dest};
use std::alloc::Global;

/// A station's members: their nodes, and the desk.
#[derive(Drop)]
pub(crate) struct Backplane {
    pub(crate) alloc: Global,
    pub(crate) nodes: Vec<Node>,
    pub(crate) desk: Desk,
}

impl Backplane {
    /// So many ports, without members.
    pub(crate) fn new(alloc: Global, ports: usize, deny: &[Call]) -> Result<Backplane, NoMemory>
        ensures { IfOk result (λ plane. PlaneStands plane (states.new_state ports deny.now)) }
    {
        Ok(Backplane {
            alloc,
            nodes: Vec::new(alloc),
            desk: Desk::new(alloc, ports, deny)?,
        })
    }

    // ---- hearing

    /// A frame comes at a port.
    pub(crate) fn hear(&mut self, port: u8, octets: &[u8], now: Moment) -> Result<(), NoMemory>
        ensures { OnOk result (PlaneGoes (states.hear port octets.now now) self.old self.new) }
    {
        if !self.desk.has_port(port) {
            return Ok(());
        }
        match heading_of(octets) {
            Some(heading) => {
                self.hear_headed(port, &heading, octets, now)?;
                Ok(())
            }
            None => Ok(()),
        }
    }

    /// It is noted, and the members hear it where it is none of a member or of whom the station doesn't hear.
    fn hear_headed(
        &mut self,
        port: u8,
        heading: &Heading,
        octets: &[u8],
        now: Moment,
    ) -> Result<(), NoMemory>
        requires { 14 ≤ length octets.now }
        ensures { OnOk result (PlaneGoes (states.hear_headed port heading.now octets.now now) self.old self.new) }
    {
        self.desk.note(port, &heading.hop, now);
        if self.desk.is_heard(heading) {
            self.hear_all(port, heading, octets, now)?;
            Ok(())
        } else {
            Ok(())
        }
    }

    /// The members on a port hear a frame, in their order.
    fn hear_all(
        &mut self,
        port: u8,
        heading: &Heading,
        octets: &[u8],
        now: Moment,
    ) -> Result<(), NoMemory>
        requires { 14 ≤ length octets.now }
        ensures { OnOk result (PlaneGoes (states.hear_all port heading.now octets.now now) self.old self.new) }
    {
        for at in 0..self.nodes.len() {
            self.hear_at(at, port, heading, octets, now)?;
        }
        Ok(())
    }

    /// The member at a place hears a frame, where it stands on the port.
    fn hear_at(
        &mut self,
        at: usize,
        port: u8,
        heading: &Heading,
        octets: &[u8],
        now: Moment,
    ) -> Result<(), NoMemory>
        requires { 14 ≤ length octets.now }
        ensures { OnOk result (PlaneGoes (states.hear_at port heading.now octets.now now at) self.old self.new) }
    {
        let intake = self.desk.hear_at(at, port, heading, is_set_up(octets))?;
        self.take_in(at, port, intake, octets, now)?;
        Ok(())
    }

    /// The member at a place takes a frame in.
    fn take_in(
        &mut self,
        at: usize,
        port: u8,
        intake: Intake,
        octets: &[u8],
        now: Moment,
    ) -> Result<(), NoMemory>
        requires { 14 ≤ length octets.now }
        ensures { OnOk result (PlaneGoes (states.take_in at port intake octets.now now) self.old self.new) }
    {
        match intake {
            Intake::No => Ok(()),
            Intake::AsItCame => {
                nodes::give_frame(&mut self.nodes, at, octets, now)?;
                Ok(())
            }
            Intake::To(call) => {
                let octets = with_dest(self.alloc, octets, &call)?;
                nodes::give_frame(&mut self.nodes, at, octets.as_slice(), now)?;
                Ok(())
            }
        }
    }

    // ---- time

    /// Time has passed: for the members, for beacons, and for what is held back.
    pub(crate) fn tick(&mut self, now: Moment) -> Result<(), NoMemory>
        ensures { OnOk result (PlaneGoes (states.tick now) self.old self.new) }
    {
        self.tick_all(now)?;
        self.desk.send_beacons(self.alloc, now)?;
        self.send_held(now)?;
        Ok(())
    }

    fn tick_all(&mut self, now: Moment) -> Result<(), NoMemory>
        ensures { OnOk result (PlaneGoes (states.tick_all now) self.old self.new) }
    {
        for at in 0..self.nodes.len() {
            self.tick_at(at, now)?;
        }
        Ok(())
    }

    /// Time has passed for the member at a place: for its node, and then for its first round.
    fn tick_at(&mut self, at: usize, now: Moment) -> Result<(), NoMemory>
        ensures { OnOk result (PlaneGoes (states.tick_at now at) self.old self.new) }
    {
        nodes::give_tick(&mut self.nodes, at, now)?;
        if self.desk.is_first_due(at, now) {
            self.round_at(at, now)?;
            Ok(())
        } else {
            Ok(())
        }
    }

    fn send_held(&mut self, now: Moment) -> Result<(), NoMemory>
        ensures { OnOk result (PlaneGoes (states.send_held now) self.old self.new) }
    {
        for at in 0..self.nodes.len() {
            self.desk.send_held(at, now)?;
        }
        Ok(())
    }

    /// Each member does a round, in their order.
    pub(crate) fn round(&mut self, now: Moment) -> Result<(), NoMemory>
        ensures { OnOk result (PlaneGoes (states.round now) self.old self.new) }
    {
        for at in 0..self.nodes.len() {
            self.round_at(at, now)?;
        }
        Ok(())
    }

    fn round_at(&mut self, at: usize, now: Moment) -> Result<(), NoMemory>
        ensures { OnOk result (PlaneGoes (states.round_at now at) self.old self.new) }
    {
        nodes::give_act_only(&mut self.nodes, at, &UserAct::Round, now)?;
        Ok(())
    }

    // ---- the calls of whoever holds the members

    /// One beacon more.
    pub(crate) fn add_beacon(&mut self, config: &BeaconConfig<'_>) -> Result<(), NoMemory>
        requires { length config.now.text.now ≤ 256 }
        ensures { OnOk result (PlaneGoes (states.add_beacon config.now) self.old self.new) }
    {
        self.desk.add_beacon(self.alloc, config)?;
        Ok(())
    }

    /// Something is done at the member at a place.
    pub(crate) fn act(
        &mut self,
        at: usize,
        act: &UserAct,
        now: Moment,
    ) -> Result<ActDone, ActRefusal>
        ensures answer { IsAnswer result → (s : State) → PlaneStands self.old s
            → result ≡ states.act_answer now at (act_of act.now) s }
        ensures goes { IsAnswer result → PlaneGoes (states.act now at (act_of act.now)) self.old self.new }
    {
        nodes::give_act(&mut self.nodes, at, act, now)
    }

    pub(crate) fn set_path(
        &mut self,
        at: usize,
        peer: &Call,
        path: &Path,
    ) -> Result<(), PathRefusal>
        ensures answer { NotNoMemory result → (s : State) → PlaneStands self.old s
            → result ≡ states.path_answer at peer.now path.now s }
        ensures goes { OnOk result (PlaneGoes (states.set_path at peer.now path.now) self.old self.new) }
        ensures err { OnErr result (NotNoMemory result → PlaneStays self.old self.new) }
    {
        nodes::give_path(&mut self.nodes, at, peer, path)
    }

    pub(crate) fn set_quality(
        &mut self,
        at: usize,
        neighbour: &Call,
        quality: u8,
    ) -> Result<(), QualityRefusal>
        ensures answer { QualityNotNoMemory result → (s : State) → PlaneStands self.old s
            → result ≡ states.quality_answer at neighbour.now s }
        ensures goes { OnOk result (PlaneGoes (states.set_quality at neighbour.now quality) self.old self.new) }
        ensures err { OnErr result (QualityNotNoMemory result → PlaneStays self.old self.new) }
    {
        nodes::give_quality(&mut self.nodes, at, neighbour, quality)
    }

    /// The member at a place remembers by which port a call is reached.
    pub(crate) fn remember(&mut self, at: usize, call: &Call, port: u8) -> Result<(), NoMemory>
        ensures { OnOk result (PlaneGoes (states.remember at call.now port) self.old self.new) }
    {
        self.desk.remember(at, call, port)?;
        Ok(())
    }
}

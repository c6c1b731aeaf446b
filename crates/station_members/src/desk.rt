//! The desk of a station: all that its members are beside their nodes, and its ports. Called by the backplane.
ghost use Rattle.std.specs.Prelude.{◌≡◌, ◌<◌, ◌≤◌, [], ◌++◌, ◌∷◌, length, nat_lt, slice_get, IfOk, IfSome, OnOk};
ghost use Rattle.std.specs.Option.{option_copied, option_map};
ghost use Rattle.station_members.specs.Desks as desks;
ghost use Rattle.station_members.specs.Desks.{desk_of};
ghost use Rattle.station_members.specs.Hearing as hearing;
ghost use Rattle.station_members.specs.Places.{at_place};
ghost use Rattle.station_members.specs.Seats as ticking;
ghost use Rattle.station_members.specs.Telling as telling;
ghost use Rattle.station_members.specs.declared.seat.Seat.{Seat as TheSeat};

use crate::beacons::Beacon;
use crate::hearing::Intake;
use crate::ports::Ports;
use crate::seat::{Seat, place_of};
use crate::{BeaconConfig, MemberRules};
use ax_address::{Alias, Call};
use node_core::NodeConfig;
use radio_base::{Moment, NoMemory};
use station_ports::Heading;
use std::alloc::Global;

/// All that members are beside their nodes, and the ports.
#[derive(Drop)]
pub(crate) struct Desk {
    pub(crate) seats: Vec<Seat>,
    pub(crate) ports: Ports,
    /// Whose frames aren't heard.
    pub(crate) deny: Vec<Call>,
    pub(crate) beacons: Vec<Beacon>,
}

impl Desk {
    /// So many ports, without members.
    pub(crate) fn new(alloc: Global, ports: usize, deny: &[Call]) -> Result<Desk, NoMemory>
        ensures { IfOk result (λ desk. desk_of desk ≡ desks.new_desk ports deny.now) }
    {
        Ok(Desk {
            seats: Vec::new(alloc),
            ports: Ports::new(alloc, ports)?,
            deny: deny.to_vec(alloc)?,
            beacons: Vec::new(alloc),
        })
    }

    /// One member more, behind the others.
    pub(crate) fn seat(
        &mut self,
        alloc: Global,
        node: &NodeConfig,
        rules: MemberRules,
    ) -> Result<(), NoMemory>
        ensures { OnOk result (desk_of self.new ≡ desks.seated node.now rules (desk_of self.old)) }
    {
        self.seats.push(Seat::new(alloc, node, rules))?;
        Ok(())
    }

    /// One beacon more, behind the others.
    pub(crate) fn add_beacon(
        &mut self,
        alloc: Global,
        config: &BeaconConfig<'_>,
    ) -> Result<(), NoMemory>
        requires { length config.now.text.now ≤ 256 }
        ensures { OnOk result (desk_of self.new ≡ desks.with_beacon config.now (desk_of self.old)) }
    {
        self.beacons.push(Beacon::new(alloc, config)?)?;
        Ok(())
    }

    /// The call and the alias of the member at a place.
    pub(crate) fn name_at(&self, at: usize) -> Option<(Call, Alias)>
        ensures { result ≡ desks.name_of (slice_get (desk_of self.now).seats at) }
    {
        match self.seats.get(at) {
            Some(seat) => Some((seat.call, seat.alias)),
            None => None,
        }
    }

    /// The call of the member at a place.
    pub(crate) fn call(&self, at: usize) -> Option<Call>
        ensures { result ≡ option_map (λ (seat : TheSeat). seat.call) (slice_get (desk_of self.now).seats at) }
    {
        match self.seats.get(at) {
            Some(seat) => Some(seat.call),
            None => None,
        }
    }

    /// The alias of the member at a place.
    pub(crate) fn alias(&self, at: usize) -> Option<Alias>
        ensures { result ≡ option_map (λ (seat : TheSeat). seat.alias) (slice_get (desk_of self.now).seats at) }
    {
        match self.seats.get(at) {
            Some(seat) => Some(seat.alias),
            None => None,
        }
    }

    /// What the member at a place is beside its node.
    pub(crate) fn rules(&self, at: usize) -> Option<&MemberRules>
        ensures { option_copied result ≡ option_map (λ (seat : TheSeat). seat.rules) (slice_get (desk_of self.now).seats at) }
    {
        match self.seats.get(at) {
            Some(seat) => Some(&seat.rules),
            None => None,
        }
    }

    /// The place of the member of a call.
    pub(crate) fn place_of(&self, call: &Call) -> Option<usize>
        ensures { result ≡ telling.place_of call.now (desk_of self.now).seats }
    {
        place_of(&self.seats, call)
    }

    /// A frame came at a port, in which this call was heard.
    pub(crate) fn note(&mut self, port: u8, hop: &Call, now: Moment)
        ensures { desk_of self.new ≡ desks.noted_at port hop.now now (desk_of self.old) }
    {
        self.ports.note(port, hop, now);
    }

    /// Whether a port has this number.
    pub(crate) fn has_port(&self, port: u8) -> bool
        ensures { result ≡ desks.has_port port (desk_of self.now) }
    {
        (port as usize) < self.ports.ports.len()
    }

    /// Whether members hear a frame: neither its source nor who was heard in it is denied, and its source is no member.
    pub(crate) fn is_heard(&self, heading: &Heading) -> bool
        ensures { result ≡ desks.is_heard heading.now (desk_of self.now) }
    {
        !self.is_denied(&heading.source)
            && !self.is_denied(&heading.hop)
            && !self.is_member(&heading.source)
    }

    fn is_denied(&self, call: &Call) -> bool
        ensures { result ≡ desks.is_denied call.now (desk_of self.now) }
    {
        self.deny.iter().any(|one| *one == *call)
    }

    fn is_member(&self, call: &Call) -> bool
        ensures { result ≡ desks.is_member call.now (desk_of self.now) }
    {
        place_of(&self.seats, call).is_some()
    }

    /// The member at a place hears a frame on a port: how it takes it in, where it stands there.
    pub(crate) fn hear_at(
        &mut self,
        at: usize,
        port: u8,
        heading: &Heading,
        is_set_up: bool,
    ) -> Result<Intake, NoMemory>
        ensures intake { IfOk result (λ intake. intake ≡ desks.intake_at at port heading.now is_set_up (desk_of self.old)) }
        ensures goes { OnOk result (desk_of self.new ≡ desks.hears_at at port heading.now is_set_up (desk_of self.old)) }
    {
        let intake = hear_at(&mut self.seats, at, port, heading, is_set_up)?;
        Ok(intake)
    }

    /// Time has passed for the member at a place. Whether its first round is due: then it counts as done.
    pub(crate) fn is_first_due(&mut self, at: usize, now: Moment) -> bool
        ensures due { result ≡ desks.first_due_at at now.0 (desk_of self.old) }
        ensures goes { desk_of self.new ≡ desks.ticked_at at now.0 (desk_of self.old) }
    {
        first_due_at(&mut self.seats, at, now)
    }

    /// The member at a place remembers by which port a call is reached.
    pub(crate) fn remember(&mut self, at: usize, call: &Call, port: u8) -> Result<(), NoMemory>
        ensures { OnOk result (desk_of self.new ≡ desks.remembers_at at call.now port (desk_of self.old)) }
    {
        remember_at(&mut self.seats, at, call, port)?;
        Ok(())
    }

    /// The peer doesn't speak to the member at a place by its alias any more.
    pub(crate) fn unname(&mut self, at: usize, peer: &Call)
        ensures { desk_of self.new ≡ desks.unnamed_at at peer.now (desk_of self.old) }
    {
        unname_at(&mut self.seats, at, peer);
    }
}

fn hear_at(
    seats: &mut Vec<Seat>,
    at: usize,
    port: u8,
    heading: &Heading,
    is_set_up: bool,
) -> Result<Intake, NoMemory>
    ensures intake { IfOk result (λ intake. intake ≡ desks.intake_of port heading.now is_set_up (slice_get seats.old.items at)) }
    ensures goes { OnOk result (seats.new.items ≡ at_place at (hearing.hears port heading.now is_set_up) seats.old.items) }
{
    if at < seats.len() {
        let intake = seats[at].hear(port, heading, is_set_up)?;
        Ok(intake)
    } else {
        Ok(Intake::No)
    }
}

fn first_due_at(seats: &mut Vec<Seat>, at: usize, now: Moment) -> bool
    ensures due { result ≡ desks.first_due_of now.0 (slice_get seats.old.items at) }
    ensures goes { seats.new.items ≡ at_place at (ticking.ticked now.0) seats.old.items }
{
    if at < seats.len() {
        seats[at].is_first_due(now)
    } else {
        false
    }
}

fn remember_at(seats: &mut Vec<Seat>, at: usize, call: &Call, port: u8) -> Result<(), NoMemory>
    ensures { OnOk result (seats.new.items ≡ at_place at (ticking.remembers call.now port) seats.old.items) }
{
    if at < seats.len() {
        seats[at].remember(call, port)?;
        Ok(())
    } else {
        Ok(())
    }
}

fn unname_at(seats: &mut Vec<Seat>, at: usize, peer: &Call)
    ensures { seats.new.items ≡ at_place at (ticking.unnames peer.now) seats.old.items }
{
    if at < seats.len() {
        seats[at].unname(peer);
    }
}

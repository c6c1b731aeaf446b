//! Where a frame goes that a member puts out: to a fellow in the backplane, on ports, or it is held back. Called by the backplane.
ghost use Rattle.std.specs.Prelude.{◌≡◌, ◌≢◌, ◌<◌, length, slice_get, IfOk, OnOk, IfSome};
ghost use Rattle.station_members.specs.Desks as desks;
ghost use Rattle.station_members.specs.Desks.{desk_of};
ghost use Rattle.station_members.specs.Ports.{air_of};
ghost use Rattle.station_members.specs.Routing as routing;

use crate::broadcasts::told_to_fellows;
use crate::desk::Desk;
use crate::outgoing::Outgoing;
use crate::ports::Ports;
use crate::seat::{Seat, place_of};
use arrayvec::ArrayVec;
use ax_address::Call;
use link_table::Written;
use radio_base::{Moment, NoMemory};
use station_ports::{FrameOctets, MAX_PORTS, PortFrame};
use std::alloc::Global;

/// The most frames that a member holds back (this project's profile).
const MAX_HELD: usize = 512;

/// What passes in the backplane.
#[derive(Drop)]
pub(crate) enum Parcel {
    Nothing,
    /// For the fellow at a place.
    For { to: usize, octets: FrameOctets },
    /// For each fellow.
    ForFellows(FrameOctets),
}

impl Desk {
    /// A frame of the member at a place goes.
    pub(crate) fn route(
        &mut self,
        alloc: Global,
        from: usize,
        frame: &Written,
        now: Moment,
    ) -> Result<Parcel, NoMemory>
        ensures parcel { IfOk result (λ parcel. parcel ≡ routing.parcel_of from frame.now (desk_of self.old)) }
        ensures goes { OnOk result (desk_of self.new ≡ routing.routed from frame.now now (desk_of self.old)) }
    {
        match self.outgoing_at(alloc, from, frame)? {
            Some(out) => self.route_out(alloc, from, &out, now),
            None => Ok(Parcel::Nothing),
        }
    }

    /// The frame as it goes from the member at a place.
    fn outgoing_at(
        &self,
        alloc: Global,
        from: usize,
        frame: &Written,
    ) -> Result<Option<Outgoing>, NoMemory>
        ensures { IfOk result (λ out. out ≡ routing.outgoing_at from frame.now (desk_of self.now)) }
    {
        match self.seats.get(from) {
            Some(seat) => Outgoing::new(alloc, seat, frame),
            None => Ok(None),
        }
    }

    /// To the fellow towards whom it goes; an own broadcast to all fellows and on all ports; else on ports.
    fn route_out(
        &mut self,
        alloc: Global,
        from: usize,
        out: &Outgoing,
        now: Moment,
    ) -> Result<Parcel, NoMemory>
        ensures parcel { IfOk result (λ parcel. parcel ≡ routing.parcel_out from out.now (desk_of self.old)) }
        ensures goes { OnOk result (desk_of self.new ≡ routing.routed_out from out.now now (desk_of self.old)) }
    {
        match self.fellow_of(from, &out.heading.towards) {
            Some(to) => {
                let octets = FrameOctets::from_slice(alloc, out.octets.as_slice())?;
                Ok(Parcel::For { to, octets })
            }
            None => self.route_on_air(alloc, from, out, now),
        }
    }

    /// The place of the fellow of this call.
    fn fellow_of(&self, from: usize, call: &Call) -> Option<usize>
        ensures { result ≡ routing.fellow_of from call.now (desk_of self.now) }
    {
        match place_of(&self.seats, call) {
            Some(at) => { if at == from { None } else { Some(at) } }
            None => None,
        }
    }

    /// A frame that goes on ports; a broadcast goes to all fellows, too.
    fn route_on_air(
        &mut self,
        alloc: Global,
        from: usize,
        out: &Outgoing,
        now: Moment,
    ) -> Result<Parcel, NoMemory>
        ensures parcel { IfOk result (λ parcel. parcel ≡ routing.parcel_told (routing.told_at from out.now (desk_of self.old))) }
        ensures goes { OnOk result (desk_of self.new ≡ routing.aired (routing.told_at from out.now (desk_of self.old)) from out.now now
            (desk_of self.old)) }
    {
        match self.told_at(alloc, from, out)? {
            Some(octets) => {
                self.put_on_all(alloc, from, out, now)?;
                Ok(Parcel::ForFellows(octets))
            }
            None => {
                self.put_on_its(alloc, from, out, now)?;
                Ok(Parcel::Nothing)
            }
        }
    }

    /// What fellows are told of a frame, where it is an own broadcast.
    fn told_at(
        &self,
        alloc: Global,
        from: usize,
        out: &Outgoing,
    ) -> Result<Option<FrameOctets>, NoMemory>
        ensures { IfOk result (λ told. told ≡ routing.told_at from out.now (desk_of self.now)) }
    {
        match self.seats.get(from) {
            Some(seat) => {
                if out.heading.source == seat.call {
                    told_to_fellows(alloc, &self.seats, out.octets.as_slice())
                } else {
                    Ok(None)
                }
            }
            None => Ok(None),
        }
    }

    /// On the port by which its next hop is reached, where that is remembered, else on all ports of the member.
    fn put_on_its(
        &mut self,
        alloc: Global,
        from: usize,
        out: &Outgoing,
        now: Moment,
    ) -> Result<(), NoMemory>
        ensures { OnOk result (desk_of self.new ≡ routing.put_on_its from out.now now (desk_of self.old)) }
    {
        match self.known_port(from, &out.heading.towards) {
            Some(port) => {
                self.put_on(alloc, from, out, port, now)?;
                Ok(())
            }
            None => {
                self.put_on_all(alloc, from, out, now)?;
                Ok(())
            }
        }
    }

    /// The port by which the member at a place reaches a call, where it is remembered.
    pub(crate) fn known_port(&self, at: usize, call: &Call) -> Option<u8>
        ensures { result ≡ routing.known_port at call.now (desk_of self.now) }
    {
        match self.seats.get(at) {
            Some(seat) => seat.known.port_of(call),
            None => None,
        }
    }

    /// On all ports of the member.
    fn put_on_all(
        &mut self,
        alloc: Global,
        from: usize,
        out: &Outgoing,
        now: Moment,
    ) -> Result<(), NoMemory>
        ensures { OnOk result (desk_of self.new ≡ routing.put_on_all from out.now now (desk_of self.old)) }
    {
        let ports = self.ports_of(from)?;
        self.put_on_each(alloc, from, ports.as_slice(), out, now)?;
        Ok(())
    }

    fn put_on_each(
        &mut self,
        alloc: Global,
        from: usize,
        ports: &[u8],
        out: &Outgoing,
        now: Moment,
    ) -> Result<(), NoMemory>
        ensures { OnOk result (desk_of self.new ≡ routing.put_on_each ports.now from out.now now (desk_of self.old)) }
    {
        for port in ports {
            self.put_on(alloc, from, out, *port, now)?;
        }
        Ok(())
    }

    /// The ports of the member at a place.
    fn ports_of(&self, at: usize) -> Result<ArrayVec<u8, MAX_PORTS>, NoMemory>
        ensures { IfOk result (λ ports. ports.items ≡ routing.ports_of at (desk_of self.now)) }
    {
        match self.seats.get(at) {
            Some(seat) => Ok(seat.rules.ports.clone()?),
            None => Ok(ArrayVec::new()),
        }
    }

    fn put_on(
        &mut self,
        alloc: Global,
        from: usize,
        out: &Outgoing,
        port: u8,
        now: Moment,
    ) -> Result<(), NoMemory>
        ensures { OnOk result (desk_of self.new ≡ routing.put_on from out.now port now (desk_of self.old)) }
    {
        if from < self.seats.len() {
            self.seats[from].put_on(alloc, &mut self.ports, out, port, now)?;
            Ok(())
        } else {
            Ok(())
        }
    }
}

impl Seat {
    /// A frame goes on a port, or is held back. What waits there for the same destination is let fall.
    fn put_on(
        &mut self,
        alloc: Global,
        ports: &mut Ports,
        out: &Outgoing,
        port: u8,
        now: Moment,
    ) -> Result<(), NoMemory>
        ensures seat { OnOk result (self.new ≡ routing.holds out.now port now self.old) }
        ensures air { OnOk result (air_of ports.new ≡ routing.airs out.now port self.old (air_of ports.old)) }
    {
        let octets = FrameOctets::from_slice(alloc, out.octets.as_slice())?;
        let frame = PortFrame {
            port,
            octets,
            is_extended: out.is_extended,
        };
        if self.holds_back(out) {
            self.held.hold(&out.heading.dest, frame, now)?;
            Ok(())
        } else {
            self.let_fall(out, port);
            ports.put(frame)?;
            Ok(())
        }
    }

    fn holds_back(&self, out: &Outgoing) -> bool
        ensures { result ≡ routing.holds_back out.now self.now }
    {
        out.may_wait && self.rules.t2 != 0 && self.held.len() < MAX_HELD
    }

    /// What waits on a port for the destination of an own frame is let fall.
    fn let_fall(&mut self, out: &Outgoing, port: u8)
        ensures { self.new ≡ routing.lets_fall out.now port self.old }
    {
        if out.is_own {
            self.held.drop_for(&out.heading.dest, port);
        }
    }
}

//! What goes on ports as time passes: beacons, and what members have held back. Called by the backplane.
ghost use Rattle.std.specs.Prelude.{◌≡◌, ◌<◌, length, map, slice_get, OnOk};
ghost use Rattle.station_members.specs.Beacons as every;
ghost use Rattle.station_members.specs.Desks.{desk_of};
ghost use Rattle.station_members.specs.Places.{at_place};
ghost use Rattle.station_members.specs.Ports as airs;
ghost use Rattle.station_members.specs.Ports.{air_of};
ghost use Rattle.station_members.specs.Waiting as waiting;

use crate::beacons::Beacon;
use crate::desk::Desk;
use crate::ports::Ports;
use crate::seat::Seat;
use radio_base::{Moment, NoMemory};
use station_ports::PortFrame;
use std::alloc::Global;

impl Desk {
    /// Sends the beacons that are due, in their order.
    pub(crate) fn send_beacons(&mut self, alloc: Global, now: Moment) -> Result<(), NoMemory>
        ensures { OnOk result (desk_of self.new ≡ waiting.beacons_sent now.0 (desk_of self.old)) }
    {
        put_due(alloc, &self.beacons, &mut self.ports, now)?;
        tick_all(&mut self.beacons, now);
        Ok(())
    }

    /// Sends what the member at a place has held back long enough.
    pub(crate) fn send_held(&mut self, at: usize, now: Moment) -> Result<(), NoMemory>
        ensures { OnOk result (desk_of self.new ≡ waiting.held_sent at now (desk_of self.old)) }
    {
        if at < self.seats.len() {
            self.seats[at].send_held(&mut self.ports, now)?;
            Ok(())
        } else {
            Ok(())
        }
    }
}

/// The frames of the beacons that are due go.
fn put_due(
    alloc: Global,
    beacons: &[Beacon],
    ports: &mut Ports,
    now: Moment,
) -> Result<(), NoMemory>
    ensures { OnOk result (air_of ports.new ≡ waiting.put_each (every.due_frames now.0 beacons.now) (air_of ports.old)) }
{
    match beacons {
        [] => Ok(()),
        [first, rest @ ..] => {
            put_if_due(alloc, first, ports, now)?;
            put_due(alloc, rest, ports, now)?;
            Ok(())
        }
    }
}

fn put_if_due(
    alloc: Global,
    beacon: &Beacon,
    ports: &mut Ports,
    now: Moment,
) -> Result<(), NoMemory>
    ensures { OnOk result (air_of ports.new ≡ waiting.put_if_due now.0 beacon.now (air_of ports.old)) }
{
    if beacon.is_due(now) {
        ports.put(beacon.frame(alloc)?)?;
        Ok(())
    } else {
        Ok(())
    }
}

/// Time has passed for each beacon.
fn tick_all(beacons: &mut Vec<Beacon>, now: Moment)
    ensures { beacons.new.items ≡ map (every.ticked now.0) beacons.old.items }
{
    for at in 0..beacons.len() {
        beacons[at].tick(now);
    }
}

impl Seat {
    /// What has waited long enough goes, in its order.
    fn send_held(&mut self, ports: &mut Ports, now: Moment) -> Result<(), NoMemory>
        ensures seat { OnOk result (self.new ≡ waiting.lets_go now self.old) }
        ensures air { OnOk result (air_of ports.new ≡ waiting.put_each (waiting.due_of now self.old) (air_of ports.old)) }
    {
        while let Some(frame) = self.next_due(now) {
            ports.put(frame)?;
        }
        Ok(())
    }

    /// The first frame that has waited long enough: it waits no longer.
    fn next_due(&mut self, now: Moment) -> Option<PortFrame>
        ensures due { result ≡ waiting.first_due now self.old }
        ensures goes { self.new ≡ waiting.without_first now self.old }
    {
        self.held.next_due(self.rules.t2, now)
    }
}

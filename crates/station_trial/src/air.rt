//! The air of a trial: frames on their way. Called by `outlet` and `trial`.
ghost use Rattle.std.specs.Prelude.{◌≡◌, ◌-◌, ◌∷◌, ◌++◌, [], drop, nat_lt, slice_get, OnOk, if◌then◌else◌};
ghost use Rattle.station_trial.specs.Outlets.{flight_of};

use radio_base::NoMemory;
use station_ports::PortFrame;
use std::alloc::Global;
use std::collections::VecDeque;

/// A frame in the air.
#[derive(Drop)]
pub(crate) struct Flight {
    /// The place of the station that has sent it.
    pub(crate) from: usize,
    pub(crate) frame: PortFrame,
}

/// The frames in the air, the oldest first.
#[derive(Drop)]
pub(crate) struct Air {
    pub(crate) flights: VecDeque<Flight>,
    /// How many frames that go next are lost.
    pub(crate) lose: u32,
}

impl Air {
    /// Nothing is in it.
    pub(crate) fn new(alloc: Global) -> Air
        ensures flights { result.flights.items ≡ [] }
        ensures lose { result.lose ≡ 0 }
    {
        Air {
            flights: VecDeque::new(alloc),
            lose: 0,
        }
    }

    /// A frame goes, and is lost or in the air.
    pub(crate) fn put(&mut self, from: usize, frame: PortFrame) -> Result<(), NoMemory>
        ensures flights { OnOk result (self.new.flights.items ≡ (if nat_lt 0 self.old.lose then self.old.flights.items
            else self.old.flights.items ++ flight_of from frame ∷ [])) }
        ensures lose { OnOk result (self.new.lose ≡ self.old.lose - 1) }
    {
        if self.lose > 0 {
            self.lose -= 1;
            return Ok(());
        }
        self.flights.push_back(Flight { from, frame })?;
        Ok(())
    }

    /// The oldest frame leaves it.
    pub(crate) fn next(&mut self) -> Option<Flight>
        ensures answer { result ≡ slice_get self.old.flights.items 0 }
        ensures flights { self.new.flights.items ≡ drop 1 self.old.flights.items }
        ensures lose { self.new.lose ≡ self.old.lose }
    {
        self.flights.pop_front()
    }
}

//! Where what stations put out goes: to the screen and into the air. Called by `places` and `trial`.
ghost use Rattle.std.specs.Prelude.{◌≡◌, ◌<◌, slice_get, OnOk};
ghost use Rattle.station.specs.Fetching.{all_outs, without_entries, without_outs};
ghost use Rattle.station.specs.Standing.{StationGo, StationStand};
ghost use Rattle.station.specs.States.{StationState};
ghost use Rattle.station_trial.specs.Outlets as outlets;
ghost use Rattle.station_trial.specs.Outlets.{OutletState};
ghost use Rattle.station_trial.specs.Standing.{OutletGoes, OutletStands};

use crate::air::{Air, Flight};
use radio_base::NoMemory;
use station::{Station, StationOut};
use station_places::ConsoleOut;
use station_ports::PortFrame;
use station_screen::Screen;
use std::alloc::Global;

/// The screen and the air.
#[derive(Drop)]
pub(crate) struct Outlet {
    pub(crate) screen: Screen,
    pub(crate) air: Air,
    pub(crate) shows_frames: bool,
}

impl Outlet {
    /// Nothing is shown, and nothing is in the air.
    pub(crate) fn new(alloc: Global, numbers: bool) -> Outlet
        ensures { OutletStands result (outlets.new_outlet numbers) }
    {
        Outlet {
            screen: Screen::new(alloc, numbers),
            air: Air::new(alloc),
            shows_frames: false,
        }
    }

    /// All that the station at a place has put out goes; nobody reads what it tells.
    pub(crate) fn fetch(&mut self, at: usize, station: &mut Station) -> Result<(), NoMemory>
        requires { at < 8 }
        ensures outlet { OnOk result ((s : StationState) (o : OutletState) → StationStand station.old s → OutletStands self.old o
            → OutletStands self.new (outlets.put_all at (all_outs s) o)) }
        ensures station { OnOk result (StationGo (λ s. without_entries (without_outs s)) station.old station.new) }
    {
        self.fetch_outs(at, station)?;
        drop_entries(station);
        Ok(())
    }

    fn fetch_outs(&mut self, at: usize, station: &mut Station) -> Result<(), NoMemory>
        requires { at < 8 }
        ensures outlet { OnOk result ((s : StationState) (o : OutletState) → StationStand station.old s → OutletStands self.old o
            → OutletStands self.new (outlets.put_all at (all_outs s) o)) }
        ensures station { OnOk result (StationGo without_outs station.old station.new) }
    {
        while let Some(out) = station.next_out() {
            self.put(at, out)?;
        }
        Ok(())
    }

    fn put(&mut self, at: usize, out: StationOut) -> Result<(), NoMemory>
        requires { at < 8 }
        ensures { OnOk result (OutletGoes (outlets.put at out) self.old self.new) }
    {
        match out {
            StationOut::Frame(frame) => {
                self.put_frame(at, frame)?;
                Ok(())
            }
            StationOut::Console(out) => {
                self.put_told(at, &out)?;
                Ok(())
            }
        }
    }

    fn put_frame(&mut self, at: usize, frame: PortFrame) -> Result<(), NoMemory>
        requires { at < 8 }
        ensures { OnOk result (OutletGoes (outlets.put_frame at frame) self.old self.new) }
    {
        self.show_frame(at, &frame)?;
        self.fly(at, frame)?;
        Ok(())
    }

    fn show_frame(&mut self, at: usize, frame: &PortFrame) -> Result<(), NoMemory>
        requires { at < 8 }
        ensures { OnOk result (OutletGoes (outlets.show_frame at frame.now) self.old self.new) }
    {
        if self.shows_frames {
            self.screen.show(at, frame)?;
            Ok(())
        } else {
            Ok(())
        }
    }

    fn fly(&mut self, at: usize, frame: PortFrame) -> Result<(), NoMemory>
        ensures { OnOk result (OutletGoes (outlets.fly at frame) self.old self.new) }
    {
        self.air.put(at, frame)?;
        Ok(())
    }

    fn put_told(&mut self, at: usize, out: &ConsoleOut) -> Result<(), NoMemory>
        requires { at < 8 }
        ensures { OnOk result (OutletGoes (outlets.put_told at out.now) self.old self.new) }
    {
        match out {
            ConsoleOut::Text { text, .. } => {
                self.screen.tell(at, text.bytes())?;
                Ok(())
            }
            ConsoleOut::Closed { .. } => Ok(()),
        }
    }

    /// The oldest frame leaves the air.
    pub(crate) fn land(&mut self) -> Option<Flight>
        ensures answer { (o : OutletState) → OutletStands self.old o → result ≡ slice_get o.flights 0 }
        ensures goes { OutletGoes outlets.landed self.old self.new }
    {
        self.air.next()
    }
}

/// Nobody reads what a station tells.
fn drop_entries(station: &mut Station)
    ensures { StationGo without_entries station.old station.new }
{
    while let Some(_entry) = station.next_entry() {}
}

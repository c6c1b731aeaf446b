//! What the stations of a trial are given, and what they put out then. Called by `trial`.
ghost use Rattle.std.specs.Prelude.{ℕ, ◌≡◌, ◌≤◌, ◌<◌, ◌+◌, List, length, OnOk};
ghost use Rattle.std.specs.Option.{option_map};
ghost use Rattle.station_trial.specs.Gifts as gifts;
ghost use Rattle.station_trial.specs.Outlets.{OutletState};
ghost use Rattle.station_trial.specs.Standing.{AllStand, OutletStands, TriedStands};
ghost use Rattle.station_trial.specs.Stations as stations;
ghost use Rattle.station_trial.specs.Stations.{TriedState};

use crate::given::{Deal, Given};
use crate::outlet::Outlet;
use crate::tried::Tried;
use radio_base::{Moment, NoMemory};

/// Each station, of those from a place on, is given what it is dealt, and what it puts out goes. There are at most 8.
pub(crate) fn deal(
    outlet: &mut Outlet,
    at: usize,
    tried: &mut [Tried],
    dealt: &Deal,
    octets: &[u8],
    now: Moment,
) -> Result<(), NoMemory>
    requires { at + length tried.old ≤ 8 }
    ensures { OnOk result ((ts : List TriedState) (o : OutletState) → AllStand tried.old ts → OutletStands outlet.old o
        → AllStand tried.new (stations.all_gave (gifts.dealt_by dealt.now octets.now) now at ts)
        × OutletStands outlet.new (stations.all_put (gifts.dealt_by dealt.now octets.now) now at ts o)) }
{
    match tried.split_first_mut() {
        None => Ok(()),
        Some((one, more)) => {
            give_if(outlet, at, one, dealt, octets, now)?;
            deal(outlet, at + 1, more, dealt, octets, now)?;
            Ok(())
        }
    }
}

/// The station at a place is given what it is dealt, if anything.
fn give_if(
    outlet: &mut Outlet,
    at: usize,
    tried: &mut Tried,
    dealt: &Deal,
    octets: &[u8],
    now: Moment,
) -> Result<(), NoMemory>
    requires { at < 8 }
    ensures { OnOk result ((t : TriedState) (o : OutletState) → TriedStands tried.old t → OutletStands outlet.old o
        → TriedStands tried.new (stations.gave (gifts.gift_at (gifts.dealt_by dealt.now octets.now) at t.file) now t)
        × OutletStands outlet.new (stations.put_out (gifts.gift_at (gifts.dealt_by dealt.now octets.now) at t.file) now at t o)) }
{
    match given_at(dealt, at, tried) {
        Some(given) => {
            tried.give(given, octets, now)?;
            outlet.fetch(at, &mut tried.station)?;
            Ok(())
        }
        None => Ok(()),
    }
}

/// What the station at a place is given.
fn given_at(dealt: &Deal, at: usize, tried: &Tried) -> Option<Given>
    ensures { (octets : List ℕ) → option_map (gifts.gift_of octets) result
        ≡ gifts.gift_at (gifts.dealt_by dealt.now octets) at tried.now.file }
{
    match dealt {
        Deal::All(given) => Some(*given),
        Deal::To { at: place, given } => { if at == *place { Some(*given) } else { None } }
        Deal::Over { from, name } => heard_at(*from, name.as_bytes(), at, tried),
    }
}

/// What it is given of a frame that another has sent on a port of that name.
fn heard_at(from: usize, name: &[u8], at: usize, tried: &Tried) -> Option<Given>
    ensures { (octets : List ℕ) → option_map (gifts.gift_of octets) result
        ≡ gifts.gift_at (gifts.Over from name.now octets) at tried.now.file }
{
    if at == from {
        None
    } else {
        match tried.port_of_name(name) {
            Some(port) => Some(Given::Heard(port)),
            None => None,
        }
    }
}

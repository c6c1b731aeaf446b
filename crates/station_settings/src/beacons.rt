//! The beacons of a file. Called when its members are made.
ghost use Rattle.std.specs.Prelude.{◌≡◌, OnOk, IsTrue};
ghost use Rattle.std.specs.List.{list_all};
ghost use Rattle.station_file.specs.Stations.{has_short_text};
ghost use Rattle.station_members.specs.Standing.{MembersGo};
ghost use Rattle.station_settings.specs.Starting as starting;

use radio_base::NoMemory;
use station_file::Beacon;
use station_members::{BeaconConfig, Members};

/// The beacons of a station, in their order.
pub(crate) fn add_beacons(members: &mut Members, beacons: &[Beacon]) -> Result<(), NoMemory>
    requires { IsTrue (list_all has_short_text beacons.now) }
    ensures { OnOk result (MembersGo (starting.with_beacons beacons.now) members.old members.new) }
{
    match beacons {
        [] => Ok(()),
        [beacon, more @ ..] => {
            add_beacon(members, beacon)?;
            add_beacons(members, more)?;
            Ok(())
        }
    }
}

/// Its port counts from 1, and its time in seconds.
fn add_beacon(members: &mut Members, beacon: &Beacon) -> Result<(), NoMemory>
    requires { IsTrue (has_short_text beacon.now) }
    ensures { OnOk result (MembersGo (starting.with_beacon beacon.now) members.old members.new) }
{
    members.add_beacon(&BeaconConfig {
        port: beacon.port.saturating_sub(1),
        from: beacon.from,
        to: beacon.to,
        text: beacon.text.as_str().as_bytes(),
        every: beacon.every as u64 * 1_000,
    })?;
    Ok(())
}

//! A station as it starts. Called by who runs it.
ghost use Rattle.std.specs.Prelude.{IfOk};
ghost use Rattle.circuit_table.specs.Pairs.{IsPair};
ghost use Rattle.station_start.specs.Starts.{Starts};

use crate::abouts::about_of;
use circuit_l4::Pair;
use radio_base::NoMemory;
use station::Station;
use station_file::StationFile;
use station_settings::members_of;
use station_users::Users;
use std::alloc::Global;

/// The station of a file as it starts; each of its members gives this pair first.
pub fn station_of(alloc: Global, file: &StationFile, pair: Pair) -> Result<Station, NoMemory>
    requires { IsPair pair }
    ensures { IfOk result (Starts pair file.now) }
{
    let members = members_of(alloc, file, pair)?;
    let about = about_of(alloc, file)?;
    Ok(Station::new(alloc, Users::new(alloc, about, members)))
}

//! The members of a station as they start. Called by who runs a station.
ghost use Rattle.std.specs.Prelude.{◌≡◌, ◌≤◌, ◌+◌, length, option_copied, IfOk, OnOk, IsTrue};
ghost use Rattle.std.specs.List.{list_all};
ghost use Rattle.circuit_table.specs.Pairs.{IsPair};
ghost use Rattle.station_file.specs.Stations.{has_small_pieces};
ghost use Rattle.station_members.specs.Standing.{MembersGo, MembersStand};
ghost use Rattle.station_settings.specs.Starting as starting;

use crate::beacons::add_beacons;
use crate::member_setting::{member_config, post_config};
use crate::setting_up::set_up;
use circuit_l4::Pair;
use radio_base::NoMemory;
use station_file::{Member, Post, StationFile};
use station_members::Members;
use std::alloc::Global;

/// The members of a station's file as they start, in the order of the file, the post last; each gives this pair first.
pub fn members_of(alloc: Global, file: &StationFile, pair: Pair) -> Result<Members, NoMemory>
    requires { IsPair pair }
    ensures { IfOk result (λ members. MembersStand members (starting.start_of pair file.now)) }
{
    let mut members = Members::new(alloc, file.ports().len(), file.denied())?;
    add_members(&mut members, file.members(), pair)?;
    add_post(&mut members, file.post(), pair)?;
    set_up_all(&mut members, 0, file.members())?;
    add_beacons(&mut members, file.beacons())?;
    Ok(members)
}

fn add_members(members: &mut Members, declared: &[Member], pair: Pair) -> Result<(), NoMemory>
    requires pair { IsPair pair }
    requires small { IsTrue (list_all has_small_pieces declared.now) }
    ensures { OnOk result (MembersGo (starting.with_members pair declared.now) members.old members.new) }
{
    match declared {
        [] => Ok(()),
        [member, more @ ..] => {
            members.add(member_config(member, pair))?;
            add_members(members, more, pair)?;
            Ok(())
        }
    }
}

fn add_post(members: &mut Members, post: Option<&Post>, pair: Pair) -> Result<(), NoMemory>
    requires { IsPair pair }
    ensures { OnOk result (MembersGo (starting.with_post pair (option_copied post.entry)) members.old members.new) }
{
    match post {
        None => Ok(()),
        Some(post) => {
            members.add(post_config(post, pair))?;
            Ok(())
        }
    }
}

/// The members from a place on.
fn set_up_all(members: &mut Members, at: usize, declared: &[Member]) -> Result<(), NoMemory>
    requires { at + length declared.now ≤ 8 }
    ensures { OnOk result (MembersGo (starting.all_set_up at declared.now) members.old members.new) }
{
    match declared {
        [] => Ok(()),
        [member, more @ ..] => {
            set_up(members, at, member)?;
            set_up_all(members, at + 1, more)?;
            Ok(())
        }
    }
}

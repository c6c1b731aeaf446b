//! What a file says of a member beside its settings. Called when the members of a file are made.
ghost use Rattle.std.specs.Prelude.{◌≡◌, OnOk};
ghost use Rattle.station_members.specs.Standing.{MembersGo};
ghost use Rattle.station_settings.specs.Starting as starting;

use ax_address::{Call, Path};
use link_table::PathRefusal;
use network_file::Via;
use node_core::{ActRefusal, QualityRefusal, UserAct};
use node_settings::path_of;
use radio_base::{Moment, NoMemory};
use station_file::{Lock, Member, NeighbourQuality};
use station_members::Members;

/// The paths of the member at a place to peers, the qualities of its neighbours, and its locked routes.
pub(crate) fn set_up(members: &mut Members, at: usize, member: &Member) -> Result<(), NoMemory>
    ensures { OnOk result (MembersGo (starting.set_up at member.now) members.old members.new) }
{
    set_paths(members, at, member.vias.as_slice())?;
    set_qualities(members, at, member.qualities.as_slice())?;
    set_locks(members, at, member.locks.as_slice())?;
    Ok(())
}

fn set_paths(members: &mut Members, at: usize, vias: &[Via]) -> Result<(), NoMemory>
    ensures { OnOk result (MembersGo (starting.set_paths at vias.now) members.old members.new) }
{
    match vias {
        [] => Ok(()),
        [via, more @ ..] => {
            set_path(members, at, via)?;
            set_paths(members, at, more)?;
            Ok(())
        }
    }
}

fn set_path(members: &mut Members, at: usize, via: &Via) -> Result<(), NoMemory>
    ensures { OnOk result (MembersGo (starting.set_path at via.now) members.old members.new) }
{
    match members.set_path(at, &via.peer, &path_of(via)) {
        Ok(()) => Ok(()),
        Err(PathRefusal::NoMemory) => Err(NoMemory),
        Err(PathRefusal::TooLong) => Ok(()),
        Err(PathRefusal::Full) => Ok(()),
    }
}

fn set_qualities(
    members: &mut Members,
    at: usize,
    qualities: &[NeighbourQuality],
) -> Result<(), NoMemory>
    ensures { OnOk result (MembersGo (starting.set_qualities at qualities.now) members.old members.new) }
{
    match qualities {
        [] => Ok(()),
        [quality, more @ ..] => {
            set_quality(members, at, quality)?;
            set_qualities(members, at, more)?;
            Ok(())
        }
    }
}

fn set_quality(members: &mut Members, at: usize, quality: &NeighbourQuality) -> Result<(), NoMemory>
    ensures { OnOk result (MembersGo (starting.set_quality at quality.now) members.old members.new) }
{
    match members.set_quality(at, &quality.neighbour, quality.quality) {
        Ok(()) => Ok(()),
        Err(QualityRefusal::NoMemory) => Err(NoMemory),
        Err(QualityRefusal::Full) => Ok(()),
    }
}

fn set_locks(members: &mut Members, at: usize, locks: &[Lock]) -> Result<(), NoMemory>
    ensures { OnOk result (MembersGo (starting.set_locks at locks.now) members.old members.new) }
{
    match locks {
        [] => Ok(()),
        [lock, more @ ..] => {
            set_lock(members, at, lock)?;
            set_locks(members, at, more)?;
            Ok(())
        }
    }
}

fn set_lock(members: &mut Members, at: usize, lock: &Lock) -> Result<(), NoMemory>
    ensures { OnOk result (MembersGo (starting.set_lock at lock.now) members.old members.new) }
{
    let act = UserAct::Lock {
        dest: lock.dest,
        alias: lock.alias,
        neighbour: lock.neighbour,
        quality: lock.quality,
    };
    match members.act(at, &act, Moment(0)) {
        Ok(_) => Ok(()),
        Err(ActRefusal::NoMemory) => Err(NoMemory),
        Err(_) => Ok(()),
    }
}

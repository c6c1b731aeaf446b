//! What there is of each at a station, counted. Called by `looks`.
ghost use Rattle.std.specs.Prelude.{◌≡◌, ◌++◌, length, IfOk, OnOk};
ghost use Rattle.station_lists.specs.Lists as lists;
ghost use Rattle.station_members.specs.Standing.{MembersStand};
ghost use Rattle.station_members.specs.States.{State};
ghost use Rattle.station_looks.specs.Rows as rows;

use crate::about::MAX_PORTS;
use crate::known::all_known;
use crate::nodes::{ends_at, peers_at};
use crate::users::count_users;
use ax_address::Call;
use radio_base::{Moment, NoMemory, TextOut};
use station_lists::{Stats, add_stats};
use station_members::Members;
use station_sessions::Session;
use std::alloc::Global;

/// Adds what there is of each.
pub(crate) fn see_stats(
    alloc: Global,
    members: &Members,
    sessions: &[Session],
    started: Option<Moment>,
    now: Moment,
    text: &mut TextOut,
) -> Result<(), NoMemory>
    ensures { OnOk result ((s : State) → MembersStand members.now s
        → text.new ≡ text.old ++ lists.stats_text (rows.stats sessions.now (rows.moment_of started) now.0 s)) }
{
    let (came, went) = frames_of(members);
    let ends = ends_of_all(alloc, members)?;
    let peers = peers_of_all(alloc, members)?;
    let known = all_known(alloc, members)?;
    let stats = Stats {
        up: up_by(started, now),
        came,
        went,
        users: count_users(members, sessions),
        circuits: ends.as_slice().len(),
        links: peers.as_slice().len(),
        destinations: known.as_slice().len(),
    };
    add_stats(alloc, &stats, text)?;
    Ok(())
}

/// How long it runs: since the first tick.
fn up_by(started: Option<Moment>, now: Moment) -> u64
    ensures { result ≡ rows.up_by (rows.moment_of started) now.0 }
{
    match started {
        Some(started) => now.0.saturating_sub(started.0),
        None => 0,
    }
}

/// How many frames came at the ports, and how many went there.
fn frames_of(members: &Members) -> (u64, u64)
    ensures { (s : State) → MembersStand members.now s → result ≡ (rows.came s, rows.went s) }
{
    let mut came: u64 = 0;
    let mut went: u64 = 0;
    for port in 0..MAX_PORTS {
        came = came.saturating_add(members.came(port as u8));
        went = went.saturating_add(members.went(port as u8));
    }
    (came, went)
}

/// The ends of circuits of all members.
fn ends_of_all(alloc: Global, members: &Members) -> Result<Vec<u64>, NoMemory>
    ensures { IfOk result (λ all. (s : State) → MembersStand members.now s → all.items ≡ rows.ends s) }
{
    let mut all = Vec::new(alloc);
    for at in 0..members.len() {
        all.extend_from_slice(&ends_at(alloc, members, at)?)?;
    }
    Ok(all)
}

/// The peers of the links of all members.
fn peers_of_all(alloc: Global, members: &Members) -> Result<Vec<Call>, NoMemory>
    ensures { IfOk result (λ all. (s : State) → MembersStand members.now s → all.items ≡ rows.peers s) }
{
    let mut all = Vec::new(alloc);
    for at in 0..members.len() {
        all.extend_from_slice(&peers_at(members, at))?;
    }
    Ok(all)
}

//! What there is of each at a station, counted. Called by the crates that run a station.
ghost use Rattle.std.specs.Prelude.{◌≡◌, ◌++◌, IfOk, OnOk, string_bytes};
ghost use Rattle.station_lists.specs.Lists as lists;

use radio_base::{NoMemory, TextOut};
use station_prompt::age_text;
use std::alloc::{AllocError, Global};

/// What there is of each at a station.
#[derive(Clone, Copy, Debug, PartialEq, Eq)]
pub struct Stats {
    /// How long it runs, in milliseconds.
    pub up: u64,
    /// How many frames came at its ports.
    pub came: u64,
    /// How many frames went there.
    pub went: u64,
    pub users: usize,
    pub circuits: usize,
    pub links: usize,
    pub destinations: usize,
}

/// Adds what there is of each.
pub fn add_stats(alloc: Global, stats: &Stats, reply: &mut TextOut) -> Result<(), NoMemory>
    ensures { OnOk result (reply.new ≡ reply.old ++ lists.stats_text stats.now) }
{
    let front = front_of(alloc, stats)?;
    reply.text(front.as_str())?;
    let back = back_of(alloc, stats)?;
    reply.text(back.as_str())?;
    Ok(())
}

/// How long it runs, and its frames.
fn front_of(alloc: Global, stats: &Stats) -> Result<String, AllocError>
    ensures { IfOk result (λ s. string_bytes s ≡ lists.stats_front stats.now) }
{
    let up = age_text(stats.up);
    let up = up.as_str();
    let came = stats.came;
    let went = stats.went;
    format!(in alloc; "Up {up}, heard {came}, sent {went}")
}

/// What it holds.
fn back_of(alloc: Global, stats: &Stats) -> Result<String, AllocError>
    ensures { IfOk result (λ s. string_bytes s ≡ lists.stats_back stats.now) }
{
    let users = stats.users;
    let circuits = stats.circuits;
    let links = stats.links;
    let destinations = stats.destinations;
    format!(in alloc;
        ", users {users}, circuits {circuits}, links {links}, destinations {destinations}\r"
    )
}

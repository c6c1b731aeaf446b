//! Who was heard at the ports. Called by `looks`.
ghost use Rattle.std.specs.Prelude.{◌≡◌, ◌++◌, ◌≤◌, length, OnOk};
ghost use Rattle.station_prompt.specs.Asked as asks;
ghost use Rattle.station_members.specs.Standing.{MembersStand};
ghost use Rattle.station_members.specs.States.{State};
ghost use Rattle.station_looks.specs.Abouts as abouts;
ghost use Rattle.station_looks.specs.Replies as replies;

use crate::About;
use radio_base::{Moment, NoMemory, TextOut};
use station_lists::{Told, add_heard, add_told};
use station_members::Members;
use std::alloc::Global;

/// Adds who was heard at the port that a word names, or at each port.
pub(crate) fn see_heard(
    alloc: Global,
    members: &Members,
    about: &About,
    asked: Option<&[u8]>,
    now: Moment,
    text: &mut TextOut,
) -> Result<(), NoMemory>
    ensures { OnOk result ((s : State) → MembersStand members.now s
        → text.new ≡ text.old ++ replies.heard_reply (asks.text asked.entry) now.0 about.now s) }
{
    match asked {
        Some(word) => see_heard_on(alloc, members, about, word, now, text),
        None => see_heard_on_all(alloc, members, about.names(), now, text),
    }
}

fn see_heard_on(
    alloc: Global,
    members: &Members,
    about: &About,
    word: &[u8],
    now: Moment,
    text: &mut TextOut,
) -> Result<(), NoMemory>
    ensures { OnOk result ((s : State) → MembersStand members.now s
        → text.new ≡ text.old ++ replies.heard_on word.now (abouts.port_named word.now about.now) now.0 about.now s) }
{
    match about.port_named(word) {
        Some(port) => add_heard_at(alloc, members, about, port, now, text),
        None => add_told(&Told::NoSuchPort(word), text),
    }
}

fn add_heard_at(
    alloc: Global,
    members: &Members,
    about: &About,
    port: u8,
    now: Moment,
    text: &mut TextOut,
) -> Result<(), NoMemory>
    ensures { OnOk result ((s : State) → MembersStand members.now s
        → text.new ≡ text.old ++ replies.heard_named (abouts.port_name port about.now) port now.0 s) }
{
    match about.names().get(port as usize) {
        Some(name) => add_heard(alloc, name.as_str(), members.heard(port), now, text),
        None => Ok(()),
    }
}

/// The same of each port, in their order.
fn see_heard_on_all(
    alloc: Global,
    members: &Members,
    names: &[String],
    now: Moment,
    text: &mut TextOut,
) -> Result<(), NoMemory>
    requires { length names.now ≤ 8 }
    ensures { OnOk result ((s : State) → MembersStand members.now s
        → text.new ≡ text.old ++ replies.heard_from s now.0 0 names.now) }
{
    for (at, name) in names.iter().enumerate() {
        add_heard(alloc, name.as_str(), members.heard(at as u8), now, text)?;
    }
    Ok(())
}

//! What a member is beside its node. Used by `desk`, which has one for each, and by the files here that ask a seat.
ghost use Rattle.std.specs.Prelude.{◌≡◌, ◌<◌, length, IfSome, OnOk};
ghost use Rattle.station_members.specs.Telling as telling;
ghost use Rattle.station_members.specs.Seats as seats;

use crate::MemberRules;
use ax_address::{Alias, Call};
use node_core::NodeConfig;
use radio_base::{Moment, NoMemory};
use station_ports::{AliasPeers, HeldBack, KnownPorts, call_of_alias};
use std::alloc::Global;

/// When a member does its first round.
#[derive(Clone, Copy, Debug, PartialEq, Eq)]
pub(crate) enum FirstRound {
    /// So long after its first tick.
    After(u64),
    /// At the first tick from this moment on.
    Due(u64),
    /// It has done it, or does none by itself.
    Done,
}

/// What a member is beside its node.
#[derive(Drop)]
pub(crate) struct Seat {
    pub(crate) call: Call,
    pub(crate) alias: Alias,
    /// Its alias as a call, where that is another call than its own.
    pub(crate) byname: Option<Call>,
    pub(crate) rules: MemberRules,
    /// By which port it reaches whom.
    pub(crate) known: KnownPorts,
    /// Who speaks to it by its alias.
    pub(crate) peers: AliasPeers,
    /// Its answers that wait for a frame that says more.
    pub(crate) held: HeldBack,
    pub(crate) first: FirstRound,
}

impl Seat {
    /// As a member starts.
    pub(crate) fn new(alloc: Global, node: &NodeConfig, rules: MemberRules) -> Seat
        ensures { result ≡ seats.new_seat node.now rules }
    {
        let first = first_round(node.interval, rules.first);
        Seat {
            call: node.call,
            alias: node.alias,
            byname: byname(&node.call, &node.alias),
            rules,
            known: KnownPorts::new(alloc),
            peers: AliasPeers::new(),
            held: HeldBack::new(alloc),
            first,
        }
    }

    /// It remembers by which port a call is reached.
    pub(crate) fn remember(&mut self, call: &Call, port: u8) -> Result<(), NoMemory>
        ensures { OnOk result (self.new ≡ seats.remembers call.now port self.old) }
    {
        self.known.remember(call, port)?;
        Ok(())
    }

    /// The peer doesn't speak to it by its alias any more.
    pub(crate) fn unname(&mut self, peer: &Call)
        ensures { self.new ≡ seats.unnames peer.now self.old }
    {
        self.peers.remove(peer);
    }

    /// Whether it stands on a port.
    pub(crate) fn is_on(&self, port: u8) -> bool
        ensures { result ≡ seats.is_on port self.now }
    {
        self.rules.ports.iter().any(|one| *one == port)
    }

    /// Whether this call is its alias.
    pub(crate) fn is_byname(&self, call: &Call) -> bool
        ensures { result ≡ seats.is_byname call.now self.now }
    {
        match &self.byname {
            Some(byname) => *byname == *call,
            None => false,
        }
    }

    /// Time has passed. Whether its first round is due: then it counts as done.
    pub(crate) fn is_first_due(&mut self, now: Moment) -> bool
        ensures due { result ≡ seats.is_first_due now.0 self.old }
        ensures goes { self.new ≡ seats.ticked now.0 self.old }
    {
        let first = due_by(self.first, now);
        let is_due = is_due(first, now);
        self.first = done_if(is_due, first);
        is_due
    }
}

/// An alias as a call, where that is another one than this.
fn byname(call: &Call, alias: &Alias) -> Option<Call>
    ensures { result ≡ seats.byname call.now alias.now }
{
    match named(alias) {
        Some(name) => { if name == *call { None } else { Some(name) } }
        None => None,
    }
}

/// An alias as a call, where it is one.
fn named(alias: &Alias) -> Option<Call>
    ensures { result ≡ seats.named alias.now }
{
    match call_of_alias(alias) {
        Some(name) => {
            // (so it is a call)
            let _ = name.ssid();
            Some(name)
        }
        None => None,
    }
}

/// As it is before the first tick.
fn first_round(interval: u64, first: u64) -> FirstRound
    ensures { result ≡ seats.first_round interval first }
{
    if interval == 0 {
        FirstRound::Done
    } else {
        FirstRound::After(first)
    }
}

/// From the first tick on it is due at a moment.
fn due_by(first: FirstRound, now: Moment) -> FirstRound
    ensures { result ≡ seats.due_by now.0 first }
{
    match first {
        FirstRound::After(wait) => FirstRound::Due(now.0.saturating_add(wait)),
        FirstRound::Due(due) => FirstRound::Due(due),
        FirstRound::Done => FirstRound::Done,
    }
}

fn is_due(first: FirstRound, now: Moment) -> bool
    ensures { result ≡ seats.is_due now.0 first }
{
    match first {
        FirstRound::Due(due) => due <= now.0,
        FirstRound::After(_) => false,
        FirstRound::Done => false,
    }
}

fn done_if(is_due: bool, first: FirstRound) -> FirstRound
    ensures { result ≡ seats.done_if is_due first }
{
    if is_due { FirstRound::Done } else { first }
}

/// The place of the member of a call.
pub(crate) fn place_of(seats: &[Seat], call: &Call) -> Option<usize>
    ensures place { result ≡ telling.place_of call.now seats.now }
    ensures within { IfSome result (λ at. at < length seats.now) }
{
    seats.iter().position(|seat| seat.call == *call)
}

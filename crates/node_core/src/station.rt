//! A node above its KISS bytes. Called by `node`.
ghost use Rattle.std.specs.Prelude.{◌≡◌, ◌<◌, IfOk, IfSome, OnErr, OnOk, false, length, slice_get};
ghost use Rattle.node_core.specs.Configs.{IsConfig, start_of};
ghost use Rattle.link_table.specs.Calls as calls;
ghost use Rattle.node_core.specs.Qualities.{QualityNotNoMemory, is_full, quality_answer, with_quality};
ghost use Rattle.node_core.specs.Receiving.{quality_to};
ghost use Rattle.node_model.specs.Links.{sent_frames};
ghost use Rattle.node_model.specs.States as states;
ghost use Rattle.node_model.specs.States.{State};

use crate::path_qualities::PathQualities;
use crate::sessions::Session;
use crate::{NodeConfig, NodeEntry, QualityRefusal};
use ax_address::{Alias, Call};
use circuit_table::CircuitSet;
use l3_datagram::Router;
use link_table::{LinkTable, Written};
use radio_base::NoMemory;
use route_table::RouteTable;
use std::alloc::Global;
use std::collections::VecDeque;

/// A node above its KISS bytes. Its circuits hold the router, and that the routing table and the links.
#[derive(Drop)]
pub(crate) struct Station {
    pub(crate) alloc: Global,
    pub(crate) alias: Alias,
    pub(crate) path_quality: u8,
    /// The qualities of the paths to these neighbours, in its place.
    pub(crate) qualities: PathQualities,
    pub(crate) interval: u64,
    /// When the next round is due; none before the first tick.
    pub(crate) next_round: Option<u64>,
    pub(crate) set: CircuitSet<LinkTable>,
    /// The frames that go out before what waits at the links.
    pub(crate) own: VecDeque<Written>,
    pub(crate) entries: VecDeque<NodeEntry>,
    /// Whether users are served at a prompt.
    pub(crate) prompt: bool,
    /// Whether whoever holds the node serves them else: the texts at its links stay until they are taken.
    pub(crate) hosts: bool,
    /// The users at the prompt, in the order of their making.
    pub(crate) sessions: Vec<Session>,
}

impl Station {
    ghost use Rattle.node_core.specs.Standing.{station_frames, Holds, IsDrained};
    ghost use Rattle.node_core.specs.Going.{StationGoes};

    /// The node as it starts.
    pub(crate) fn new(alloc: Global, config: &NodeConfig, hosts: bool) -> Result<Station, NoMemory>
        requires { IsConfig config.now }
        ensures holds { IfOk result (λ station. Holds station (start_of hosts config.now)) }
        ensures drained { IfOk result IsDrained }
    {
        let table = RouteTable::new(alloc, config.call, config.routes);
        let links = LinkTable::new(
            alloc,
            config.call,
            config.links,
            config.modulo128,
            config.link,
        )?;
        let router = Router::new(alloc, config.call, table, links, config.ttl);
        let set = CircuitSet::new(
            alloc,
            router,
            config.call,
            config.ends,
            config.pair,
            config.first,
        )?;
        Ok(Station {
            alloc,
            alias: config.alias,
            path_quality: config.quality,
            qualities: PathQualities::new(alloc),
            interval: config.interval,
            next_round: None,
            set,
            own: VecDeque::new(alloc),
            entries: VecDeque::new(alloc),
            prompt: config.prompt,
            hosts,
            sessions: Vec::new(alloc),
        })
    }

    /// This node's call.
    pub(crate) fn call(&self) -> Call
        ensures { (n : State) → Holds self.now n → result ≡ n.settings.call }
    {
        self.set.router().own()
    }

    /// The quality of the path to a neighbour: its own, or else the node's.
    pub(crate) fn quality_to(&self, neighbour: &Call) -> u8
        ensures { (n : State) → Holds self.now n → result ≡ quality_to neighbour.now n }
    {
        match self.qualities.get(neighbour) {
            Some(quality) => quality,
            None => self.path_quality,
        }
    }

    /// Sets the quality of the path to a neighbour, where fewer than 16 others have one.
    pub(crate) fn set_quality(
        &mut self,
        neighbour: &Call,
        quality: u8,
    ) -> Result<(), QualityRefusal>
        ensures goes { OnOk result (StationGoes (with_quality neighbour.now quality) self.old self.new) }
        ensures answer { QualityNotNoMemory result → (n : State) → Holds self.old n
            → result ≡ quality_answer neighbour.now n }
        ensures err { OnErr result (QualityNotNoMemory result → self.new ≡ self.old) }
        ensures drained { IsDrained self.old → IsDrained self.new }
    {
        if self.qualities.is_full(neighbour) {
            return Err(QualityRefusal::Full);
        }
        match self.put_quality(neighbour, quality) {
            Ok(()) => Ok(()),
            Err(NoMemory) => Err(QualityRefusal::NoMemory),
        }
    }

    fn put_quality(&mut self, neighbour: &Call, quality: u8) -> Result<(), NoMemory>
        requires { is_full neighbour.now self.old.qualities.by_call.entries ≡ false }
        ensures goes { OnOk result (StationGoes (with_quality neighbour.now quality) self.old self.new) }
        ensures drained { IsDrained self.old → IsDrained self.new }
    {
        self.qualities.put(neighbour, quality)?;
        Ok(())
    }

    /// Puts out a frame of the node itself, behind all that its links have put out.
    pub(crate) fn put(&mut self, frame: Written) -> Result<(), NoMemory>
        ensures { OnOk result (StationGoes (states.put frame) self.old self.new) }
    {
        while let Some(earlier) = self.next_sent() {
            self.own.push_back(earlier)?;
        }
        self.own.push_back(frame)?;
        Ok(())
    }

    /// The next frame to be sent, the oldest one. None where none waits.
    pub(crate) fn next_frame(&mut self) -> Option<Written>
        ensures answer { (n : State) → Holds self.old n → result ≡ slice_get (states.frames n) 0 }
        ensures goes { StationGoes states.fetch_frame self.old self.new }
        ensures left { IfSome result (λ _. station_frames self.new < station_frames self.old) }
        ensures drained { IsDrained self.old → IsDrained self.new }
    {
        if self.own.is_empty() {
            self.next_sent()
        } else {
            self.own.pop_front()
        }
    }

    /// The next frame that its links have put out.
    fn next_sent(&mut self) -> Option<Written>
        ensures answer { (n : State) → Holds self.old n → result ≡ slice_get (sent_frames n.links) 0 }
        ensures goes { StationGoes (states.at_links calls.fetch) self.old self.new }
        ensures left { IfSome result (λ _.
            length self.new.set.router.carrier.frames < length self.old.set.router.carrier.frames) }
        ensures same { self.new ≡ record self.old { set = self.new.set } }
        ensures drained { IsDrained self.old → IsDrained self.new }
    {
        self.set.router_mut().carrier_mut().next_out()
    }
}

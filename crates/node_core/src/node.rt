//! A whole node. Called by `node_settings`, the replay and crates above.
ghost use Rattle.std.specs.Prelude.{◌≡◌, ◌<◌, ◌≤◌, ◌↔◌, IfOk, IfSome, OnOk, OnErr, IsErr, IsErrOf, IsTrue, false, is_some, slice_get};
ghost use Rattle.std.specs.List.{AllByRecursion};
ghost use Rattle.std.specs.Option.{option_copied, option_map};
ghost use Rattle.ax_address.specs.Callsign.{IsCallsign};
ghost use Rattle.ax_frame.specs.Frames.{IsAddress};
ghost use Rattle.ax_link.specs.State.{count_end};
ghost use Rattle.link_table.specs.Calls as calls;
ghost use Rattle.link_table.specs.Standing.{NotNoMemory, TableStands};
ghost use Rattle.node_core.specs.Configs.{IsConfig, hosting_node, new_node, node_of};
ghost use Rattle.kiss_framing.specs.Stream.{framed};
ghost use Rattle.node_core.specs.Bounds.{IsWithin};
ghost use Rattle.node_core.specs.Inputs as inputs;
ghost use Rattle.node_core.specs.Runs.{IsUserAct};
ghost use Rattle.node_core.specs.Acts.{act_of};
ghost use Rattle.node_model.specs.States as states;
ghost use Rattle.node_model.specs.States.{NodeState};

use crate::acts::wants_memory;
use crate::feeding::{take_bytes, take_kiss_frame};
use crate::station::Station;
use crate::{ActDone, ActRefusal, NodeConfig, NodeEntry, QualityRefusal, UserAct, laws};
use ax_address::{Address, Call, Path};
use circuit_l4::EndFacts;
use circuit_table::CircuitSet;
use kiss_framing::Deframer;
use link_table::{LinkTable, PathRefusal, Written};
use radio_base::{COUNT_MAX, Moment, NoMemory};
use route_table::RouteTable;
use std::alloc::Global;
use std::marker::Model;

/// A NET/ROM node over AX.25 links (AX.25 2.2; NET/ROM, Appendix B): a pure machine, which reads no clock and no stream. Its calls are of
/// three kinds.
///
/// - Inputs, each but `set_path` and `set_quality` with its moment in milliseconds: `act` and these two of its user; `kiss_bytes` as they
///   come, in pieces of any size, or `kiss_frame` where the channel has no bytes; `tick` of time.
/// - Outputs: `next_frame` and `trace_entry`. After each input both are fetched until they answer None.
/// - Looks, which change nothing: `has_entries`, `first_entry`, `routes`, `links`, `facts`, `circuits`, `is_spent`.
///
/// `tick` is called about once a second, since no call tells when something is due. What a node keeps is bounded, as `laws::kept` tells;
/// once it has answered NoMemory it is spent, and answers that ever after. What each input does stands in `specs/Inputs.antt`.
///
/// In use (`node_core_tests`, `a_node_in_use`):
///
/// ```text
/// let mut node = Node::new(alloc, config)?;
/// node.kiss_frame(&broadcast, now)?; // of a neighbour
/// let hop = node.routes().next_hop(&neighbour); // the neighbour
/// let made = node.act(&UserAct::Connect(neighbour), now)?; // Made, with the number of the new end
/// let told = node.trace_entry(); // Made
/// let sent = node.trace_entry(); // Sent: its Request waits for a link
/// let set_up = node.next_frame(); // a SABM for the neighbour, in octets
/// node.kiss_bytes(&accept, now)?; // its UA
/// let opened = node.trace_entry(); // the neighbour, and Opened
/// let asked = node.next_frame(); // an I with the Request
/// node.tick(later)?;
/// ```
#[derive(Drop)]
pub struct Node {
    deframer: Deframer,
    station: Station,
    spent: bool,
}

impl Model for Node {
    ghost use Rattle.std.specs.Prelude.{◌≡◌, false};
    ghost use Rattle.std.specs.Coded.{codes};
    ghost use Rattle.indexmap.specs.Layout.{hash_map_code};
    ghost use Rattle.circuit_table.specs.contracts.held_ends.HeldEnds.{the_row as held_row};
    ghost use Rattle.node_core.specs.Standing.{Kept, view_of};
    ghost use Rattle.node_core.specs.Sound.{IsSound};

    ghost Value = { Kept };

    ghost coded = { Prim.hlevel (codes, hash_map_code, held_row.coded) };

    ghost view = { λ n. view_of n.deframer n.station n.spent };

    // It keeps that and nothing else.
    ghost inverse = { λ k. record { deframer = k.deframer; station = k.station; spent = k.spent } };

    ghost invariant = { λ n. n.spent ≡ false → IsSound (view_of n.deframer n.station n.spent) };
}

impl Node {
    ghost use Rattle.circuit_table.specs.CircuitSets.{SetStands, facts_at};
    ghost use Rattle.circuit_table.specs.Pumps.{at_rest};
    ghost use Rattle.circuit_table.specs.Sets as sets;
    ghost use Rattle.node_core.specs.Standing.{IsAnswer, entry_of, NodeGoes, NodeStands, circuits_of, entries_left, frames_left, links_of};
    ghost use Rattle.node_core.specs.Acts.{act_of};
    ghost use Rattle.node_core.specs.declared.acts.ActRefusal.TheVariants as refusals;
    ghost use Rattle.link_table.specs.declared.path_refusal.PathRefusal.TheVariants as path_refusals;
    ghost use Rattle.node_core.specs.declared.quality_refusal.QualityRefusal.TheVariants as quality_refusals;
    ghost use Rattle.node_core.specs.Qualities.{QualityNotNoMemory, quality_answer, with_quality};

    /// A node without links, circuits, users and routes, within its bound. The conditions on its settings are those of its parts.
    pub fn new(alloc: Global, config: NodeConfig) -> Result<Node, NoMemory>
        requires { IsConfig config }
        ensures stands { IfOk result (λ node. NodeStands node (new_node config)) }
        ensures kept { IfOk result IsWithin }
    {
        Node::start(alloc, config, false)
    }

    /// The same of a node whose users are served by whoever holds it: the texts at its links stay there until they are taken.
    pub fn hosting(alloc: Global, config: NodeConfig) -> Result<Node, NoMemory>
        requires config { IsConfig config }
        requires prompt { config.prompt ≡ false }
        ensures stands { IfOk result (λ node. NodeStands node (hosting_node config)) }
        ensures kept { IfOk result IsWithin }
    {
        Node::start(alloc, config, true)
    }

    /// A node as it starts.
    fn start(alloc: Global, config: NodeConfig, hosts: bool) -> Result<Node, NoMemory>
        requires { IsConfig config }
        ensures stands { IfOk result (λ node. NodeStands node (node_of hosts config)) }
        ensures kept { IfOk result IsWithin }
    {
        is_callsign(&config.call);
        let station = Station::new(alloc, &config, hosts)?;
        let node = Node {
            deframer: Deframer::new(),
            station,
            spent: false,
        };
        node.keeps_within();
        Ok(node)
    }

    /// Sets the repeaters over which a peer is reached, in the place of those before. It is refused, in this order: `TooLong`
    /// where there are more than two, `Full` where 16 other peers have some. A refusal but `NoMemory` changes nothing.
    pub fn set_path(&mut self, peer: &Call, path: &Path) -> Result<(), PathRefusal>
        ensures goes { OnOk result (NodeGoes
            (λ n. record n { station = states.at_links (calls.with_path peer.now path.now) n.station })
            self.old self.new) }
        ensures answer { NotNoMemory result → (n : NodeState) → NodeStands self.old n
            → result ≡ calls.path_answer peer.now path.now n.station.links }
        ensures err { OnErr result (NotNoMemory result → self.new ≡ self.old) }
        ensures kept { NotNoMemory result → IsWithin self.new }
        ensures memory { IsErrOf result path_refusals.NoMemory ↔ IsTrue self.new.spent }
        ensures spent { IsTrue self.old.spent → self.new ≡ self.old }
    {
        if self.spent {
            return Err(PathRefusal::NoMemory);
        }
        let outcome = self
            .station
            .set
            .router_mut()
            .carrier_mut()
            .set_path(peer, path);
        self.spent = outcome == Err(PathRefusal::NoMemory);
        self.keeps_within();
        outcome
    }

    /// Sets the quality of the path to a neighbour, in the place of the node's: broadcasts that come from it count with that. It is
    /// refused, `Full`, where 16 other neighbours have one. A refusal but `NoMemory` changes nothing.
    pub fn set_quality(&mut self, neighbour: &Call, quality: u8) -> Result<(), QualityRefusal>
        ensures goes { OnOk result (NodeGoes
            (λ n. record n { station = with_quality neighbour.now quality n.station })
            self.old self.new) }
        ensures answer { QualityNotNoMemory result → (n : NodeState) → NodeStands self.old n
            → result ≡ quality_answer neighbour.now n.station }
        ensures err { OnErr result (QualityNotNoMemory result → self.new ≡ self.old) }
        ensures kept { QualityNotNoMemory result → IsWithin self.new }
        ensures memory { IsErrOf result quality_refusals.NoMemory ↔ IsTrue self.new.spent }
        ensures spent { IsTrue self.old.spent → self.new ≡ self.old }
    {
        if self.spent {
            return Err(QualityRefusal::NoMemory);
        }
        let outcome = self.station.set_quality(neighbour, quality);
        self.spent = outcome == Err(QualityRefusal::NoMemory);
        self.keeps_within();
        outcome
    }

    /// Takes in KISS bytes. Each item that they complete is one input. After them it keeps no more than its bound.
    pub fn kiss_bytes(&mut self, bytes: &[u8], now: Moment) -> Result<(), NoMemory>
        ensures goes { OnOk result (NodeGoes (inputs.after_bytes now.0 bytes.now) self.old self.new) }
        ensures kept { OnOk result (IsWithin self.new) }
        ensures memory { IsErr result ↔ IsTrue self.new.spent }
        ensures spent { IsTrue self.old.spent → self.new ≡ self.old }
    {
        if self.spent {
            return Err(NoMemory);
        }
        laws::settles();
        let taken = take_bytes(&mut self.deframer, &mut self.station, bytes, moment(now));
        self.spent = taken.is_err();
        self.keeps_within();
        taken
    }

    /// Takes in a frame by its octets, as if it had come as KISS bytes: data on port 0. More than 1,023 octets are no frame. After
    /// it the node keeps no more than its bound.
    pub fn kiss_frame(&mut self, octets: &[u8], now: Moment) -> Result<(), NoMemory>
        ensures goes { OnOk result (NodeGoes (inputs.after_bytes now.0 (framed 0 0 octets.now)) self.old self.new) }
        ensures kept { OnOk result (IsWithin self.new) }
        ensures memory { IsErr result ↔ IsTrue self.new.spent }
        ensures spent { IsTrue self.old.spent → self.new ≡ self.old }
    {
        if self.spent {
            return Err(NoMemory);
        }
        laws::settles();
        let taken = take_kiss_frame(&mut self.deframer, &mut self.station, octets, moment(now));
        self.spent = taken.is_err();
        self.keeps_within();
        taken
    }

    /// Time has passed. After it the node keeps no more than its bound.
    pub fn tick(&mut self, now: Moment) -> Result<(), NoMemory>
        ensures goes { OnOk result (NodeGoes (inputs.after_tick now.0) self.old self.new) }
        ensures kept { OnOk result (IsWithin self.new) }
        ensures memory { IsErr result ↔ IsTrue self.new.spent }
        ensures spent { IsTrue self.old.spent → self.new ≡ self.old }
    {
        if self.spent {
            return Err(NoMemory);
        }
        laws::settles();
        let ticked = self.station.tick(moment(now));
        self.spent = ticked.is_err();
        self.keeps_within();
        ticked
    }

    /// Does what the user wants, or tells why not. After it the node keeps no more than its bound.
    pub fn act(&mut self, act: &UserAct, now: Moment) -> Result<ActDone, ActRefusal>
        ensures answer { IsAnswer result → (n : NodeState) → NodeStands self.old n
            → result ≡ inputs.act_answer now.0 (act_of act.now) n }
        ensures goes { IsAnswer result → NodeGoes (inputs.after_act now.0 (act_of act.now)) self.old self.new }
        ensures kept { IsAnswer result → IsWithin self.new }
        ensures memory { IsErrOf result refusals.NoMemory ↔ IsTrue self.new.spent }
        ensures spent { IsTrue self.old.spent → self.new ≡ self.old }
    {
        if self.spent {
            return Err(ActRefusal::NoMemory);
        }
        laws::settles();
        asks_for_call(act);
        let outcome = self.station.act(act, moment(now));
        self.spent = wants_memory(&outcome);
        self.keeps_within();
        outcome
    }

    /// The next frame to be sent, and how its octets were written: the oldest one. None where none waits.
    pub fn next_frame(&mut self) -> Option<Written>
        ensures answer { (n : NodeState) → NodeStands self.old n → result ≡ slice_get (states.frames n.station) 0 }
        ensures goes { NodeGoes (λ n. record n { station = states.fetch_frame n.station }) self.old self.new }
        ensures left { IfSome result (λ _. frames_left self.new < frames_left self.old) }
        ensures kept { self.old.spent ≡ false → IsWithin self.new }
        ensures spent { self.new.spent ≡ self.old.spent }
    {
        let frame = self.station.next_frame();
        self.keeps_within();
        frame
    }

    /// Whether it has something to tell.
    pub fn has_entries(&self) -> bool
        ensures { (n : NodeState) → NodeStands self.now n → result ≡ is_some (slice_get n.station.entries 0) }
    {
        !self.station.entries.is_empty()
    }

    /// The next thing that it has to tell, as `trace_entry` would give it, lent. None where there is none.
    pub fn first_entry(&self) -> Option<&NodeEntry>
        ensures { (n : NodeState) → NodeStands self.now n
            → option_map entry_of (option_copied result) ≡ slice_get n.station.entries 0 }
    {
        self.station.entries.front()
    }

    /// The next thing that it has to tell, the oldest one. None where there is none.
    pub fn trace_entry(&mut self) -> Option<NodeEntry>
        ensures answer { (n : NodeState) → NodeStands self.old n
            → option_map entry_of result ≡ slice_get n.station.entries 0 }
        ensures goes { NodeGoes (λ n. record n { station = states.fetch_entry n.station }) self.old self.new }
        ensures left { IfSome result (λ _. entries_left self.new < entries_left self.old) }
        ensures kept { self.old.spent ≡ false → IsWithin self.new }
        ensures spent { self.new.spent ≡ self.old.spent }
    {
        let entry = self.station.entries.pop_front();
        self.keeps_within();
        entry
    }

    /// The routing table.
    pub fn routes(&self) -> &RouteTable
        ensures { result.now ≡ (circuits_of self.now).router.table }
    {
        self.station.set.router().table()
    }

    /// The links: who has set each up, over what it goes, how far it is, whether a text waits at it, and what more it would take.
    pub fn links(&self) -> &LinkTable
        ensures value { result.now ≡ links_of self.now }
        ensures stands { (n : NodeState) → NodeStands self.now n → TableStands result.now n.station.links }
    {
        self.station.set.router().carrier()
    }

    /// What an end tells of itself: none where no end of that number is held.
    pub fn facts(&self, id: u64) -> Option<EndFacts>
        ensures { (n : NodeState) → NodeStands self.now n → result ≡ facts_at (sets.end_of id n.station.set.set.ends) }
    {
        self.station.set.facts(id)
    }

    /// Whether memory ran out in an earlier call. Where it didn't, the node keeps no more than its bound.
    pub fn is_spent(&self) -> bool
        ensures value { result ≡ self.now.spent }
        ensures kept { result ≡ false → IsWithin self.now }
    {
        self.keeps_within();
        self.spent
    }

    /// What holds of every node that isn't spent: it keeps no more than its bound. Its table tells how many usable pairs it has, and that
    /// these are few enough.
    fn keeps_within(&self)
        ensures { self.now.spent ≡ false → IsWithin self.now }
    {
        laws::kept();
        let _ = self.station.set.router().table().live();
    }

    /// The circuits, and with them the router, its routing table and the links.
    pub fn circuits(&self) -> &CircuitSet<LinkTable>
        ensures value { result.now ≡ circuits_of self.now }
        ensures stands { (n : NodeState) → NodeStands self.now n → SetStands result.now (at_rest n.station.set.set) }
    {
        &self.station.set
    }
}

/// What holds of every call.
fn is_callsign(call: &Call)
    ensures { IsCallsign call.now.letters call.now.ssid }
{
    let _ = call.ssid();
}

/// So each repeater is one.
fn are_callsigns(repeaters: &[Address])
    ensures { AllByRecursion IsAddress repeaters.now }
{
    match repeaters {
        [] => {}
        [first, rest @ ..] => {
            is_callsign(&first.call);
            are_callsigns(rest)
        }
    }
}

/// So a circuit is asked for with a call, and for one, and a link over calls.
fn asks_for_call(act: &UserAct<'_>)
    ensures { IsUserAct (act_of act.now) }
{
    match act {
        UserAct::Connect(dest) => is_callsign(dest),
        UserAct::ConnectFor { user, dest } => {
            is_callsign(user);
            is_callsign(dest)
        }
        UserAct::OpenLink { to, path } => {
            is_callsign(to);
            are_callsigns(path.as_slice())
        }
        UserAct::Round
        | UserAct::LinkFail(_)
        | UserAct::Lock { .. }
        | UserAct::Write { .. }
        | UserAct::Take { .. }
        | UserAct::Close { .. }
        | UserAct::TakeText(_)
        | UserAct::SendText { .. }
        | UserAct::CloseLink(_) => {}
    }
}

/// A moment above 2^62 ms counts as 2^62 ms.
fn moment(now: Moment) -> Moment
    ensures value { result.0 ≡ inputs.moment now.0 }
    ensures most { result.0 ≤ count_end }
{
    Moment(now.0.min(COUNT_MAX))
}

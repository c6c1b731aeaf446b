//! The ends that nodes ever made, as a replay keeps them. Called by net_world.
ghost use Rattle.std.specs.Prelude.{◌≡◌, ◌<◌, ◌-◌, ℕ, [], IfOk, OnOk, length};
ghost use Rattle.node_core.specs.Standing.{entry_of};
ghost use Rattle.net_model.specs.Ends as ends;
ghost use Rattle.net_model.specs.Events.{event_of};

use crate::end_datagrams::LostEnd;
use crate::events::Event;
use crate::mails::Offer;
use crate::outcome::Outcome;
use ax_address::Call;
use circuit_table::SetEvent;
use node_core::NodeEntry;
use radio_base::NoMemory;
use std::alloc::Global;
use std::marker::Model;

/// An end that a node made. Ends are numbered from 1 in the order of their making.
#[derive(Clone, Copy, Debug, PartialEq, Eq)]
pub struct EndRecord {
    /// The partner's node.
    pub partner: Call,
    pub outcome: Outcome,
    /// The number of the last mail that was offered there; 0 where none was.
    pub offered: u64,
}

/// The ends that nodes ever made: a list for each number that a node can have.
#[derive(Drop)]
pub struct Ends {
    lists: Vec<Vec<EndRecord>>,
}

impl Model for Ends {
    ghost use Rattle.std.specs.Prelude.{◌≡◌, List, length};
    ghost use Rattle.net_model.specs.declared.ends.EndRecord.{EndRecord};
    ghost use Rattle.net_model.specs.Ends.{all_items};

    ghost Value = { List (List EndRecord) };

    ghost view = { λ e. all_items e.lists.items };

    ghost invariant = { λ e. length e.lists.items ≡ 256 };
}

impl Ends {
    ghost use Rattle.std.specs.Prelude.{◌≡◌, ℕ, [], IfOk, OnOk};
    ghost use Rattle.net_model.specs.Ends.{ends_at, note_event, offered_at};
    ghost use Rattle.net_model.specs.Events.{event_of};

    /// No node has made one.
    pub fn new(alloc: Global) -> Result<Ends, NoMemory>
        ensures { IfOk result (λ ends. (node : ℕ) → ends_at node ends ≡ []) }
    {
        let lists = empty_lists(alloc)?;
        Ok(Ends { lists })
    }

    /// The ends of the node of that number, by number.
    pub fn of_node(&self, node: u8) -> &[EndRecord]
        ensures { result.now ≡ ends_at node self.now }
    {
        &self.lists[node as usize]
    }

    /// The number of the last mail that was offered at the end of that number at a node; 0 where none was.
    pub fn offered(&self, node: u8, id: u64) -> u64
        ensures { result ≡ offered_at id (ends_at node self.now) }
    {
        match self.of_node(node).get(id.saturating_sub(1) as usize) {
            Some(end) => end.offered,
            None => 0,
        }
    }

    /// Keeps what an event tells of ends.
    pub fn note(&mut self, event: &Event) -> Result<(), NoMemory>
        ensures { OnOk result ((node : ℕ)
            → ends_at node self.new ≡ note_event node (event_of event.now) (ends_at node self.old)) }
    {
        note_in(&mut self.lists, event)?;
        Ok(())
    }
}

fn empty_lists(alloc: Global) -> Result<Vec<Vec<EndRecord>>, NoMemory>
    ensures all { IfOk result (λ lists. length lists.items ≡ 256) }
    ensures empty { IfOk result (λ lists. (node : ℕ) → ends.ends_at node (ends.all_items lists.items) ≡ []) }
{
    let mut lists = Vec::new(alloc);
    for _ in 0..256usize {
        lists.push(Vec::new(alloc))?;
    }
    Ok(lists)
}

#[tactic(auto, using(crate::proofs::Noting::either_way))]
fn note_in(lists: &mut [Vec<EndRecord>], event: &Event) -> Result<(), NoMemory>
    requires { length lists.old ≡ 256 }
    ensures { OnOk result ((node : ℕ)
        → ends.ends_at node (ends.all_items lists.new) ≡ ends.note_event node (event_of event.now)
        (ends.ends_at node (ends.all_items lists.old))) }
{
    match event {
        Event::Entry { node, entry } => {
            note_entry(&mut lists[*node as usize], entry)?;
            Ok(())
        }
        Event::Lost { node, end } => {
            let LostEnd { id, facts } = **end;
            set_outcome(&mut lists[*node as usize], id, Outcome::Lost(facts));
            Ok(())
        }
        Event::Offered { node, offer } => {
            let Offer { id, number } = **offer;
            set_offered(&mut lists[*node as usize], id, number);
            Ok(())
        }
        _ => Ok(()),
    }
}

/// Keeps an end that was made, and what became of one that is gone.
fn note_entry(made: &mut Vec<EndRecord>, entry: &NodeEntry) -> Result<(), NoMemory>
    ensures { OnOk result (made.new.items ≡ ends.note_entry (entry_of entry.now) made.old.items) }
{
    match entry {
        NodeEntry::Set(SetEvent::Made { partner, .. }) => {
            made.push(EndRecord {
                partner: *partner,
                outcome: Outcome::Held,
                offered: 0,
            })?;
            Ok(())
        }
        NodeEntry::Set(SetEvent::Gone { id, facts }) => {
            set_outcome(made, *id, Outcome::Gone(*facts));
            Ok(())
        }
        _ => Ok(()),
    }
}

/// Sets what has become of the end of that number, from 1.
fn set_outcome(made: &mut [EndRecord], id: u64, outcome: Outcome)
    ensures { made.new ≡ ends.with_outcome outcome (id - 1) made.old }
{
    let at = id.saturating_sub(1) as usize;
    if at < made.len() {
        made[at].outcome = outcome;
    }
}

/// Sets which mail was offered last at the end of that number, from 1.
fn set_offered(made: &mut [EndRecord], id: u64, number: u64)
    ensures { made.new ≡ ends.with_offered number (id - 1) made.old }
{
    let at = id.saturating_sub(1) as usize;
    if at < made.len() {
        made[at].offered = number;
    }
}

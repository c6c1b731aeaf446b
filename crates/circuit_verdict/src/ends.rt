//! What is kept of the ends that were made: their partners, and which of them are still open. Called by `book` and `cause`.
ghost use Rattle.std.specs.Prelude.{◌≡◌, ◌∷◌, ◌++◌, ◌&&◌, [], OnOk, ℕ, List, Option, Some, None, cond, nat_eq, slice_get};
ghost use Rattle.indexmap.specs.IndexMap.{get};
ghost use Rattle.ax_address.specs.Callsign.{Callsign, same_call};
ghost use Rattle.circuit_l4.specs.declared.pair.Pair.{Pair as SeenPair};
ghost use Rattle.circuit_table.specs.Sets.{same_pair};
ghost use Rattle.circuit_set.specs.Books as books;
ghost use Rattle.circuit_set.specs.NotedRuns.{opened_window, told_to};
ghost use Rattle.circuit_table.specs.Events as set_events;
ghost use Rattle.circuit_verdict.specs.Causes as causes;
ghost use Rattle.circuit_verdict.specs.Ends as made;
ghost use Rattle.circuit_verdict.specs.Lists.{list_in};

use crate::lists::Lists;
use crate::names::Name;
use crate::pairs::{CallPair, NodePair};
use ax_address::Call;
use circuit_l4::{EndNotice, Pair};
use indexmap::{IndexMap, IndexSet};
use radio_base::NoMemory;
use std::alloc::Global;

/// What is kept of an end that was made.
#[derive(Clone, Copy, Debug)]
pub(crate) struct EndNote {
    /// A request has opened it.
    pub(crate) asked: bool,
    /// A notice has told its end.
    pub(crate) ended: bool,
    /// The window that was told at its opening.
    pub(crate) window: Option<u8>,
}

impl EndNote {
    /// The end has given notice.
    fn hear(&mut self, notice: &EndNotice)
        ensures { self.new ≡ made.after_notice notice.now self.old }
    {
        match notice {
            EndNotice::Opened { window } => self.window = self.window.or(Some(*window)),
            _ => self.ended = true,
        }
    }
}

/// All ends that were made.
#[derive(Drop)]
pub(crate) struct Ends {
    pub(crate) notes: IndexMap<Name, EndNote>,
    pub(crate) partners: IndexMap<Name, Name>,
    /// The ends that restarts took away.
    pub(crate) lost: IndexSet<Name>,
    /// The end to which a call gave a pair last.
    pub(crate) last_made: IndexMap<CallPair, Name>,
    /// The ends to which a node gave a pair.
    pub(crate) given: Lists<NodePair, Name>,
    /// The ends whose partner an end has become.
    pub(crate) facing: Lists<Name, Name>,
}

impl Ends {
    pub(crate) fn new(alloc: Global) -> Ends
        ensures { made.EndsStand result [] [] }
    {
        Ends {
            notes: IndexMap::new(alloc),
            partners: IndexMap::new(alloc),
            lost: IndexSet::new(alloc),
            last_made: IndexMap::new(alloc),
            given: Lists::new(alloc),
            facing: Lists::new(alloc),
        }
    }

    /// The window that was told at the opening of an end, if it was.
    pub(crate) fn window(&self, end: &Name) -> Option<u8>
        ensures { (ms : List books.MadeNote) (lost : List set_events.Name) → made.EndsStand self.now ms lost
            → result ≡ opened_window (told_to ms end.now) }
    {
        match self.notes.get(end) {
            Some(note) => note.window,
            None => None,
        }
    }

    /// The partner of an end, if it has one.
    pub(crate) fn partner(&self, end: &Name) -> Option<Name>
        ensures kept { result ≡ get set_events.same_name self.now.partners end.now }
        ensures exact { (ms : List books.MadeNote) (lost : List set_events.Name) → made.EndsStand self.now ms lost
            → result ≡ books.partner_in ms end.now }
    {
        self.partners.get(end).copied()
    }

    /// The end to which the node of this call gave this pair last.
    pub(crate) fn made_last(&self, own: &Call, pair: &Pair) -> Option<Name>
        ensures { (ms : List books.MadeNote) (lost : List set_events.Name) → made.EndsStand self.now ms lost
            → result ≡ books.made_last ms own.now pair.now }
    {
        self.last_made.get(&CallPair::of(own, pair)).copied()
    }

    /// Whether a pair of this node names the partner of an end of another node that has neither ended nor been lost.
    pub(crate) fn is_faced(&self, node: u64, pair: &Pair) -> bool
        ensures { (ms : List books.MadeNote) (lost : List set_events.Name) → made.EndsStand self.now ms lost
            → result ≡ made.is_faced ms lost node pair.now }
    {
        self.keeps_faced(node, pair)
    }

    fn keeps_faced(&self, node: u64, pair: &Pair) -> bool
        ensures { result ≡ made.kept_faced self.now node pair.now }
    {
        let given = self.given.of(&NodePair::of(node, pair));
        given.iter().any(|end| self.has_open_partner(end))
    }

    /// Whether an end is the partner of an end of another node that has neither ended nor been lost.
    fn has_open_partner(&self, end: &Name) -> bool
        ensures { result ≡ made.keeps_open_partner self.now end.now }
    {
        self.facing
            .of(end)
            .iter()
            .any(|other| self.faces(end, other))
    }

    /// Whether an end is the partner of this other one, which is of another node and has neither ended nor been lost.
    fn faces(&self, end: &Name, other: &Name) -> bool
        ensures { result ≡ made.kept_faces self.now end.now other.now }
    {
        other.node() != end.node() && self.is_open(other) && self.partner(other) == Some(*end)
    }

    /// The first end of another node, neither ended nor lost, whose partner is named by this pair of this node.
    pub(crate) fn holder(&self, node: u64, pair: &Pair) -> Option<Name>
        ensures { (ms : List books.MadeNote) (lost : List set_events.Name) → made.EndsStand self.now ms lost
            → result ≡ slice_get (causes.holders ms lost node pair.now) 0 }
    {
        let given = self.given.of(&NodePair::of(node, pair));
        for end in given {
            if let Some(other) = self.open_partner(end) {
                return Some(other);
            }
        }
        None
    }

    /// The first end of another node, neither ended nor lost, whose partner is this end.
    fn open_partner(&self, end: &Name) -> Option<Name>
        ensures { result ≡ slice_get (causes.kept_partners self.now end.now) 0 }
    {
        let facing = self.facing.of(end);
        for other in facing {
            if self.faces(end, other) {
                return Some(*other);
            }
        }
        None
    }

    /// Whether an end was made and has neither ended nor been lost.
    fn is_open(&self, end: &Name) -> bool
        ensures { result ≡ made.kept_open self.now end.now }
    {
        match self.notes.get(end) {
            Some(note) => !note.ended && !self.lost.contains(end),
            None => false,
        }
    }

    /// An end is made by the node of this call, with this pair. The requester is the end whose request has opened it.
    pub(crate) fn make(
        &mut self,
        end: Name,
        own: &Call,
        pair: &Pair,
        requester: Option<Name>,
    ) -> Result<(), NoMemory>
        ensures { OnOk result ((ms : List books.MadeNote) (lost : List set_events.Name)
            → made.EndsStand self.old ms lost
            → made.EndsStand self.new (made.made_note end own.now pair.now requester ∷ ms) lost) }
    {
        self.give(&end, own, pair)?;
        self.note_made(&end, requester.is_some())?;
        self.join(&end, requester)?;
        Ok(())
    }

    fn give(&mut self, end: &Name, own: &Call, pair: &Pair) -> Result<(), NoMemory>
        ensures rest { self.new ≡ record self.old { last_made = self.new.last_made; given = self.new.given } }
        ensures last { OnOk result ((call : Callsign) (p : SeenPair)
            → get made.same_call_pair self.new.last_made (record { own = call; pair = made.key_of p })
            ≡ cond (same_call own.now call && same_pair pair.now p) (Some end.now)
            (get made.same_call_pair self.old.last_made (record { own = call; pair = made.key_of p }))) }
        ensures given { OnOk result ((node : ℕ) (p : SeenPair)
            → list_in (get made.same_node_pair self.new.given.lists (record { node = node; pair = made.key_of p }))
            ≡ cond (nat_eq end.now.node node && same_pair pair.now p)
            (list_in (get made.same_node_pair self.old.given.lists
            (record { node = end.now.node; pair = made.key_of pair.now })) ++ end.now ∷ [])
            (list_in (get made.same_node_pair self.old.given.lists (record { node = node; pair = made.key_of p })))) }
    {
        self.last_made.insert(CallPair::of(own, pair), *end)?;
        self.given.push(NodePair::of(end.node(), pair), *end)?;
        Ok(())
    }

    /// An end that was made before stays one that a request has opened.
    fn note_made(&mut self, end: &Name, by_request: bool) -> Result<(), NoMemory>
        ensures rest { self.new ≡ record self.old { notes = self.new.notes } }
        ensures notes { OnOk result ((ms : List books.MadeNote)
            → ((x : set_events.Name) → get set_events.same_name self.old.notes x ≡ made.note_in ms x)
            → (x : set_events.Name) → get set_events.same_name self.new.notes x
            ≡ cond (set_events.same_name end.now x)
            (Some (made.fresh_note by_request ms end.now)) (made.note_in ms x)) }
    {
        let asked = by_request || self.was_asked(end);
        let note = EndNote {
            asked,
            ended: false,
            window: None,
        };
        self.notes.insert(*end, note)?;
        Ok(())
    }

    /// Whether a request has opened an end.
    pub(crate) fn was_asked(&self, end: &Name) -> bool
        ensures { (ms : List books.MadeNote)
            → ((x : set_events.Name) → get set_events.same_name self.now.notes x ≡ made.note_in ms x)
            → result ≡ books.was_asked ms end.now }
    {
        match self.notes.get(end) {
            Some(note) => note.asked,
            None => false,
        }
    }

    /// An end that was opened and its requester become partners.
    fn join(&mut self, end: &Name, requester: Option<Name>) -> Result<(), NoMemory>
        ensures rest { self.new ≡ record self.old { partners = self.new.partners; facing = self.new.facing } }
        ensures partners { OnOk result ((x : set_events.Name) → get set_events.same_name self.new.partners x
            ≡ made.partner_after_joining end.now requester x (get set_events.same_name self.old.partners x)) }
        ensures facing { OnOk result ((x : set_events.Name) → list_in (get set_events.same_name self.new.facing.lists x)
            ≡ made.with_facing end.now requester x (list_in (get set_events.same_name self.old.facing.lists x))) }
    {
        match requester {
            Some(requester) => self.join_both(end, &requester),
            None => Ok(()),
        }
    }

    fn join_both(&mut self, end: &Name, requester: &Name) -> Result<(), NoMemory>
        ensures rest { self.new ≡ record self.old { partners = self.new.partners; facing = self.new.facing } }
        ensures partners { OnOk result ((x : set_events.Name) → get set_events.same_name self.new.partners x
            ≡ made.partner_after_joining end.now (Some requester.now) x
            (get set_events.same_name self.old.partners x)) }
        ensures facing { OnOk result ((x : set_events.Name) → list_in (get set_events.same_name self.new.facing.lists x)
            ≡ made.with_facing end.now (Some requester.now) x
            (list_in (get set_events.same_name self.old.facing.lists x))) }
    {
        self.partners.insert(*end, *requester)?;
        self.partners.insert(*requester, *end)?;
        self.facing.push(*end, *requester)?;
        self.facing.push(*requester, *end)?;
        Ok(())
    }

    /// An end has given notice.
    pub(crate) fn notice(&mut self, end: &Name, notice: &EndNotice)
        ensures { (ms : List books.MadeNote) (lost : List set_events.Name) → made.EndsStand self.old ms lost
            → made.EndsStand self.new (books.with_notice end.now notice.now ms) lost }
    {
        self.note_notice(end, notice);
    }

    fn note_notice(&mut self, end: &Name, notice: &EndNotice)
        ensures rest { self.new ≡ record self.old { notes = self.new.notes } }
        ensures notes { (x : set_events.Name) → get set_events.same_name self.new.notes x
            ≡ cond (set_events.same_name end.now x)
            (made.after_notice_in notice.now (get set_events.same_name self.old.notes x))
            (get set_events.same_name self.old.notes x) }
    {
        if let Some(note) = self.notes.get_mut(end) {
            note.hear(notice);
        }
    }

    /// A restart took an end away.
    pub(crate) fn lose(&mut self, end: Name) -> Result<(), NoMemory>
        ensures { OnOk result ((ms : List books.MadeNote) (lost : List set_events.Name)
            → made.EndsStand self.old ms lost → made.EndsStand self.new ms (end ∷ lost)) }
    {
        self.lost.insert(end)?;
        Ok(())
    }
}

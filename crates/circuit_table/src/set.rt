//! The circuits of a node. Called by `node_core`, and by the laws of `circuit_set`.
ghost use Rattle.std.specs.Prelude.{[], ◌≡◌, ◌≤◌, ◌+◌, ◌<◌, ◌↔◌, ℕ, List, None, Some, true, false, if◌then◌else◌, Option, OnOk, OnErr, IfOk, IsErr, IsErrOf, IsTrue, length, slice_get};
ghost use Rattle.std.specs.Option.{option_copied};
ghost use Rattle.std.specs.Borrow.{Lends, sem};
ghost use Rattle.radio_base.specs.declared.modulus.TheConstants.{COUNT_MAX};

use crate::MAX_ENDS;
use crate::held_ends::HeldEnds;
use crate::loud::Loud;
use crate::refusal::{ConnectRefusal, DiscardRefusal, NoEnd, SetRefusal};
use ax_address::Call;
use circuit_l4::{End, EndConfig, EndFacts, Pair};
use indexmap::IndexMap;
use l3_datagram::{Carrier, Message, Routed, Router};
use radio_base::{COUNT_MAX, Moment, NoMemory};
use std::alloc::Global;
use std::marker::Model;

/// A node's circuits over its router (NET/ROM, Appendix B, level 4): a pure machine, which reads no clock and holds at most 64 ends. Its
/// calls are of three kinds.
///
/// - Inputs, each but `discard` with its moment in milliseconds: `connect`, `connect_for`, `write`, `take`, `close` and `discard` of the
///   user, `tick` of time. They want `drained()`. What comes from neighbours is brought to the router, which `router_mut` lends.
/// - Outputs: `pump`. After each input, and whenever something came to the router, it is called until it answers None: it hands what the
///   ends put out to the router, takes what came up, and tells what happened.
/// - Looks, which change nothing: `facts`, `partner`, `requested`, `end`, `held`, `is_idle`, `drained`, `router`.
///
/// `tick` is called about once a second, since no call tells when something is due. Ends and what they send take memory; once it has
/// answered NoMemory it is spent, and answers that ever after. What each input does stands in `specs/Sets.antt`. Ends are numbered from
/// `first` on, in the order of their making. What becomes of one, whose phases are drawn at `EndPhase`:
///
/// ```text
/// connect / Request
/// Request / Accept  +------+                   +-------+ no message waits; discard
/// ----------------> | open | ----------------> | ended | ------------------------> held no longer
///     told Made     +------+ told how it ends  +-------+     told Gone
/// ```
///
/// In use (`circuit_set_tests`, `a_set_in_use`):
///
/// ```text
/// let mut set = CircuitSet::new(alloc, router, user, config, pair, 1)?;
/// let id = set.connect(&node, now)?; // 1, the number of the new end
/// let made = set.pump(now)?; // Made
/// let sent = set.pump(now)?; // Sent: its Request has gone to the carrier
/// set.router_mut().carrier_mut().bring(&node, &accept)?;
/// let heeded = set.pump(now)?; // Heeded
/// let opened = set.pump(now)?; // a Notice: Opened, with the window
/// let none = set.pump(now)?; // None
/// assert!(rt; set.drained());
/// set.write(id, &message, now)?; // an Info goes out at the next pump
/// ```
#[derive(Drop)]
pub struct CircuitSet<C> {
    pub(crate) router: Router<C>,
    pub(crate) held: HeldEnds,
    /// What the last sending came to, where it came to nothing.
    pub(crate) lost: Option<Routed>,
    pub(crate) spent: bool,
}

impl<C> Model for CircuitSet<C> {
    ghost use Rattle.std.specs.Coded.{codes};
    ghost use Rattle.indexmap.specs.Layout.{hash_map_code};
    ghost use Rattle.circuit_table.specs.CircuitSets.{Circuits};
    ghost use Rattle.circuit_table.specs.contracts.held_ends.HeldEnds.{the_row as held_row};

    ghost Value = { Circuits C };

    ghost coded = { Prim.hlevel (codes, hash_map_code, held_row.coded) };

    ghost view = { λ c. record { router = c.router; held = c.held; lost = c.lost; spent = c.spent } };
}

impl<C: Carrier + Drop> CircuitSet<C> {
    ghost use Rattle.circuit_l4.specs.Opening.{IsConfig};
    ghost use Rattle.circuit_table.specs.Pairs.{IsPair};
    ghost use Rattle.circuit_table.specs.Pumps.{at_rest};
    ghost use Rattle.circuit_table.specs.Sets.{new_set};
    ghost use Rattle.circuit_table.specs.CircuitSets.{IsDrained, SetStands};

    /// A set without ends, of the node of this router. Its circuits are asked for by `user`, the first pair is `pair`, and the
    /// first number `first`: with the greatest one, 2^62 + 1, no end can be made.
    pub fn new(
        alloc: Global,
        router: Router<C>,
        user: Call,
        config: EndConfig,
        pair: Pair,
        first: u64,
    ) -> Result<CircuitSet<C>, NoMemory>
        requires config { IsConfig config }
        requires pair { IsPair pair }
        requires first { 1 ≤ first }
        requires last { first ≤ COUNT_MAX + 1 }
        ensures stands { IfOk result (λ set. SetStands set
            (at_rest (new_set router.own router.ttl user config pair first))) }
        ensures router { IfOk result (λ set. set.router ≡ router) }
        ensures drained { IfOk result IsDrained }
    {
        let own = router.own();
        let ends = IndexMap::with_capacity(alloc, MAX_ENDS)?;
        Ok(CircuitSet {
            router,
            held: HeldEnds {
                alloc,
                own,
                user,
                config,
                next: pair,
                number: first,
                ends,
                loud: Loud::Nobody,
            },
            lost: None,
            spent: false,
        })
    }
}

impl<C: Carrier> CircuitSet<C> {
    ghost use Rattle.route_table.specs.Log.{Item};
    ghost use Rattle.route_table.specs.Held.{StandsFor};
    ghost use Rattle.route_table.specs.Table.{next_hop};
    ghost use Rattle.l3_datagram.specs.contracts.router.Router.{the_row as router_row};
    ghost use Rattle.circuit_table.specs.contracts.set.CircuitSet.{the_row};
    ghost use Rattle.circuit_table.specs.declared.untold.Untold.TheVariants as untold;
    ghost use Rattle.circuit_table.specs.declared.refusal.ConnectRefusal.TheVariants as connect_refusals;
    ghost use Rattle.circuit_table.specs.declared.refusal.SetRefusal.TheVariants as refusals;
    ghost use Rattle.circuit_table.specs.Sets as sets;
    ghost use Rattle.circuit_table.specs.Sets.{SetState};
    ghost use Rattle.circuit_table.specs.Pumps.{Waiting, at_rest, is_drained, connect_answer, ticks};
    ghost use Rattle.circuit_table.specs.Standing.{close_answer, discard_answer, message_at, take_answer, write_answer};
    ghost use Rattle.circuit_table.specs.CircuitSets.{Circuits, SetGoes, GoesBy, IsDrained, IsUnchanged, LentStands, Pumps, SetStands, facts_at, held_by, held_ids, partner_at, requested_at};
    ghost use Rattle.circuit_table.specs.Kept.{KeepsOn};
    ghost use Rattle.circuit_table.specs.SetTurns.{Asks};

    /// Asks for a circuit with a node, and gives the number of the end that is made for it.
    pub fn connect(&mut self, node: &Call, now: Moment) -> Result<u64, ConnectRefusal>
        requires { IsDrained self.old }
        ensures answer { self.new.spent ≡ false → (s : SetState) (log : List Item) → SetStands self.old (at_rest s) →
            StandsFor self.old.router.table log →
            result ≡ connect_answer (next_hop self.old.router.table.rules log) node.now s }
        ensures goes { OnOk result (GoesBy (sets.Connect node.now now.0) self.old self.new) }
        ensures err { OnErr result (self.new.spent ≡ false → self.new ≡ self.old) }
        ensures memory { IsErrOf result connect_refusals.NoMemory ↔ IsTrue self.new.spent }
        ensures spent { IsTrue self.old.spent → self.new ≡ self.old }
        ensures few { length self.new.held.ends.entries ≤ 64 }
        ensures kept { OnOk result (KeepsOn self.old self.new) }
    {
        let user = self.held.user;
        self.connect_for(&user, node, now)
    }

    /// Asks for a circuit with a node in the name of this user, and gives the number of the end that is made for it.
    pub fn connect_for(
        &mut self,
        user: &Call,
        node: &Call,
        now: Moment,
    ) -> Result<u64, ConnectRefusal>
        requires { IsDrained self.old }
        ensures answer { self.new.spent ≡ false → (s : SetState) (log : List Item) → SetStands self.old (at_rest s) →
            StandsFor self.old.router.table log →
            result ≡ connect_answer (next_hop self.old.router.table.rules log) node.now s }
        ensures goes { OnOk result (GoesBy (sets.ConnectFor user.now node.now now.0) self.old self.new) }
        ensures err { OnErr result (self.new.spent ≡ false → self.new ≡ self.old) }
        ensures memory { IsErrOf result connect_refusals.NoMemory ↔ IsTrue self.new.spent }
        ensures spent { IsTrue self.old.spent → self.new ≡ self.old }
        ensures few { length self.new.held.ends.entries ≤ 64 }
        ensures kept { OnOk result (KeepsOn self.old self.new) }
    {
        if self.spent {
            return Err(ConnectRefusal::NoMemory);
        }
        if *node == self.router.own() {
            return Err(ConnectRefusal::Own);
        }
        if self.router.table().next_hop(node).is_none() {
            return Err(ConnectRefusal::NoRoute);
        }
        if self.held.is_full() {
            return Err(ConnectRefusal::Full);
        }
        match self.held.request(user, node, now) {
            Ok(id) => Ok(id),
            Err(NoMemory) => {
                self.spent = true;
                Err(ConnectRefusal::NoMemory)
            }
        }
    }

    /// Whether nothing is untold and nothing lies at the router: `pump` would answer None, and change nothing.
    pub fn is_idle(&self) -> bool
        ensures idle { (w : Waiting) → SetStands self.now w → is_drained w ≡ true →
            C.lost self.now.router.carrier ≡ [] → C.waiting self.now.router.carrier ≡ [] → result ≡ true }
        ensures pumps { result ≡ true → (now : ℕ) → Pumps C.made self.now self.now
            (C.lost self.now.router.carrier) (C.waiting self.now.router.carrier) now None }
        ensures drained { result ≡ true → IsDrained self.now }
    {
        if self.spent || self.lost.is_some() {
            return false;
        }
        if !self.router.is_idle() {
            return false;
        }
        self.held.is_quiet()
    }

    /// Time has passed for all ends.
    pub fn tick(&mut self, now: Moment) -> Result<(), NoMemory>
        requires { IsDrained self.old }
        ensures goes { OnOk result (SetGoes self.old self.new (λ s. ticks now.0 (at_rest s))) }
        ensures memory { IsErr result ↔ IsTrue self.old.spent }
        ensures err { OnErr result (self.new ≡ self.old) }
        ensures unspent { self.new.spent ≡ self.old.spent }
        ensures few { length self.new.held.ends.entries ≤ 64 }
        ensures kept { OnOk result (KeepsOn self.old self.new) }
    {
        if self.spent {
            return Err(NoMemory);
        }
        self.held.tick(now);
        Ok(())
    }

    /// Writes a message for the partner of an end: `NoEnd` where no end of that number is held, else what the end answers. After a
    /// refusal the set stands for what it stood for.
    pub fn write(&mut self, id: u64, message: &[u8], now: Moment) -> Result<(), SetRefusal>
        requires { IsDrained self.old }
        ensures answer { (s : SetState) → SetStands self.old (at_rest s) →
            result ≡ write_answer (sets.end_of id s.ends) message.now }
        ensures goes { OnOk result (GoesBy (sets.Calls id (sets.Writes message.now) now.0) self.old self.new) }
        ensures err { OnErr result (IsUnchanged self.old self.new) }
        ensures memory { IsErrOf result refusals.NoMemory ↔ IsTrue self.old.spent }
        ensures unspent { self.new.spent ≡ self.old.spent }
        ensures spent { IsTrue self.old.spent → self.new ≡ self.old }
        ensures few { length self.new.held.ends.entries ≤ 64 }
        ensures kept { OnOk result (KeepsOn self.old self.new) }
    {
        if self.spent {
            return Err(SetRefusal::NoMemory);
        }
        self.held.write(id, message, now)
    }

    /// Takes the first message that has come to an end; false where none waits or the set is spent, and `out` stays as it was then. A
    /// refusal changes nothing, and nor does a call of a set that is spent.
    pub fn take(&mut self, id: u64, out: &mut Message, now: Moment) -> Result<bool, NoEnd>
        requires { IsDrained self.old }
        ensures answer { (s : SetState) → SetStands self.old (at_rest s) →
            result ≡ take_answer (sets.end_of id s.ends) }
        ensures message { (s : SetState) → SetStands self.old (at_rest s) →
            out.new.items ≡ message_at out.old.items (sets.end_of id s.ends) }
        ensures goes { GoesBy (sets.Calls id sets.Takes now.0) self.old self.new }
        ensures err { OnErr result ((self.new ≡ self.old) × (out.new ≡ out.old)) }
        ensures unspent { self.new.spent ≡ self.old.spent }
        ensures spent { IsTrue self.old.spent →
            (self.new ≡ self.old) × (out.new ≡ out.old) × IfOk result (λ took. took ≡ false) }
        ensures few { length self.new.held.ends.entries ≤ 64 }
        ensures kept { KeepsOn self.old self.new }
    {
        if self.spent {
            self.held.known(id)?;
            return Ok(false);
        }
        self.held.take(id, out, now)
    }

    /// Closes a circuit once all that was written is acknowledged. A refusal changes nothing, and nor does a call of a set that is
    /// spent.
    pub fn close(&mut self, id: u64, now: Moment) -> Result<(), NoEnd>
        requires { IsDrained self.old }
        ensures answer { (s : SetState) → SetStands self.old (at_rest s) →
            result ≡ close_answer (sets.end_of id s.ends) }
        ensures goes { GoesBy (sets.Calls id sets.Closes now.0) self.old self.new }
        ensures err { OnErr result (self.new ≡ self.old) }
        ensures unspent { self.new.spent ≡ self.old.spent }
        ensures spent { IsTrue self.old.spent → self.new ≡ self.old }
        ensures few { length self.new.held.ends.entries ≤ 64 }
        ensures kept { KeepsOn self.old self.new }
    {
        if self.spent {
            return self.held.known(id);
        }
        self.held.close(id, now)
    }

    /// Holds an end that has ended no longer, whatever waits at it. A refusal changes nothing, and nor does a call of a set that is
    /// spent.
    pub fn discard(&mut self, id: u64) -> Result<(), DiscardRefusal>
        requires { IsDrained self.old }
        ensures answer { (s : SetState) → SetStands self.old (at_rest s) →
            result ≡ discard_answer (sets.end_of id s.ends) }
        ensures goes { OnOk result (GoesBy (sets.Discard id) self.old self.new) }
        ensures err { OnErr result (self.new ≡ self.old) }
        ensures unspent { self.new.spent ≡ self.old.spent }
        ensures spent { IsTrue self.old.spent → self.new ≡ self.old }
        ensures few { length self.new.held.ends.entries ≤ 64 }
        ensures kept { OnOk result (KeepsOn self.old self.new) }
    {
        self.held.may_discard(id)?;
        if !self.spent {
            self.held.discard(id);
        }
        Ok(())
    }

    /// What an end tells of itself: None where no end of that number is held.
    pub fn facts(&self, id: u64) -> Option<EndFacts>
        ensures { (w : Waiting) → SetStands self.now w →
            result ≡ facts_at (sets.end_of id (held_by w.untold w.set.ends)) }
    {
        match self.held.ends.get(&id) {
            Some(holder) => Some(holder.end.facts()),
            None => None,
        }
    }

    /// The node of an end's partner.
    pub fn partner(&self, id: u64) -> Option<Call>
        ensures { (w : Waiting) → SetStands self.now w →
            result ≡ partner_at (sets.end_of id (held_by w.untold w.set.ends)) }
    {
        match self.held.ends.get(&id) {
            Some(holder) => Some(holder.at),
            None => None,
        }
    }

    /// Whether the node has asked for an end's circuit; it was asked for it else. None where no end of that number is held.
    pub fn requested(&self, id: u64) -> Option<bool>
        ensures { (w : Waiting) → SetStands self.now w →
            result ≡ requested_at (sets.end_of id (held_by w.untold w.set.ends)) }
    {
        match self.held.ends.get(&id) {
            Some(holder) => Some(holder.asked.is_none()),
            None => None,
        }
    }

    /// The end of a number.
    pub fn end(&self, id: u64) -> Option<&End>
        ensures { (w : Waiting) → SetStands self.now w →
            LentStands (option_copied result) (sets.end_of id (held_by w.untold w.set.ends)) }
    {
        match self.held.ends.get(&id) {
            Some(holder) => Some(&holder.end),
            None => None,
        }
    }

    /// The number of the nth end that is held.
    pub fn held(&self, nth: usize) -> Option<u64>
        ensures { (w : Waiting) → SetStands self.now w →
            result ≡ slice_get (held_ids (held_by w.untold w.set.ends)) nth }
    {
        match self.held.ends.get_index(nth) {
            Some((id, _)) => Some(*id),
            None => None,
        }
    }

    /// Whether nothing waits to be told but what lies at the router. So it is of a set that is spent.
    pub fn drained(&self) -> bool
        ensures exact { (w : Waiting) → SetStands self.now w → result ≡ is_drained w }
        ensures rests { result ≡ true → IsDrained self.now }
        ensures spent { IsTrue self.now.spent → result ≡ true }
    {
        self.spent || (self.lost.is_none() && self.held.is_quiet())
    }

    /// The router.
    pub fn router(&self) -> &Router<C>
        ensures { result.now ≡ self.now.router }
    {
        &self.router
    }

    /// The router, lent to be changed: as it is given back it is the set's router from then on.
    pub fn router_mut(&mut self) -> &mut Router<C>
        ensures value { result.now ≡ self.old.router }
        ensures* writes_back { sem 𝓛 (Lends (the_row C.row) (router_row C.row) self.entry result
            (λ w. record self.old { router = w })) }
    {
        &mut self.router
    }
}

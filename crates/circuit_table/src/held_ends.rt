//! The ends that a node holds, by number. Called by `pump`, `receiving` and `set`.
ghost use Rattle.std.specs.Prelude.{◌≡◌, ◌≤◌, ◌<◌, true, false, List, [], Some, None, length, nat_eq, is_some, if◌then◌else◌, OnOk, IfOk, OnErr, IsErrOf};
ghost use Rattle.std.specs.Map.{lookup, remove_entry};
ghost use Rattle.radio_base.specs.declared.modulus.TheConstants.{COUNT_MAX};
ghost use Rattle.circuit_l4.specs.Opening.{IsConfig};
ghost use Rattle.circuit_table.specs.Sets as sets;
ghost use Rattle.circuit_table.specs.Still.{OthersAreStill, OthersAreStill-prop};

use crate::MAX_ENDS;
use crate::holder::Holder;
use crate::loud::Loud;
use crate::pair_order::{next_free, pair_after};
use crate::refusal::{DiscardRefusal, NoEnd, SetRefusal};
use crate::untold::{Untold, is_last};
use ax_address::Call;
use circuit_l4::{End, EndConfig, Pair};
use indexmap::IndexMap;
use l3_datagram::Message;
use radio_base::{COUNT_MAX, Moment, NoMemory};
use std::alloc::Global;

/// The ends that a node holds, by number, in the order in which they were made.
#[derive(Drop)]
pub(crate) struct HeldEnds {
    pub(crate) alloc: Global,
    /// The node's call.
    pub(crate) own: Call,
    pub(crate) user: Call,
    pub(crate) config: EndConfig,
    /// The pair from which on the next one is looked for.
    pub(crate) next: Pair,
    /// The number of the next end.
    pub(crate) number: u64,
    pub(crate) ends: IndexMap<u64, Holder>,
    /// Which of them may have something to tell, so that not all are looked at for each thing that is told.
    pub(crate) loud: Loud,
    ghost config_fits: { IsConfig config },
    ghost few: { length ends.entries ≤ 64 },
    ghost others: { OthersAreStill loud ends.entries } by { OthersAreStill-prop loud ends.entries },
}

impl HeldEnds {
    ghost use Rattle.circuit_table.specs.Pumps.{is_empty, after_ticks};
    ghost use Rattle.circuit_table.specs.declared.refusal.SetRefusal.TheVariants as refusals;
    ghost use Rattle.circuit_table.specs.Sets.{SetState, CircuitTold};
    ghost use Rattle.circuit_table.specs.Standing.{FirstLoud, Gives, HeldGoes, HasEnded, Holds, RestsAt, TicksNth, HeldStands, NextOf, ToldBy, Rests, FallsBy, untold_in, SameNode, close_answer, discard_answer, message_at, take_answer, write_answer};

    pub(crate) fn new_pair(&self) -> Pair
        ensures { (s : SetState) → HeldStands self.now s [] → result ≡ sets.new_pair s }
    {
        next_free(&self.ends.as_slice(), 255, self.next)
    }

    /// Whether no end can be made.
    pub(crate) fn is_full(&self) -> bool
        ensures exact { (s : SetState) → HeldStands self.now s [] → result ≡ sets.is_full s }
        ensures room { result ≡ false → self.now.number ≤ COUNT_MAX }
        ensures few { result ≡ false → length self.now.ends.entries < 64 }
    {
        self.ends.len() >= MAX_ENDS || self.number > COUNT_MAX
    }

    /// Holds an end that was just made, and gives its number.
    pub(crate) fn hold(&mut self, holder: Holder) -> Result<u64, NoMemory>
        requires number { self.old.number ≤ COUNT_MAX }
        requires few { length self.old.ends.entries < 64 }
        ensures number { IfOk result (λ id. id ≡ self.old.number) }
        ensures holds { OnOk result (Holds holder self.old self.new) }
    {
        let id = self.number;
        let pair = holder.pair;
        let loud = self.loud_at(id);
        self.ends.insert(id, holder)?;
        self.loud = loud;
        self.next = pair_after(pair);
        self.number = id + 1;
        Ok(id)
    }

    /// Makes an end that asks for a circuit with a node, for this user.
    pub(crate) fn request(&mut self, user: &Call, node: &Call, now: Moment) -> Result<u64, NoMemory>
        requires number { self.old.number ≤ COUNT_MAX }
        requires few { length self.old.ends.entries < 64 }
        ensures number { IfOk result (λ id. id ≡ self.old.number) }
        ensures made { OnOk result ((s : SetState) → HeldStands self.old s [] →
            HeldStands self.new (sets.requests_for s user.now node.now now.0).set
            (sets.requests_for s user.now node.now now.0).told) }
    {
        let pair = self.new_pair();
        let end = End::requester(self.alloc, pair, *user, self.own, self.config, now)?;
        let id = self.hold(Holder::requester(end, pair, *node))?;
        Ok(id)
    }

    pub(crate) fn write(&mut self, id: u64, message: &[u8], now: Moment) -> Result<(), SetRefusal>
        requires { Rests self.old.ends.entries }
        ensures answer { (s : SetState) → HeldStands self.old s [] →
            result ≡ write_answer (sets.end_of id s.ends) message.now }
        ensures memory { IsErrOf result refusals.NoMemory → ⊥ }
        ensures same { SameNode self.old self.new }
        ensures err { OnErr result (self.new.ends.entries ≡ self.old.ends.entries) }
        ensures goes { OnOk result (HeldGoes (sets.Calls id (sets.Writes message.now) now.0) self.old self.new) }
    {
        let loud = self.loud_at(id);
        match self.ends.get_mut(&id) {
            Some(holder) => match holder.end.write(message, now) {
                Ok(()) => {
                    self.loud = loud;
                    Ok(())
                }
                Err(refusal) => Err(SetRefusal::Write(refusal)),
            },
            None => Err(SetRefusal::NoEnd),
        }
    }

    pub(crate) fn take(&mut self, id: u64, out: &mut Message, now: Moment) -> Result<bool, NoEnd>
        requires { Rests self.old.ends.entries }
        ensures answer { (s : SetState) → HeldStands self.old s [] → result ≡ take_answer (sets.end_of id s.ends) }
        ensures message { (s : SetState) → HeldStands self.old s [] →
            out.new.items ≡ message_at out.old.items (sets.end_of id s.ends) }
        ensures same { SameNode self.old self.new }
        ensures goes { HeldGoes (sets.Calls id sets.Takes now.0) self.old self.new }
        ensures err { OnErr result ((self.new ≡ self.old) × (out.new ≡ out.old)) }
    {
        let loud = self.loud_at(id);
        match self.ends.get_mut(&id) {
            Some(holder) => {
                let took = holder.take(out, now);
                self.loud = loud.after(id, holder);
                Ok(took)
            }
            None => Err(NoEnd),
        }
    }

    /// Whether an end of this number is held.
    pub(crate) fn known(&self, id: u64) -> Result<(), NoEnd> {
        if self.ends.contains_key(&id) {
            return Ok(());
        }
        Err(NoEnd)
    }

    pub(crate) fn close(&mut self, id: u64, now: Moment) -> Result<(), NoEnd>
        requires { Rests self.old.ends.entries }
        ensures answer { (s : SetState) → HeldStands self.old s [] → result ≡ close_answer (sets.end_of id s.ends) }
        ensures same { SameNode self.old self.new }
        ensures goes { HeldGoes (sets.Calls id sets.Closes now.0) self.old self.new }
        ensures err { OnErr result (self.new ≡ self.old) }
    {
        let loud = self.loud_at(id);
        match self.ends.get_mut(&id) {
            Some(holder) => {
                holder.end.close(now);
                self.loud = loud;
                Ok(())
            }
            None => Err(NoEnd),
        }
    }

    /// Whether the end with a number may be discarded.
    pub(crate) fn may_discard(&self, id: u64) -> Result<(), DiscardRefusal>
        ensures answer { (s : SetState) → HeldStands self.now s [] → result ≡ discard_answer (sets.end_of id s.ends) }
        ensures ended { OnOk result (HasEnded (lookup (nat_eq id) self.now.ends.entries)) }
    {
        match self.ends.get(&id) {
            Some(holder) => {
                if !holder.has_ended() {
                    return Err(DiscardRefusal::NotEnded);
                }
                Ok(())
            }
            None => Err(DiscardRefusal::NoEnd),
        }
    }

    /// Discards the end with a number, which has ended.
    pub(crate) fn discard(&mut self, id: u64)
        requires { HasEnded (lookup (nat_eq id) self.old.ends.entries) }
        ensures same { SameNode self.old self.new }
        ensures goes { HeldGoes (sets.Discard id) self.old self.new }
    {
        let loud = self.loud_at(id);
        if let Some(holder) = self.ends.get_mut(&id) {
            holder.discarded = true;
            self.loud = loud;
        }
    }

    /// Time has passed for the nth end.
    fn tick_nth(&mut self, nth: usize, now: Moment)
        requires { RestsAt nth self.old.ends.entries }
        ensures same { SameNode self.old self.new }
        ensures ticks { TicksNth nth now.0 self.old.ends.entries self.new.ends.entries }
    {
        if let Some(holder) = self.ends.get_index_mut(nth) {
            holder.end.tick(now);
            self.loud = Loud::Any;
        }
    }

    /// Time has passed for all ends.
    pub(crate) fn tick(&mut self, now: Moment)
        requires { Rests self.old.ends.entries }
        ensures same { SameNode self.old self.new }
        ensures goes { (s : SetState) → HeldStands self.old s [] →
            HeldStands self.new (after_ticks now.0 s).set (after_ticks now.0 s).told }
    {
        for nth in 0..self.ends.len() {
            self.tick_nth(nth, now);
        }
        self.look();
    }

    /// Whether no end has anything to tell.
    pub(crate) fn is_quiet(&self) -> bool
        ensures exact { (s : SetState) (told : List CircuitTold) → HeldStands self.now s told → result ≡ is_empty told }
        ensures rests { result ≡ true → Rests self.now.ends.entries }
    {
        self.first_loud().is_none()
    }

    /// What the end with a number tells next, where such an end is held. It is put where it is to stand, here and below, since a
    /// transport is long to move.
    fn told_by(&mut self, id: u64, untold: &mut Option<Untold>)
        requires { untold.old ≡ None }
        ensures told { ToldBy id (lookup (nat_eq id) self.old.ends.entries) untold.new
            self.old.ends.entries self.new.ends.entries }
        ensures same { SameNode self.old self.new }
    {
        let loud = self.loud_at(id);
        match self.ends.get_mut(&id) {
            Some(holder) => {
                holder.next(id, untold);
                self.loud = loud.after(id, holder);
            }
            None => {}
        }
    }

    /// An end that is gone is held no longer.
    fn leave(&mut self, id: u64, gone: bool)
        ensures left { self.new.ends.entries
            ≡ (if gone then remove_entry (nat_eq id) self.old.ends.entries else self.old.ends.entries) }
        ensures same { SameNode self.old self.new }
    {
        if gone {
            let _ = self.ends.shift_remove(&id);
        }
    }

    /// What an end tells next. Once it has told that it is gone it is held no longer.
    fn next_of(&mut self, id: u64, untold: &mut Option<Untold>)
        requires { untold.old ≡ None }
        ensures next { NextOf id (lookup (nat_eq id) self.old.ends.entries) untold.new
            self.old.ends.entries self.new.ends.entries }
        ensures same { SameNode self.old self.new }
    {
        self.told_by(id, untold);
        self.leave(id, is_last(untold));
        // Once the last of several has told all, they aren't looked at any more.
        if let Loud::Any = self.loud {
            self.look();
        }
    }

    /// What the first end that has something to tell tells next, which has this number.
    pub(crate) fn next_from(&mut self, id: u64, untold: &mut Option<Untold>)
        requires first { FirstLoud (Some id) self.old.ends.entries }
        requires none { untold.old ≡ None }
        ensures gives { (s : SetState) (told : List CircuitTold) → HeldStands self.old s told →
            Gives (record { set = s; told = told }) untold.new self.new }
        ensures some { is_some untold.new ≡ true }
        ensures falls { FallsBy untold.new (untold_in self.old.ends.entries) (untold_in self.new.ends.entries) }
        ensures same { SameNode self.old self.new }
    {
        self.next_of(id, untold)
    }

    /// What is told next, of the first end that has something to tell.
    pub(crate) fn next(&mut self, untold: &mut Option<Untold>)
        requires { untold.old ≡ None }
        ensures gives { (s : SetState) (told : List CircuitTold) → HeldStands self.old s told →
            Gives (record { set = s; told = told }) untold.new self.new }
        ensures rests { untold.new ≡ None → Rests self.new.ends.entries }
        ensures falls { FallsBy untold.new (untold_in self.old.ends.entries) (untold_in self.new.ends.entries) }
        ensures same { SameNode self.old self.new }
    {
        match self.first_loud() {
            Some(id) => self.next_from(id, untold),
            None => {}
        }
    }
}

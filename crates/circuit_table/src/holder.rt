//! An end that a node holds. Called by `finding`, `held_ends`, `loud` and `receiving`.
ghost use Rattle.std.specs.Prelude.{◌≡◌, ◌+◌, ◌≤◌, false, ◌||◌, ◌&&◌, not, true, Some, None, ℕ, List, nat_lt, length, is_some, IfSome};
ghost use Rattle.ax_address.specs.Callsign.{Callsign, same_call};
ghost use Rattle.circuit_l4.specs.State.{State, inbox};
ghost use Rattle.circuit_l4.specs.Table as table;
ghost use Rattle.circuit_l4.specs.Standing.{IsDrained, Stands, StandsFor};
ghost use Rattle.circuit_l4.specs.Halves.{first_or};
ghost use Rattle.circuit_table.specs.Sets as sets;
ghost use Rattle.circuit_table.specs.Sets.{CircuitTold};
ghost use Rattle.circuit_table.specs.Pumps.{is_empty};
ghost use Rattle.circuit_table.specs.Standing.{Fits, IsSilent, Keeps, Tells, cost, capped_count, left_at, untold_at};
ghost use Rattle.circuit_table.specs.Still.{IsStill};

use crate::SetEvent;
use crate::untold::Untold;
use ax_address::Call;
use circuit_l4::{End, EndPhase, Pair};
use l3_datagram::Message;
use radio_base::Moment;

/// An end, and what no call of it tells.
#[derive(Drop)]
pub(crate) struct Holder {
    pub(crate) pair: Pair,
    /// The partner's node.
    pub(crate) at: Call,
    /// The pair of the request that opened it; a requester has none.
    pub(crate) asked: Option<Pair>,
    pub(crate) end: End,
    /// How many messages were taken.
    pub(crate) taken: u64,
    /// That it was made is untold.
    pub(crate) unannounced: bool,
    pub(crate) discarded: bool,
}

impl Holder {
    /// A requester's end that was just made.
    pub(crate) fn requester(end: End, pair: Pair, at: Call) -> Holder
        ensures { result ≡ record {
          pair = pair;
          at = at;
          asked = None;
          end = end;
          taken = 0;
          unannounced = true;
          discarded = false;
        } }
    {
        Holder {
            pair,
            at,
            asked: None,
            end,
            taken: 0,
            unannounced: true,
            discarded: false,
        }
    }

    /// A responder's end that was just made, which is told at once.
    pub(crate) fn responder(end: End, pair: Pair, at: Call, asked: Pair) -> Holder
        ensures { result ≡ record {
          pair = pair;
          at = at;
          asked = Some asked;
          end = end;
          taken = 0;
          unannounced = false;
          discarded = false;
        } }
    {
        Holder {
            pair,
            at,
            asked: Some(asked),
            end,
            taken: 0,
            unannounced: false,
            discarded: false,
        }
    }

    pub(crate) fn has_ended(&self) -> bool
        ensures { (x : State) → StandsFor self.now.end x → result ≡ sets.has_ended x.phase }
    {
        matches!(self.end.facts().phase, EndPhase::Ended)
    }

    /// Whether the circuit has ended and no message waits.
    fn is_over(&self) -> bool
        ensures { (x : State) → StandsFor self.now.end x → self.now.taken ≡ capped_count x.receiving.taken →
            result ≡ sets.is_over x }
    {
        let facts = self.end.facts();
        facts.phase == EndPhase::Ended && facts.received == self.taken
    }

    /// Whether it is to be held no longer.
    fn is_gone(&self) -> bool
        ensures { (x : State) → StandsFor self.now.end x → self.now.taken ≡ capped_count x.receiving.taken →
            result ≡ (self.now.discarded || sets.is_over x) }
    {
        self.discarded || self.is_over()
    }

    /// Whether datagrams may still come to it.
    fn is_open(&self) -> bool
        ensures { (x : State) → StandsFor self.now.end x →
            result ≡ (not self.now.discarded && not (sets.has_ended x.phase)) }
    {
        !self.discarded && !self.has_ended()
    }

    /// Whether it is open and a request from this node with this pair has opened it.
    pub(crate) fn is_opened_by(&self, origin: &Call, pair: Pair) -> bool
        ensures { Fits (sets.opened_by origin.now pair) self.now result }
    {
        match self.asked {
            Some(asked) => self.is_open() && asked == pair && self.at == *origin,
            None => false,
        }
    }

    /// Whether it is open and has this pair, and its partner is at this node.
    pub(crate) fn is_named_by(&self, origin: &Call, pair: Pair) -> bool
        ensures { Fits (sets.named_by origin.now pair) self.now result }
    {
        self.pair == pair && self.at == *origin && self.is_open()
    }

    /// Takes the first message.
    pub(crate) fn take(&mut self, out: &mut Message, now: Moment) -> bool
        requires { IsDrained self.old.end }
        ensures does { (x : State) → StandsFor self.old.end x → Stands self.new.end (table.step x table.Take now.0) }
        ensures taken { (x : State) → StandsFor self.old.end x → self.old.taken ≡ capped_count x.receiving.taken →
            self.new.taken ≡ capped_count (table.step x table.Take now.0).end.receiving.taken }
        ensures message { (x : State) → StandsFor self.old.end x →
            out.new.items ≡ first_or out.old.items (inbox x.receiving) }
        ensures answer { (x : State) → StandsFor self.old.end x → result ≡ nat_lt 0 (length (inbox x.receiving)) }
        ensures rest { self.new ≡ record self.old { end = self.new.end; taken = self.new.taken } }
    {
        let took = self.end.take(out, now);
        if took {
            self.taken = self.taken.saturating_add(1);
        }
        took
    }

    /// Whether it has nothing to tell.
    pub(crate) fn is_quiet(&self) -> bool
        ensures silent { IsSilent self.now result }
        ensures drained { result ≡ true → IsDrained self.now.end }
        ensures still { result ≡ true → IsStill self.now }
    {
        if self.unannounced {
            return false;
        }
        self.end.drained() && !self.is_gone()
    }

    /// What it tells next, where it has something to tell: that it was made, what it puts out, its notice, that it is gone, in this
    /// order.
    pub(crate) fn next(&mut self, id: u64, untold: &mut Option<Untold>)
        ensures tells { IfSome untold.new (λ u. (own : Callsign) (ttl : ℕ) (h : sets.Holder) (told : List CircuitTold) →
            Keeps own ttl id self.old h told → is_empty told ≡ false → Tells own ttl id h u self.new told) }
        ensures falls { IfSome untold.new (λ u. cost u + left_at u self.new ≤ untold_at self.old) }
        ensures some { is_some untold.new ≡ true }
    {
        if self.unannounced {
            self.unannounced = false;
            *untold = Some(Untold::Event(SetEvent::Made {
                id,
                pair: self.pair,
                partner: self.at,
                request: None,
            }));
            return;
        }
        if let Some((transport, number)) = self.end.next_out() {
            *untold = Some(Untold::Out {
                id,
                number,
                to: self.at,
                transport,
            });
            return;
        }
        if let Some(notice) = self.end.notice() {
            *untold = Some(Untold::Event(SetEvent::Notice { id, notice }));
            return;
        }
        let facts = self.end.facts();
        *untold = Some(Untold::Event(SetEvent::Gone { id, facts }));
    }
}

//! What comes to the ends of a node: requests, and transports for the ends that they name. Called by `pump`.
ghost use Rattle.std.specs.Prelude.{◌≡◌, ◌≤◌, ◌<◌, true, false, [], Some, None, length, nat_eq, IfOk, OnOk};
ghost use Rattle.std.specs.Map.{lookup};
ghost use Rattle.radio_base.specs.declared.modulus.TheConstants.{COUNT_MAX};
ghost use Rattle.circuit_table.specs.Sets as sets;

use crate::event::SetEvent;
use crate::finding::{named_by, opened_by};
use crate::heeding::heeds;
use crate::held_ends::HeldEnds;
use crate::holder::Holder;
use crate::untold::Untold;
use ax_address::Call;
use circuit_l4::{End, Pair, Transport};
use l3_datagram::Datagram;
use radio_base::{Moment, NoMemory};

impl HeldEnds {
    ghost use Rattle.circuit_table.specs.Sets.{SetState};
    ghost use Rattle.circuit_table.specs.Standing.{Gives, Hands, HeldStands, Rests, Brings, untold_in, SameNode};

    /// Makes an end by a request that came from a node.
    fn respond(
        &mut self,
        origin: Call,
        datagram: Datagram,
        asked: Pair,
        window: u8,
        now: Moment,
    ) -> Result<Untold, NoMemory>
        requires number { self.old.number ≤ COUNT_MAX }
        requires few { length self.old.ends.entries < 64 }
        ensures gives { IfOk result (λ told. (s : SetState) → HeldStands self.old s [] →
            Gives (sets.responds s origin datagram.items asked window now.0) (Some told) self.new) }
        ensures few { IfOk result (λ told. Brings (untold_in self.old.ends.entries) (untold_in self.new.ends.entries)) }
    {
        let pair = self.new_pair();
        let end = End::responder(self.alloc, pair, asked, window, self.config, now)?;
        let id = self.hold(Holder::responder(end, pair, origin, asked))?;
        Ok(Untold::Event(SetEvent::Made {
            id,
            pair,
            partner: origin,
            request: Some(datagram),
        }))
    }

    /// The Accept of an end once more, to the pair that has asked.
    fn accept_again(&self, id: u64, asked: Pair) -> Option<Untold>
        ensures gives { (s : SetState) (h : sets.Holder) → HeldStands self.now s [] → sets.end_of id s.ends ≡ Some h →
            h.gone ≡ false → sets.asked_with h.asked asked ≡ true →
            Gives (sets.goes_to s h [] (sets.accept_again h.end)) result self.now }
    {
        match self.ends.get(&id) {
            Some(holder) => Some(Untold::Out {
                id,
                number: None,
                to: holder.at,
                transport: Transport::Accept {
                    to: asked,
                    own: holder.pair,
                    window: holder.end.facts().window,
                },
            }),
            None => None,
        }
    }

    /// A request that no open end was opened by: it is refused where no end can be made.
    fn requested_anew(
        &mut self,
        origin: Call,
        datagram: Datagram,
        pair: Pair,
        window: u8,
        now: Moment,
    ) -> Result<Untold, NoMemory>
        ensures gives { IfOk result (λ told. (s : SetState) → HeldStands self.old s [] →
            Gives (sets.after_new_request s origin datagram.items pair window now.0) (Some told) self.new) }
        ensures few { IfOk result (λ told. Brings (untold_in self.old.ends.entries) (untold_in self.new.ends.entries)) }
    {
        if self.is_full() {
            return Ok(Untold::Out {
                id: 0,
                number: None,
                to: origin,
                transport: Transport::Refuse { to: pair },
            });
        }
        let made = self.respond(origin, datagram, pair, window, now)?;
        Ok(made)
    }

    /// A request came from a node. Few do, so no other call makes room for what this one needs.
    #[inline(never)]
    fn requested(
        &mut self,
        origin: Call,
        datagram: Datagram,
        pair: Pair,
        window: u8,
        now: Moment,
    ) -> Result<Option<Untold>, NoMemory>
        requires { Rests self.old.ends.entries }
        ensures gives { IfOk result (λ told. (s : SetState) → HeldStands self.old s [] →
            Gives (sets.after_request s origin datagram.items pair window now.0) told self.new) }
        ensures rests { IfOk result (λ told. told ≡ None → Rests self.new.ends.entries) }
        ensures few { IfOk result (λ told. Brings (untold_in self.old.ends.entries) (untold_in self.new.ends.entries)) }
    {
        match opened_by(self.ends.as_slice(), &origin, pair) {
            Some(id) => Ok(self.accept_again(id, pair)),
            None => {
                let told = self.requested_anew(origin, datagram, pair, window, now)?;
                Ok(Some(told))
            }
        }
    }

    /// Hands a transport to the end with a number, and says whether it takes that in.
    fn hand(&mut self, id: u64, transport: &Transport, now: Moment) -> bool
        requires { Rests self.old.ends.entries }
        ensures same { SameNode self.old self.new }
        ensures hands { Hands id (lookup (nat_eq id) self.old.ends.entries) transport.now now.0 result
            self.old.ends.entries self.new.ends.entries }
    {
        let loud = self.loud_at(id);
        match self.ends.get_mut(&id) {
            Some(holder) => {
                let heeded = heeds(holder.end.facts().phase, transport);
                holder.end.arrive(transport, now);
                self.loud = loud.after(id, holder);
                heeded
            }
            None => false,
        }
    }

    /// A transport came for the end with a number.
    fn arrives_at(
        &mut self,
        id: u64,
        datagram: Datagram,
        transport: &Transport,
        now: Moment,
        untold: &mut Option<Untold>,
    )
        requires rests { Rests self.old.ends.entries }
        requires none { untold.old ≡ None }
        ensures same { SameNode self.old self.new }
        ensures gives { (s : SetState) (h : sets.Holder) → HeldStands self.old s [] → sets.end_of id s.ends ≡ Some h →
            h.gone ≡ false → h.id ≡ id →
            Gives (sets.hands_to s h datagram.items transport.now now.0) untold.new self.new }
        ensures rests { untold.new ≡ None → Rests self.new.ends.entries }
        ensures few { Brings (untold_in self.old.ends.entries) (untold_in self.new.ends.entries) }
    {
        if self.hand(id, transport, now) {
            *untold = Some(Untold::Event(SetEvent::Heeded { id, datagram }));
            return;
        }
        self.next(untold)
    }

    /// A transport came from a node for the end with a pair.
    fn arrives(
        &mut self,
        origin: &Call,
        datagram: Datagram,
        to: Pair,
        transport: &Transport,
        now: Moment,
        untold: &mut Option<Untold>,
    )
        requires rests { Rests self.old.ends.entries }
        requires none { untold.old ≡ None }
        ensures same { SameNode self.old self.new }
        ensures gives { (s : SetState) → HeldStands self.old s [] →
            Gives (sets.arrives_at s origin.now datagram.items to transport.now now.0) untold.new self.new }
        ensures rests { untold.new ≡ None → Rests self.new.ends.entries }
        ensures few { Brings (untold_in self.old.ends.entries) (untold_in self.new.ends.entries) }
    {
        match named_by(self.ends.as_slice(), origin, to) {
            Some(id) => self.arrives_at(id, datagram, transport, now, untold),
            None => {}
        }
    }

    /// Takes in what came from a node, and puts what is told first of it where it is to stand.
    pub(crate) fn receive(
        &mut self,
        origin: Call,
        datagram: Datagram,
        transport: &Transport,
        now: Moment,
        untold: &mut Option<Untold>,
    ) -> Result<(), NoMemory>
        requires rests { Rests self.old.ends.entries }
        requires none { untold.old ≡ None }
        ensures gives { OnOk result ((s : SetState) → HeldStands self.old s [] →
            Gives (sets.after_transport s origin datagram.items transport.now now.0) untold.new self.new) }
        ensures rests { OnOk result (untold.new ≡ None → Rests self.new.ends.entries) }
        ensures few { OnOk result (Brings (untold_in self.old.ends.entries) (untold_in self.new.ends.entries)) }
    {
        match transport {
            Transport::Request {
                pair,
                window,
                user: _,
                node: _,
            } => {
                *untold = self.requested(origin, datagram, *pair, *window, now)?;
                Ok(())
            }
            Transport::Accept { to, .. }
            | Transport::Refuse { to }
            | Transport::Disconnect { to }
            | Transport::Disconnected { to }
            | Transport::Info { to, .. }
            | Transport::InfoAck { to, .. } => {
                self.arrives(&origin, datagram, *to, transport, now, untold);
                Ok(())
            }
        }
    }
}

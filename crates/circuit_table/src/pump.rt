//! What the circuits of a node tell, one thing after another: what they put out, and what comes to them by the router. Called by
//! `node_core`.
ghost use Rattle.std.specs.Prelude.{◌≡◌, ◌≤◌, ◌<◌, ◌↔◌, ℕ, None, Some, true, false, if◌then◌else◌, is_some, OnOk, IfOk, IsErr, IsTrue, drop, length};
ghost use Rattle.circuit_table.specs.SetTurns as turns;

use crate::event::SetEvent;
use crate::set::CircuitSet;
use crate::untold::Untold;
use ax_address::Call;
use circuit_l4::{Transport, read_transport, write_transport};
use l3_datagram::{
    Carrier, Datagram, DatagramHead, HEAD_SIZE, Routed, Sending, laws, write_datagram,
};
use radio_base::{Moment, NoMemory};

impl<C: Carrier> CircuitSet<C> {
    ghost use Rattle.l3_datagram.specs.Datagrams.{SpellsDatagram, datagram_with};
    ghost use Rattle.l3_datagram.specs.Routers.{IsFor, MineIsFor, SameRouter, waiting_left};
    ghost use Rattle.circuit_table.specs.declared.untold.Untold.TheVariants as untold;
    ghost use Rattle.circuit_table.specs.Sets.{CircuitTold};
    ghost use Rattle.circuit_table.specs.Standing.{Brings, FirstLoud, Rests, cost, untold_in};
    ghost use Rattle.circuit_table.specs.CircuitSets.{Falls, IsDrained, Pumps};
    ghost use Rattle.circuit_table.specs.Kept.{PumpKeepsOn};
    ghost use Rattle.circuit_table.specs.SetTurns.{Asks, AsksOnce, IsAsked, SameLists, TakesIn, Tells, TellsLost};

    /// Tells what happened next: None where nothing is untold, and nothing that lies at the router gives anything to tell.
    pub fn pump(&mut self, now: Moment) -> Result<Option<SetEvent>, NoMemory>
        ensures pumps { IfOk result (Pumps C.made self.old self.new
            (C.lost self.old.router.carrier) (C.waiting self.old.router.carrier) now.0) }
        ensures drained { IfOk result (λ told. told ≡ None → IsDrained self.new) }
        ensures falls { IfOk result (λ told. is_some told ≡ true → Falls C.lost C.waiting self.old self.new) }
        ensures router { OnOk result (SameRouter self.old.router self.new.router) }
        ensures memory { IsErr result ↔ IsTrue self.new.spent }
        ensures spent { IsTrue self.old.spent → self.new ≡ self.old }
        ensures few { length self.new.held.ends.entries ≤ 64 }
        ensures kept { OnOk result (PumpKeepsOn self.old self.new) }
    {
        if self.spent {
            return Err(NoMemory);
        }
        let mut told = None;
        let done = self.go_on(now, &mut told);
        self.spent = done.is_err();
        done?;
        Ok(told)
    }

    /// Tells what is untold, or else what comes of what lies at the router. What is told is put where it is to stand, here and below,
    /// since an event is long to move. Most calls find nothing untold, so that is looked at first, and no room is made for it.
    fn go_on(&mut self, now: Moment, told: &mut Option<SetEvent>) -> Result<(), NoMemory>
        requires { told.old ≡ None }
        ensures pumps { OnOk result (Pumps C.made self.old self.new
            (C.lost self.old.router.carrier) (C.waiting self.old.router.carrier) now.0 told.new) }
        ensures drained { OnOk result (told.new ≡ None → Rests self.new.held.ends.entries × (self.new.lost ≡ None)) }
        ensures falls { OnOk result (is_some told.new ≡ true → Falls C.lost C.waiting self.old self.new) }
        ensures router { OnOk result (SameRouter self.old.router self.new.router) }
        ensures spent { OnOk result (self.new.spent ≡ self.old.spent) }
    {
        if self.lost.is_some() {
            self.tell_lost(told);
            return Ok(());
        }
        match self.held.first_loud() {
            Some(id) => self.tell_next(id, now, told),
            None => self.ask_router(now, told),
        }
    }

    /// Tells what the last sending came to.
    #[inline(never)]
    fn tell_lost(&mut self, told: &mut Option<SetEvent>)
        requires { is_some self.old.lost ≡ true }
        ensures pumps { (now : ℕ) → Pumps C.made self.old self.new
            (C.lost self.old.router.carrier) (C.waiting self.old.router.carrier) now told.new }
        ensures told { is_some told.new ≡ true }
        ensures falls { Falls C.lost C.waiting self.old self.new }
        ensures router { self.new.router ≡ self.old.router }
        ensures spent { self.new.spent ≡ self.old.spent }
    {
        if let Some(routed) = self.lost.take() {
            *told = Some(SetEvent::Dropped(routed));
        }
    }

    /// Tells what the first end that has something to tell tells next, which has this number.
    #[inline(never)]
    fn tell_next(
        &mut self,
        id: u64,
        now: Moment,
        told: &mut Option<SetEvent>,
    ) -> Result<(), NoMemory>
        requires first { FirstLoud (Some id) self.old.held.ends.entries }
        requires lost { self.old.lost ≡ None }
        ensures pumps { OnOk result (Pumps C.made self.old self.new
            (C.lost self.old.router.carrier) (C.waiting self.old.router.carrier) now.0 told.new) }
        ensures drained { OnOk result (told.new ≡ None → Rests self.new.held.ends.entries × (self.new.lost ≡ None)) }
        ensures falls { OnOk result (is_some told.new ≡ true → Falls C.lost C.waiting self.old self.new) }
        ensures router { OnOk result (SameRouter self.old.router self.new.router) }
        ensures spent { OnOk result (self.new.spent ≡ self.old.spent) }
    {
        let mut untold = None;
        self.held.next_from(id, &mut untold);
        match untold {
            Some(untold) => self.tell(untold, now, told),
            None => unreachable!(),
        }
    }

    /// Tells what is to be told next, and sends what is to be sent.
    fn tell(
        &mut self,
        untold: Untold,
        now: Moment,
        told: &mut Option<SetEvent>,
    ) -> Result<(), NoMemory>
        requires { self.old.lost ≡ None }
        ensures tells { OnOk result (Tells C.made self.old self.new untold now.0 told.new) }
        ensures told { OnOk result (is_some told.new ≡ true) }
        ensures cost { OnOk result ((if is_some self.new.lost then 1 else 0) < cost untold) }
        ensures lists { OnOk result (SameLists C.lost C.waiting self.old self.new) }
        ensures held { self.new.held ≡ self.old.held }
    {
        match untold {
            Untold::Event(event) => {
                *told = Some(event);
                Ok(())
            }
            Untold::Out {
                id,
                number,
                to,
                transport,
            } => self.send(id, number, &to, &transport, now, told),
        }
    }

    /// Sends a transport to a node. What that came to is told next, where it came to nothing.
    fn send(
        &mut self,
        id: u64,
        number: Option<u64>,
        to: &Call,
        transport: &Transport,
        now: Moment,
        told: &mut Option<SetEvent>,
    ) -> Result<(), NoMemory>
        ensures tells { OnOk result (Tells C.made self.old self.new
            (untold.Out id number to.now transport.now) now.0 told.new) }
        ensures told { OnOk result (is_some told.new ≡ true) }
        ensures lists { OnOk result (SameLists C.lost C.waiting self.old self.new) }
        ensures held { self.new.held ≡ self.old.held }
    {
        // By the laws of the spelling the datagram is read as it was written.
        laws::datagram_spelling();
        let octets = write_transport(transport);
        let sending = self.router.send(to, octets.as_slice(), now)?;
        self.lost = came_to_nothing(sending);
        let datagram = self.datagram(to, octets.as_slice());
        *told = Some(SetEvent::Sent {
            id,
            number,
            datagram,
        });
        Ok(())
    }

    /// The datagram in which a transport goes to a node.
    fn datagram(&self, to: &Call, transport: &[u8]) -> Datagram
        requires { length transport.now ≤ 241 }
        ensures exact { result ≡ datagram_with
            (record { origin = self.now.router.own; dest = to.now; ttl = self.now.router.ttl }) transport.now }
        ensures spelled { SpellsDatagram
            (record { origin = self.now.router.own; dest = to.now; ttl = self.now.router.ttl })
            transport.now result.items }
    {
        let head = DatagramHead {
            origin: self.router.own(),
            dest: *to,
            ttl: self.router.ttl(),
        };
        write_datagram(&head, transport).unwrap_or_default()
    }

    /// Asks the router until it has brought something to tell, or has nothing more.
    #[inline(never)]
    fn ask_router(&mut self, now: Moment, told: &mut Option<SetEvent>) -> Result<(), NoMemory>
        requires rests { Rests self.old.held.ends.entries }
        requires lost { self.old.lost ≡ None }
        requires none { told.old ≡ None }
        ensures asks { OnOk result (Asks C.made self.old self.new
            (C.lost self.old.router.carrier) (C.waiting self.old.router.carrier) now.0 told.new) }
        ensures drained { OnOk result (told.new ≡ None → Rests self.new.held.ends.entries × (self.new.lost ≡ None)) }
        ensures falls { OnOk result (is_some told.new ≡ true → Falls C.lost C.waiting self.old self.new) }
        ensures router { OnOk result (SameRouter self.old.router self.new.router) }
        ensures spent { OnOk result (self.new.spent ≡ self.old.spent) }
    {
        while self.ask_once(now, told)? {
            if told.is_some() {
                return Ok(());
            }
        }
        Ok(())
    }

    /// Asks the router for one lost neighbour, or else for one datagram. Whether either lay there.
    fn ask_once(&mut self, now: Moment, told: &mut Option<SetEvent>) -> Result<bool, NoMemory>
        requires rests { Rests self.old.held.ends.entries }
        requires lost { self.old.lost ≡ None }
        requires none { told.old ≡ None }
        ensures asks { OnOk result (AsksOnce C.made self.old self.new
            (C.lost self.old.router.carrier) (C.waiting self.old.router.carrier) now.0 told.new) }
        ensures asked { IfOk result (λ asked. IsAsked (C.lost self.old.router.carrier)
            (C.waiting self.old.router.carrier) told.new asked) }
        ensures rests { OnOk result (told.new ≡ None → Rests self.new.held.ends.entries × (self.new.lost ≡ None)) }
        ensures falls { IfOk result (λ asked. asked ≡ true → Falls C.lost C.waiting self.old self.new) }
        ensures idle { IfOk result (λ asked. asked ≡ false → told.new ≡ None) }
        ensures lost { OnOk result (C.lost self.new.router.carrier ≡ drop 1 (C.lost self.old.router.carrier)) }
        ensures waiting { OnOk result (C.waiting self.new.router.carrier
            ≡ waiting_left (C.lost self.old.router.carrier) (C.waiting self.old.router.carrier)) }
        ensures router { OnOk result (SameRouter self.old.router self.new.router) }
        ensures spent { OnOk result (self.new.spent ≡ self.old.spent) }
    {
        // So it mostly is once something was taken, and then no room is made for what the router could bring.
        if self.router.is_idle() {
            return Ok(false);
        }
        match self.router.pump(now)? {
            Some(routed) => {
                self.take_in(routed, now, told)?;
                Ok(true)
            }
            None => Ok(false),
        }
    }

    /// Takes in what the router has answered, and tells the first thing that it brings.
    fn take_in(
        &mut self,
        routed: Routed,
        now: Moment,
        told: &mut Option<SetEvent>,
    ) -> Result<(), NoMemory>
        requires mine { MineIsFor self.old.router.own routed }
        requires rests { Rests self.old.held.ends.entries }
        requires lost { self.old.lost ≡ None }
        requires none { told.old ≡ None }
        ensures takes { OnOk result (TakesIn C.made self.old self.new routed now.0 told.new) }
        ensures loud { OnOk result (TellsLost routed told.new) }
        ensures rests { OnOk result (told.new ≡ None → Rests self.new.held.ends.entries × (self.new.lost ≡ None)) }
        ensures few { OnOk result (Brings (untold_in self.old.held.ends.entries)
            (untold_in self.new.held.ends.entries)) }
        ensures lists { OnOk result (SameLists C.lost C.waiting self.old self.new) }
    {
        match routed {
            Routed::Mine { origin, datagram } => self.hand_up(origin, datagram, now, told),
            Routed::Forwarded => Ok(()),
            Routed::Lost(neighbour) => {
                *told = Some(SetEvent::Lost(neighbour));
                Ok(())
            }
            other => {
                *told = Some(SetEvent::Dropped(other));
                Ok(())
            }
        }
    }

    /// Takes in a datagram for this node.
    #[inline(never)]
    fn hand_up(
        &mut self,
        origin: Call,
        datagram: Datagram,
        now: Moment,
        told: &mut Option<SetEvent>,
    ) -> Result<(), NoMemory>
        requires mine { IsFor self.old.router.own origin datagram }
        requires rests { Rests self.old.held.ends.entries }
        requires lost { self.old.lost ≡ None }
        requires none { told.old ≡ None }
        ensures takes { OnOk result (TakesIn C.made self.old self.new (Routed.Mine origin datagram) now.0 told.new) }
        ensures rests { OnOk result (told.new ≡ None → Rests self.new.held.ends.entries × (self.new.lost ≡ None)) }
        ensures few { OnOk result (Brings (untold_in self.old.held.ends.entries)
            (untold_in self.new.held.ends.entries)) }
        ensures lists { OnOk result (SameLists C.lost C.waiting self.old self.new) }
    {
        let transport = match read_transport(&datagram.as_slice()[HEAD_SIZE..]) {
            Ok(transport) => transport,
            Err(_) => return Ok(()),
        };
        let mut untold = None;
        self.held
            .receive(origin, datagram, &transport, now, &mut untold)?;
        match untold {
            Some(untold) => self.tell(untold, now, told),
            None => Ok(()),
        }
    }
}

/// What is told after a sending that came to nothing.
fn came_to_nothing(sending: Sending) -> Option<Routed>
    ensures { result ≡ turns.came_to_nothing sending }
{
    match sending {
        Sending::Sent => None,
        Sending::NoRoute => Some(Routed::NoRoute),
        Sending::Dropped => Some(Routed::Dropped),
    }
}

//! The book of what was told, by which each event is judged and in which it is noted. Called by `cause` and `verdict`.
ghost use Rattle.std.specs.Prelude.{◌≡◌, ◌+◌, ◌&&◌, OnOk, IfOk, ℕ, List, Option, Some, None, []};
ghost use Rattle.std.specs.Option.{option_copied};
ghost use Rattle.l3_datagram.specs.Datagrams.{head_at};
ghost use Rattle.circuit_l4.specs.Transports.{pair_at};
ghost use Rattle.circuit_set.specs.Books as books;
ghost use Rattle.circuit_set.specs.NotedRuns.{allowance};
ghost use Rattle.circuit_table.specs.Events as set_events;
ghost use Rattle.circuit_table.specs.Sets as sets;
ghost use Rattle.ax_address.specs.Callsign.{Callsign};
ghost use Rattle.circuit_verdict.specs.Verdicts.{event_of};
ghost use Rattle.circuit_verdict.specs.Judging as judged;
ghost use Rattle.circuit_verdict.specs.ByBook.{allowance_of};

use crate::allowance::Allowance;
use crate::circuit_told::CircuitTold;
use crate::ends::Ends;
use crate::event::Event;
use crate::late::LateWhy;
use crate::names::Name;
use crate::sendings::{Sending, Sendings};
use ax_address::Call;
use circuit_l4::Pair;
use l3_datagram::{HEAD_SIZE, read_datagram};
use radio_base::NoMemory;
use std::alloc::Global;

/// What was told so far.
#[derive(Drop)]
pub(crate) struct Book {
    /// How many events there were: the place of the next one.
    pub(crate) places: u64,
    pub(crate) ends: Ends,
    pub(crate) sendings: Sendings,
}

impl Book {
    pub(crate) fn new(alloc: Global) -> Book
        ensures { judged.BookStands result books.empty [] }
    {
        Book {
            places: 0,
            ends: Ends::new(alloc),
            sendings: Sendings::new(alloc),
        }
    }

    /// Judges an event by those before it, and notes it where it isn't too late. There is no memory for 2^64 events.
    pub(crate) fn take_in(
        &mut self,
        event: &Event<'_>,
        allowance: Allowance,
    ) -> Result<Option<LateWhy>, NoMemory>
        ensures { IfOk result (λ why. (b : books.Book) (lost : List set_events.Name) → judged.BookStands self.old b lost
            → judged.Judges allowance b lost (event_of event.now) why self.new × (self.new.places ≡ b.places + 1)) }
    {
        let next = self.places.checked_add(1).ok_or(NoMemory)?;
        let why = self.judge(event, allowance)?;
        self.places = next;
        Ok(why)
    }

    fn judge(
        &mut self,
        event: &Event<'_>,
        allowance: Allowance,
    ) -> Result<Option<LateWhy>, NoMemory>
        ensures { IfOk result (λ why. (b : books.Book) (lost : List set_events.Name) → judged.BookStands self.old b lost
            → judged.Judges allowance b lost (event_of event.now) why self.new) }
    {
        let node = event.node;
        match event.told {
            CircuitTold::Made {
                id,
                pair,
                request,
                ..
            } => self.made(&Name { node, id }, &event.own, &pair, request),
            CircuitTold::Sent {
                id,
                number,
                datagram,
            } => {
                let place = self.places;
                let sending = Sending { place, number };
                self.sendings.send(&Name { node, id }, datagram, sending)?;
                Ok(None)
            }
            CircuitTold::Heeded { id, datagram } => self.heeded(
                &Name { node, id },
                datagram,
                allowance,
            ),
            CircuitTold::Notice { id, notice } => {
                self.ends.notice(&Name { node, id }, &notice);
                Ok(None)
            }
            CircuitTold::Lost { id, .. } => {
                self.ends.lose(Name { node, id })?;
                Ok(None)
            }
            CircuitTold::Gone { .. } => Ok(None),
            CircuitTold::Restarted { .. } => Ok(None),
        }
    }

    fn made(
        &mut self,
        end: &Name,
        own: &Call,
        pair: &Pair,
        request: Option<&[u8]>,
    ) -> Result<Option<LateWhy>, NoMemory>
        ensures { IfOk result (λ why. (b : books.Book) (lost : List set_events.Name) → judged.PartsStand self.old b lost
            → (partner : Callsign)
            → judged.JudgesMade b lost
            (record {
              node = end.now.node;
              own = own.now;
              told = sets.Made end.now.id pair.now partner (option_copied request.entry);
            }) why self.new) }
    {
        let asked = request.is_some();
        let requester = self.requester(request)?;
        if lacks_requester(asked, &requester) {
            return Ok(Some(LateWhy::Returned));
        }
        if self.ends.is_faced(end.node(), pair) {
            return Ok(Some(LateWhy::Returned));
        }
        self.ends.make(*end, own, pair, requester)?;
        Ok(None)
    }

    /// The end whose request this datagram is, where it has no partner yet.
    pub(crate) fn requester(&self, request: Option<&[u8]>) -> Result<Option<Name>, NoMemory>
        ensures { IfOk result (λ found. (b : books.Book) (lost : List set_events.Name)
            → judged.PartsStand self.now b lost
            → found ≡ books.requester b (option_copied request.entry)) }
    {
        match request {
            Some(datagram) => self.asked_by(datagram),
            None => Ok(None),
        }
    }

    fn asked_by(&self, datagram: &[u8]) -> Result<Option<Name>, NoMemory>
        ensures { IfOk result (λ found. (b : books.Book) (lost : List set_events.Name)
            → judged.PartsStand self.now b lost
            → found ≡ books.asked_by b datagram.now (head_at datagram.now)) }
    {
        let Ok(head) = read_datagram(datagram) else {
            return Ok(None);
        };
        let pair = pair_of(&datagram[HEAD_SIZE..]);
        match self.ends.made_last(&head.origin, &pair) {
            Some(end) => self.unless_joined(end, datagram),
            None => Ok(None),
        }
    }

    /// The end, where it has sent a copy of this and has no partner yet.
    fn unless_joined(&self, end: Name, datagram: &[u8]) -> Result<Option<Name>, NoMemory>
        ensures { IfOk result (λ found. (b : books.Book) (lost : List set_events.Name)
            → judged.PartsStand self.now b lost
            → found ≡ books.if_asked b datagram.now (Some end)) }
    {
        if self.ends.partner(&end).is_some() {
            return Ok(None);
        }
        match self.sendings.latest(&end, datagram)? {
            Some(_) => Ok(Some(end)),
            None => Ok(None),
        }
    }

    fn heeded(
        &mut self,
        end: &Name,
        datagram: &[u8],
        allowance: Allowance,
    ) -> Result<Option<LateWhy>, NoMemory>
        ensures { IfOk result (λ why. (b : books.Book) (lost : List set_events.Name) → judged.PartsStand self.old b lost
            → (own : Callsign)
            → judged.JudgesHeeded allowance b lost
            (record { node = end.now.node; own = own; told = sets.Heeded end.now.id datagram.now }) why self.new) }
    {
        match self.ends.partner(end) {
            Some(partner) => self.heeded_from(end, &partner, datagram, allowance),
            None => Ok(Some(LateWhy::Overtaken)),
        }
    }

    /// An end has heeded a datagram of its partner.
    fn heeded_from(
        &mut self,
        end: &Name,
        partner: &Name,
        datagram: &[u8],
        allowance: Allowance,
    ) -> Result<Option<LateWhy>, NoMemory>
        ensures { IfOk result (λ why. (b : books.Book) (lost : List set_events.Name) → judged.PartsStand self.old b lost
            → books.partner b end.now ≡ Some partner.now → (own : Callsign)
            → judged.JudgesHeeded allowance b lost
            (record { node = end.now.node; own = own; told = sets.Heeded end.now.id datagram.now }) why self.new) }
    {
        let Some(latest) = self.sendings.latest(partner, datagram)? else {
            return Ok(Some(LateWhy::Overtaken));
        };
        let overtakers = self.sendings.overtakers(partner, end, latest.place);
        if overtakers as u64 >= self.allowed(end, partner, allowance) {
            return Ok(Some(LateWhy::Overtaken));
        }
        self.hear(end, latest.number)?;
        Ok(None)
    }

    fn hear(&mut self, end: &Name, number: Option<u64>) -> Result<(), NoMemory>
        ensures { OnOk result ((b : books.Book) (lost : List set_events.Name) → judged.PartsStand self.old b lost
            → judged.PartsStand self.new (record b { heard = books.heard_number end.now number b.heard }) lost) }
    {
        match number {
            Some(number) => self.sendings.hear(end, number),
            None => Ok(()),
        }
    }

    /// How many overtakers are too many at an end with this partner.
    pub(crate) fn allowed(&self, end: &Name, partner: &Name, allowance: Allowance) -> u64
        ensures { (b : books.Book) (lost : List set_events.Name) → judged.PartsStand self.now b lost
            → books.partner b end.now ≡ Some partner.now
            → result ≡ allowance_of allowance b end.now }
    {
        match allowance {
            Allowance::Fixed => 128,
            Allowance::OfWindow => self.by_window(end, partner),
        }
    }

    /// The allowance by the window of the end of the two that a request has opened.
    fn by_window(&self, end: &Name, partner: &Name) -> u64
        ensures { (b : books.Book) (lost : List set_events.Name) → judged.PartsStand self.now b lost
            → books.partner b end.now ≡ Some partner.now
            → result ≡ allowance_of Allowance.OfWindow b end.now }
    {
        if self.ends.was_asked(end) {
            allowance_by(self.ends.window(end))
        } else {
            allowance_by(self.ends.window(partner))
        }
    }
}

/// Whether an end was opened by a request, and nobody has asked for it.
pub(crate) fn lacks_requester(asked: bool, requester: &Option<Name>) -> bool
    ensures { result ≡ asked && books.is_unknown requester.now }
{
    asked && requester.is_none()
}

/// How many overtakers are too many on a circuit of this window.
fn allowance_by(window: Option<u8>) -> u64
    ensures { result ≡ allowance window }
{
    match window {
        Some(window) => 256u64.saturating_sub(2 * window as u64),
        None => 0,
    }
}

/// The pair in the first two octets of a transport, where missing octets count as 0.
fn pair_of(transport: &[u8]) -> Pair
    ensures { result ≡ pair_at 0 transport.now }
{
    Pair {
        index: transport.first().copied().unwrap_or(0),
        ident: transport.get(1).copied().unwrap_or(0),
    }
}

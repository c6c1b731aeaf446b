//! By what it shows that an event comes too late. Called by `verdict`.
ghost use Rattle.std.specs.Prelude.{◌≡◌, IfOk, List, Some};
ghost use Rattle.std.specs.Option.{option_copied};
ghost use Rattle.circuit_set.specs.Books as books;
ghost use Rattle.circuit_table.specs.Events as events;
ghost use Rattle.circuit_verdict.specs.Causes as causes;
ghost use Rattle.circuit_verdict.specs.Verdicts.{told_in_run};
ghost use Rattle.circuit_verdict.specs.Judging as judged;

use crate::allowance::Allowance;
use crate::book::{Book, lacks_requester};
use crate::circuit_told::CircuitTold;
use crate::event::Event;
use crate::names::Name;
use circuit_l4::Pair;
use radio_base::NoMemory;

/// By what it shows that an event comes too late. A node is named by its place among the nodes, an event by its place among those that
/// were told, each from 0.
#[derive(Clone, Copy, Debug, PartialEq, Eq)]
pub enum Cause {
    /// The end that has heeded the datagram has no partner, or one that never sent it.
    Unsent,
    /// So many messages of the circuit were first sent after the latest sending of the datagram, and were heeded before it; `allowance`
    /// are too many.
    Overtaken {
        sent: u64,
        overtakers: u64,
        allowance: u64,
    },
    /// A request has opened the end, and no end that has no partner yet has sent it.
    Unasked,
    /// This end of another node, neither ended nor lost, still has a partner with the pair.
    Held {
        node: u64,
        id: u64,
    },
}

impl Book {
    /// By what an event comes too late, judged by those before it: none where it doesn't.
    pub(crate) fn cause(
        &self,
        event: &Event<'_>,
        allowance: Allowance,
    ) -> Result<Option<Cause>, NoMemory>
        ensures { IfOk result (λ cause. (b : books.Book) (lost : List events.Name) → judged.BookStands self.now b lost
            → cause ≡ causes.cause_told allowance b lost event.now.node (told_in_run event.now.told)) }
    {
        let node = event.node;
        match event.told {
            CircuitTold::Made { pair, request, .. } => self.cause_at_making(node, &pair, request),
            CircuitTold::Heeded { id, datagram } => {
                self.cause_at_heeding(&Name { node, id }, datagram, allowance)
            }
            CircuitTold::Sent { .. }
            | CircuitTold::Notice { .. }
            | CircuitTold::Gone { .. }
            | CircuitTold::Restarted { .. }
            | CircuitTold::Lost { .. } => Ok(None),
        }
    }

    fn cause_at_making(
        &self,
        node: u64,
        pair: &Pair,
        request: Option<&[u8]>,
    ) -> Result<Option<Cause>, NoMemory>
        ensures { IfOk result (λ cause. (b : books.Book) (lost : List events.Name) → judged.PartsStand self.now b lost
            → cause ≡ causes.made_cause b lost node pair.now (option_copied request.entry)) }
    {
        let asked = request.is_some();
        let requester = self.requester(request)?;
        if lacks_requester(asked, &requester) {
            return Ok(Some(Cause::Unasked));
        }
        match self.ends.holder(node, pair) {
            Some(Name { node, id }) => Ok(Some(Cause::Held { node, id })),
            None => Ok(None),
        }
    }

    fn cause_at_heeding(
        &self,
        end: &Name,
        datagram: &[u8],
        allowance: Allowance,
    ) -> Result<Option<Cause>, NoMemory>
        ensures { IfOk result (λ cause. (b : books.Book) (lost : List events.Name) → judged.PartsStand self.now b lost
            → cause ≡ causes.heeded_cause allowance b end.now datagram.now (books.partner b end.now)) }
    {
        match self.ends.partner(end) {
            Some(partner) => self.cause_of_copy(end, &partner, datagram, allowance),
            None => Ok(Some(Cause::Unsent)),
        }
    }

    /// By what a datagram of its partner comes too late to an end.
    fn cause_of_copy(
        &self,
        end: &Name,
        partner: &Name,
        datagram: &[u8],
        allowance: Allowance,
    ) -> Result<Option<Cause>, NoMemory>
        ensures { IfOk result (λ cause. (b : books.Book) (lost : List events.Name) → judged.PartsStand self.now b lost
            → books.partner b end.now ≡ Some partner.now
            → cause ≡ causes.overtaken_cause allowance b end.now partner.now
            (books.latest_in b.sent partner.now datagram.now)) }
    {
        let Some(latest) = self.sendings.latest(partner, datagram)? else {
            return Ok(Some(Cause::Unsent));
        };
        let sent = latest.place;
        let overtakers = self.sendings.overtakers(partner, end, sent) as u64;
        let allowance = self.allowed(end, partner, allowance);
        if overtakers >= allowance {
            Ok(Some(Cause::Overtaken {
                sent,
                overtakers,
                allowance,
            }))
        } else {
            Ok(None)
        }
    }
}

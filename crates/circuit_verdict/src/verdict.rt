//! The verdict on a list of events. Called by the replay.
ghost use Rattle.std.specs.Prelude.{◌≡◌, ◌↔◌, ◌++◌, ◌∷◌, [], List, Option, Some, None, Err, OnOk, OnErr, IfOk};
ghost use Rattle.circuit_verdict.specs.declared.cause.Cause.{Cause as SeenCause};
ghost use Rattle.circuit_verdict.specs.declared.event.Numbered.{Numbered as SeenNumbered};
ghost use Rattle.circuit_verdict.specs.Verdicts.{IsVerdict, late_of};
ghost use Rattle.circuit_verdict.specs.Standing.{allowance_in};

use crate::allowance::Allowance;
use crate::book::Book;
use crate::cause::Cause;
use crate::event::{Event, Numbered};
use crate::late::{Late, LateWhy};
use crate::laws::causes_show;
use circuit_set::laws;
use radio_base::NoMemory;
use std::alloc::Global;

/// The verdict on the events so far (this project's profile): a pure machine, which reads no stream. Its calls are of two kinds.
///
/// - Inputs: `heed` of the next event, with the number of the line that brought it.
/// - Looks, which change nothing: `late`, and `cause` of an event that isn't taken in.
///
/// `too_late` does this for a whole list. Memory is taken as events come; once `heed` has answered NoMemory it is spent, and answers that
/// ever after. What "too late" means stands in `circuit_set`, in `specs/TooLate.antt`.
///
/// In use (`circuit_set_tests`, `a_verdict_in_use`):
///
/// ```text
/// let mut verdict = Verdict::new(alloc, Allowance::OfWindow);
/// verdict.heed(&made, 1)?; // an end of N0AAA, which
/// verdict.heed(&sent, 2)?; // has sent its Request
/// let in_time = verdict.cause(&opened)?; // None: the Request opens an end of N0BBB
/// verdict.heed(&opened, 3)?;
/// let none = verdict.late(); // None
/// let why = verdict.cause(&heeded)?; // Unsent: N0BBB's end has sent nothing yet
/// verdict.heed(&heeded, 4)?; // and N0AAA's has heeded it
/// let late = verdict.late(); // line 4, Overtaken
/// ```
#[derive(Drop)]
pub struct Verdict {
    allowance: Allowance,
    book: Book,
    late: Option<Late>,
    spent: bool,
}

impl Verdict {
    ghost use Rattle.circuit_verdict.specs.Causes.{Shows, cause_after};
    ghost use Rattle.circuit_verdict.specs.Verdicts.{AreInTime, allows_of, event_of, events_of};
    ghost use Rattle.circuit_verdict.specs.Standing.{IsSpent, StandsFor};

    /// No event was told yet.
    pub fn new(alloc: Global, allowance: Allowance) -> Verdict
        ensures start { StandsFor result [] }
        ensures allowance { allowance_in result ≡ allowance }
    {
        Verdict {
            allowance,
            book: Book::new(alloc),
            late: None,
            spent: false,
        }
    }

    /// Takes the next event in, which a line of this number has brought. After NoMemory each later call answers it.
    pub fn heed(&mut self, event: &Event<'_>, line: u32) -> Result<(), NoMemory>
        ensures goes_on { OnOk result ((events : List SeenNumbered) → StandsFor self.old events
            → StandsFor self.new (events ++ record { line = line; event = event.now } ∷ [])) }
        ensures same { allowance_in self.new ≡ allowance_in self.old }
        ensures spent { OnErr result (IsSpent self.new) }
        ensures stays { IsSpent self.old → (result ≡ Err (record {})) × IsSpent self.new }
    {
        if self.spent {
            return Err(NoMemory);
        }
        if self.late.is_some() {
            return Ok(());
        }
        let judged = self.book.take_in(event, self.allowance);
        self.spent = judged.is_err();
        self.late = late_at(line, judged?);
        Ok(())
    }

    /// By what an event would come too late behind those so far, none of which did: none exactly where it wouldn't. It isn't taken in.
    pub fn cause(&self, event: &Event<'_>) -> Result<Option<Cause>, NoMemory>
        ensures exact { IfOk result (λ cause. (events : List SeenNumbered) → StandsFor self.now events
            → AreInTime (allowance_in self.now) (events_of events)
            → cause ≡ cause_after (allowance_in self.now) (events_of events) (event_of event.now)) }
        ensures none { IfOk result (λ cause. (events : List SeenNumbered) → StandsFor self.now events
            → AreInTime (allowance_in self.now) (events_of events)
            → cause ≡ None ↔ AreInTime (allowance_in self.now) (events_of events ++ event_of event.now ∷ [])) }
        ensures shows { IfOk result (λ cause. (events : List SeenNumbered) → StandsFor self.now events
            → AreInTime (allowance_in self.now) (events_of events) → (shown : SeenCause) → cause ≡ Some shown
            → Shows (allows_of (allowance_in self.now)) (events_of events) (event_of event.now) shown) }
    {
        laws::book_tells_what_is_late();
        causes_show();
        self.book.cause(event, self.allowance)
    }

    /// The first event that came too late, if there is one: none exactly where all events so far are timely and fresh.
    pub fn late(&self) -> Option<Late>
        ensures { (events : List SeenNumbered) → StandsFor self.now events
            → IsVerdict (allowance_in self.now) events result }
    {
        laws::book_tells_what_is_late();
        self.late
    }
}

fn late_at(line: u32, why: Option<LateWhy>) -> Option<Late>
    ensures { result ≡ late_of line why }
{
    match why {
        Some(why) => Some(Late { line, why }),
        None => None,
    }
}

/// The first event of a list that came too late, if there is one: none exactly where the list is timely and fresh.
pub fn too_late(
    alloc: Global,
    allowance: Allowance,
    events: &[Numbered<'_>],
) -> Result<Option<Late>, NoMemory>
    ensures { IfOk result (λ late. IsVerdict allowance events.now late) }
{
    let mut verdict = Verdict::new(alloc, allowance);
    for numbered in events {
        verdict.heed(&numbered.event, numbered.line)?;
    }
    Ok(verdict.late())
}

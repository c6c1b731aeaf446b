//! By what it shows that something in a trace came too late. Called by look_cmd.
ghost use Rattle.std.specs.Prelude.{◌≡◌, ◌∷◌, [], ℕ, List, IfOk, Option, map, slice_get};
ghost use Rattle.network_file.specs.Plan.{Plan};
ghost use Rattle.circuit_verdict.specs.declared.allowance.Allowance.{Allowance};
ghost use Rattle.circuit_verdict.specs.declared.late.Late.{Late};
ghost use Rattle.net_verdict.specs.Causes as causes;
ghost use Rattle.net_model.specs.Circuits.{IsVerdictOn, allowance_of, event_at, judged};
ghost use Rattle.net_model.specs.Events.{event_of, numbered_of};
ghost use Rattle.net_model.specs.Standing.{AreDeclared};
ghost use Rattle.net_model.specs.Starting.{Placed};
ghost use Rattle.net_model.specs.Standing.{IsTraceOf};
ghost use Rattle.net_model.specs.Traces.{allowance_in, left_of};
ghost use Rattle.net_model.specs.World.{World};

use crate::late::circuit_event;
use crate::sign::Sign;
use circuit_verdict::{Cause, Event as CircuitEvent, Verdict};
use net_model::{Member, NumberedEvent, Trace};
use radio_base::NoMemory;
use std::alloc::Global;

/// The first event of a trace that came too late, by its number from 1, and by what that shows.
#[derive(Clone, Copy, Debug, PartialEq, Eq)]
pub struct LateCause {
    pub event: u64,
    pub sign: Sign,
}

/// The first event that came too late, and how that shows. It is of the line that the verdict names; None exactly where the verdict is
/// that nothing came too late.
pub fn late_cause(alloc: Global, trace: &Trace) -> Result<Option<LateCause>, NoMemory>
    ensures { IfOk result (λ cause. (plan : Plan) (w : World) (late : Option Late)
        → allowance_in trace.now ≡ allowance_of plan → IsTraceOf (left_of trace.now) w
        → IsVerdictOn plan w late → causes.IsCauseOf plan w late cause) }
{
    let mut verdict = Verdict::new(alloc, trace.allowance());
    let members = trace.members();
    let events = trace.events();
    match first_late(members, &mut verdict, events)? {
        Some((event, cause)) => {
            let sign = sign_of(members, events, cause);
            Ok(Some(LateCause { event, sign }))
        }
        None => Ok(None),
    }
}

/// The number of the first event that comes too late, and by what it does.
fn first_late(
    members: &[Member],
    verdict: &mut Verdict,
    events: &[NumberedEvent],
) -> Result<Option<(u64, Cause)>, NoMemory>
    ensures { IfOk result (λ found. (a : Allowance) (nodes : List Placed) → AreDeclared members.now nodes
        → causes.HasTaken a verdict.old []
        → causes.Finds a nodes (map numbered_of events.now) found) }
{
    for at in 0..events.len() {
        if let Some(cause) = judge(members, verdict, &events[at])? {
            return Ok(Some((at as u64 + 1, cause)));
        }
    }
    Ok(None)
}

/// By what an event comes too late. Where it doesn't, it is taken in.
fn judge(
    members: &[Member],
    verdict: &mut Verdict,
    numbered: &NumberedEvent,
) -> Result<Option<Cause>, NoMemory>
    ensures { IfOk result (λ cause. (nodes : List Placed) → AreDeclared members.now nodes
        → causes.Judges verdict.old verdict.new
        (event_at nodes numbered.now.line (event_of numbered.now.event)) cause) }
{
    match circuit_event(members, &numbered.event) {
        Some(event) => judge_told(verdict, numbered.line, &event),
        None => Ok(None),
    }
}

fn judge_told(
    verdict: &mut Verdict,
    line: u32,
    event: &CircuitEvent<'_>,
) -> Result<Option<Cause>, NoMemory>
    ensures { IfOk result (λ cause. causes.Judges verdict.old verdict.new
        (judged (record { line = line; event = event.now }) ∷ []) cause) }
{
    match verdict.cause(event)? {
        Some(cause) => Ok(Some(cause)),
        None => {
            verdict.heed(event, line)?;
            Ok(None)
        }
    }
}

/// The cause, with nodes and events by their numbers.
fn sign_of(members: &[Member], events: &[NumberedEvent], cause: Cause) -> Sign
    ensures { (nodes : List Placed) → AreDeclared members.now nodes
        → result ≡ causes.sign_of nodes (map numbered_of events.now) cause }
{
    match cause {
        Cause::Unsent => Sign::Unsent,
        Cause::Overtaken {
            sent,
            overtakers,
            allowance,
        } => Sign::Overtaken {
            sent: number_at(members, events, sent),
            overtakers,
            allowance,
        },
        Cause::Unasked => Sign::Unasked,
        Cause::Held { node, id } => Sign::Held {
            node: number_of_node(members, node),
            end: id,
        },
    }
}

/// Of what was told of circuits: the number of the event at a place among all events.
fn number_at(members: &[Member], events: &[NumberedEvent], place: u64) -> u64
    ensures { (nodes : List Placed) → AreDeclared members.now nodes
        → result ≡ causes.number_at nodes (map numbered_of events.now) place }
{
    let mut left = place;
    for at in 0..events.len() {
        if circuit_event(members, &events[at].event).is_none() {
            continue;
        }
        if left == 0 {
            return at as u64 + 1;
        }
        left -= 1;
    }
    0
}

/// The number of the node at a place.
fn number_of_node(members: &[Member], place: u64) -> u8
    ensures { (nodes : List Placed) → AreDeclared members.now nodes
        → result ≡ causes.number_in (slice_get nodes place) }
{
    match members.get(place as usize) {
        Some(one) => one.declared.node,
        None => 0,
    }
}

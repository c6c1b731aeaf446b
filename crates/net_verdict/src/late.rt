//! The verdict on a trace. Called by look_cmd, by node_cmd through net_replay, and `circuit_event` by `causes`.
ghost use Rattle.std.specs.Prelude.{◌≡◌, List, map, ℕ, OnOk, IfOk};
ghost use Rattle.std.specs.Option.{option_copied, option_map};
ghost use Rattle.circuit_table.specs.Sets as sets;
ghost use Rattle.circuit_table.specs.Standing.{event_told};
ghost use Rattle.circuit_verdict.specs.Verdicts.{told_in_run};
ghost use Rattle.network_file.specs.Plan.{Plan};
ghost use Rattle.node_core.specs.Standing.{entry_of};
ghost use Rattle.net_model.specs.Circuits as circuits;
ghost use Rattle.net_model.specs.Circuits.{IsVerdictOn, event_at, events_at, told_at};
ghost use Rattle.net_model.specs.Events.{event_of, numbered_of};
ghost use Rattle.net_verdict.specs.Judging.{Heeds, circuit_told, entry_told, set_told, told_here, told_there};
ghost use Rattle.net_model.specs.Standing.{AreDeclared};
ghost use Rattle.net_model.specs.Starting.{Placed};
ghost use Rattle.net_model.specs.Standing.{IsTraceOf};
ghost use Rattle.net_model.specs.Traces.{allowance_in, left_of};
ghost use Rattle.net_model.specs.World.{World};

use ax_address::Call;
use circuit_table::SetEvent;
use circuit_verdict::{CircuitTold, Event as CircuitEvent, Late, Verdict};
use l3_datagram::Datagram;
use net_model::{Event, LostEnd, Member, NumberedEvent, Trace, place_of};
use node_core::NodeEntry;
use radio_base::NoMemory;
use std::alloc::Global;

/// The first line at which a datagram or a pair comes back too late, if there is one.
pub fn too_late(alloc: Global, trace: &Trace) -> Result<Option<Late>, NoMemory>
    ensures { IfOk result (λ late. (plan : Plan) (w : World) → allowance_in trace.now ≡ circuits.allowance_of plan
        → IsTraceOf (left_of trace.now) w → IsVerdictOn plan w late) }
{
    let mut verdict = Verdict::new(alloc, trace.allowance());
    heed_all(trace.members(), &mut verdict, trace.events())?;
    Ok(verdict.late())
}

/// Takes in what the events tell of circuits.
fn heed_all(
    members: &[Member],
    verdict: &mut Verdict,
    events: &[NumberedEvent],
) -> Result<(), NoMemory>
    ensures { OnOk result ((nodes : List Placed) → AreDeclared members.now nodes
        → Heeds verdict.old verdict.new (events_at nodes (map numbered_of events.now))) }
{
    for numbered in events {
        heed(members, verdict, numbered)?;
    }
    Ok(())
}

pub(crate) fn heed(
    members: &[Member],
    verdict: &mut Verdict,
    numbered: &NumberedEvent,
) -> Result<(), NoMemory>
    ensures { OnOk result ((nodes : List Placed) → AreDeclared members.now nodes
        → Heeds verdict.old verdict.new (event_at nodes numbered.now.line (event_of numbered.now.event))) }
{
    match circuit_event(members, &numbered.event) {
        Some(event) => {
            verdict.heed(&event, numbered.line)?;
            Ok(())
        }
        None => Ok(()),
    }
}

/// What an event tells of circuits, at the place of its node: nothing where it tells of none, or where there is no such node.
pub(crate) fn circuit_event<'a>(members: &[Member], event: &'a Event) -> Option<CircuitEvent<'a>>
    ensures { (nodes : List Placed) (line : ℕ) → AreDeclared members.now nodes
        → event_at nodes line (event_of event.now) ≡ told_here line result }
{
    let Some((number, told)) = told_in(event) else {
        return None;
    };
    let Some((node, own)) = spot_of(members, number) else {
        return None;
    };
    Some(CircuitEvent { node, own, told })
}

/// The place of the node of that number among the nodes, by which it is named, and its call.
fn spot_of(members: &[Member], number: u8) -> Option<(u64, Call)>
    ensures { (nodes : List Placed) (line : ℕ) (told : sets.CircuitTold) → AreDeclared members.now nodes
        → told_at nodes line number told ≡ told_there line result told }
{
    let place = place_of(members, number);
    match members.get(place) {
        Some(one) => Some((place as u64, one.declared.call)),
        None => None,
    }
}

/// What an event tells of circuits, and the number of the node.
fn told_in<'a>(event: &'a Event) -> Option<(u8, CircuitTold<'a>)>
    ensures { option_map (λ p. (p.0, told_in_run p.1)) result ≡ circuit_told (event_of event.now) }
{
    match event {
        Event::Entry { node, entry } => match entry_told(entry) {
            Some(told) => Some((*node, told)),
            None => None,
        },
        Event::Sent { node, sent } => Some((
            *node,
            CircuitTold::Sent {
                id: sent.datagram.id,
                number: sent.number,
                datagram: &sent.datagram.octets,
            },
        )),
        Event::Heeded { node, heeded } => Some((
            *node,
            CircuitTold::Heeded {
                id: heeded.id,
                datagram: &heeded.octets,
            },
        )),
        Event::Restarted { node, pair } => Some((*node, CircuitTold::Restarted { pair: *pair })),
        Event::Lost { node, end } => {
            let LostEnd { id, facts } = **end;
            Some((*node, CircuitTold::Lost { id, facts }))
        }
        _ => None,
    }
}

/// What an entry of a node tells of circuits.
fn entry_told<'a>(entry: &'a NodeEntry) -> Option<CircuitTold<'a>>
    ensures { option_map told_in_run result ≡ entry_told (entry_of entry.now) }
{
    match entry {
        NodeEntry::Set(event) => set_told(event),
        NodeEntry::Link(..) | NodeEntry::Overflow { .. } => None,
    }
}

fn set_told<'a>(event: &'a SetEvent) -> Option<CircuitTold<'a>>
    ensures { option_map told_in_run result ≡ set_told (event_told event.now) }
{
    match event {
        SetEvent::Made {
            id,
            pair,
            partner,
            request,
        } => Some(CircuitTold::Made {
            id: *id,
            pair: *pair,
            partner: *partner,
            request: octets_of(request),
        }),
        SetEvent::Sent {
            id,
            number,
            datagram,
        } => Some(CircuitTold::Sent {
            id: *id,
            number: *number,
            datagram: datagram.as_slice(),
        }),
        SetEvent::Heeded { id, datagram } => Some(CircuitTold::Heeded {
            id: *id,
            datagram: datagram.as_slice(),
        }),
        SetEvent::Notice { id, notice } => Some(CircuitTold::Notice {
            id: *id,
            notice: *notice,
        }),
        SetEvent::Gone { id, facts } => Some(CircuitTold::Gone {
            id: *id,
            facts: *facts,
        }),
        SetEvent::Dropped(_) | SetEvent::Lost(_) => None,
    }
}

/// The octets of a request, if there is one.
fn octets_of(request: &Option<Datagram>) -> Option<&[u8]>
    ensures { option_copied result ≡ option_map (λ d. d.items) request.now }
{
    match request {
        Some(datagram) => Some(datagram.as_slice()),
        None => None,
    }
}

//! The line on what came of a soak. Called by node_cmd, through net_replay.
ghost use Rattle.std.specs.Prelude.{◌≡◌, ◌++◌, ℕ, List, Option, length, map, flat_map, string_bytes, OnOk, OnErr, IfOk};
ghost use Rattle.node_core.specs.Standing.{NodeStands, entry_of};
ghost use Rattle.node_mail.specs.Lists.{Lists};
ghost use Rattle.node_model.specs.States.{NodeState};
ghost use Rattle.net_model.specs.Events.{Entry, event_of, numbered_of};
ghost use Rattle.net_report.specs.Reporting.{ends_left};
ghost use Rattle.net_report.specs.Reports as texts;
ghost use Rattle.net_model.specs.Starting.{Placed};
ghost use Rattle.net_model.specs.Standing.{IsTraceOf, MembersStand};
ghost use Rattle.net_model.specs.Traces.{left_of};
ghost use Rattle.net_model.specs.World.{World};

use crate::reports::write_verdict;
use circuit_l4::{EndFacts, EndNotice};
use circuit_table::SetEvent;
use circuit_verdict::Late;
use net_model::{EndRecord, Event, Member, NumberedEvent, Outcome, Trace};
use node_core::{Node, NodeEntry};
use radio_base::{NoMemory, TextOut};
use std::alloc::{AllocError, Global};

/// How many messages were written and received, over some ends.
#[derive(Clone, Copy, Debug, PartialEq, Eq)]
struct Messages {
    wrote: u128,
    received: u128,
}

/// Appends the line on the soak of a number: what came of its network, and the verdict on it. Nothing is appended where memory ran
/// out.
pub fn soak_line(
    alloc: Global,
    seed: u64,
    trace: &Trace,
    late: Option<Late>,
    out: &mut TextOut,
) -> Result<(), NoMemory>
    ensures ok { OnOk result ((w : World) → IsTraceOf (left_of trace.now) w
        → out.new ≡ out.old ++ texts.soak_text seed w late) }
    ensures err { OnErr result (out.new ≡ out.old) }
{
    let text = text_of(alloc, seed, trace, late)?;
    out.append(text)?;
    Ok(())
}

fn text_of(alloc: Global, seed: u64, trace: &Trace, late: Option<Late>) -> Result<TextOut, NoMemory>
    ensures { IfOk result (λ text. (w : World) → IsTraceOf (left_of trace.now) w → text ≡ texts.soak_text seed w late) }
{
    let ends = facts_left(alloc, trace)?;
    let start = start_of(alloc, seed, trace, &ends)?;
    let mut text = TextOut::new(alloc);
    text.text(start.as_str())?;
    write_verdict(alloc, late, &mut text)?;
    Ok(text)
}

/// `soak SEED frames=F wrote=W received=R failed=X`, and a space.
fn start_of(
    alloc: Global,
    seed: u64,
    trace: &Trace,
    ends: &[EndFacts],
) -> Result<String, AllocError>
    ensures { IfOk result (λ s. string_bytes s ≡ texts.counts_text seed (length (left_of trace.now).air) ends.now
        (texts.failures (map numbered_of (left_of trace.now).events))) }
{
    let frames = trace.frames().len();
    let messages = messages_of(ends);
    let wrote = messages.wrote;
    let received = messages.received;
    let failed = failures_in(trace.events());
    format!(in alloc;
        "soak {seed} frames={frames} wrote={wrote} received={received} failed={failed} "
    )
}

/// How many ends were told that they failed. An end is told so once.
fn failures_in(events: &[NumberedEvent]) -> usize
    ensures { result ≡ texts.failures (map numbered_of events.now) }
{
    let mut count = 0;
    for numbered in events {
        if is_failure(&numbered.event) {
            count += 1;
        }
    }
    count
}

fn is_failure(event: &Event) -> bool
    ensures { result ≡ texts.is_failure (event_of event.now) }
{
    match event {
        Event::Entry { entry, .. } => tells_failure(entry),
        _ => false,
    }
}

fn tells_failure(entry: &NodeEntry) -> bool
    ensures { (node : ℕ) → result ≡ texts.is_failure (Entry node (entry_of entry.now)) }
{
    match entry {
        NodeEntry::Set(SetEvent::Notice { notice, .. }) => has_failed(notice),
        _ => false,
    }
}

fn has_failed(notice: &EndNotice) -> bool
    ensures { result ≡ texts.has_failed notice.now }
{
    match notice {
        EndNotice::FailedRetries | EndNotice::FailedOversize | EndNotice::FailedInactive => true,
        _ => false,
    }
}

fn messages_of(ends: &[EndFacts]) -> Messages
    ensures wrote { result.wrote ≡ texts.wrote_in ends.now }
    ensures received { result.received ≡ texts.received_in ends.now }
{
    let mut wrote = 0u128;
    let mut received = 0u128;
    for end in ends {
        wrote += end.wrote as u128;
        received += end.received as u128;
    }
    Messages { wrote, received }
}

/// All ends that the nodes ever made, as they were left.
fn facts_left(alloc: Global, trace: &Trace) -> Result<Vec<EndFacts>, NoMemory>
    ensures { IfOk result (λ ends. (w : World) → IsTraceOf (left_of trace.now) w → ends.items ≡ texts.facts_left w) }
{
    let mut ends = Vec::new(alloc);
    add_nodes(trace, trace.members(), &mut ends)?;
    Ok(ends)
}

fn add_nodes(trace: &Trace, members: &[Member], ends: &mut Vec<EndFacts>) -> Result<(), NoMemory>
    ensures { OnOk result ((placed : List Placed) (kept : List (Option Lists)) → MembersStand members.now placed kept
        → ends.new.items ≡ ends.old.items ++ flat_map (texts.facts_of (ends_left (left_of trace.now))) placed) }
{
    match members {
        [] => Ok(()),
        [first, others @ ..] => {
            add_node(trace, first, ends)?;
            add_nodes(trace, others, ends)?;
            Ok(())
        }
    }
}

fn add_node(trace: &Trace, member: &Member, ends: &mut Vec<EndFacts>) -> Result<(), NoMemory>
    ensures { OnOk result ((p : Placed) → member.now.declared ≡ p.declared → NodeStands member.now.node p.state
        → ends.new.items ≡ ends.old.items ++ texts.facts_of (ends_left (left_of trace.now)) p) }
{
    add_ends(trace.ends_of(member.declared.node), &member.node, ends)?;
    Ok(())
}

/// The ends that a node ever made.
fn add_ends(made: &[EndRecord], node: &Node, ends: &mut Vec<EndFacts>) -> Result<(), NoMemory>
    ensures { OnOk result ((n : NodeState) → NodeStands node.now n
        → ends.new.items ≡ ends.old.items ++ texts.facts_from 1 made.now n.station.set.set.ends) }
{
    for (place, end) in made.iter().enumerate() {
        let id = place as u64 + 1;
        add_end(end, node.facts(id), ends)?;
    }
    Ok(())
}

/// An end as it was left. One that is held has these facts.
fn add_end(
    end: &EndRecord,
    held: Option<EndFacts>,
    ends: &mut Vec<EndFacts>,
) -> Result<(), NoMemory>
    ensures { OnOk result (ends.new.items ≡ ends.old.items ++ texts.facts_by end.now.outcome held) }
{
    match end.outcome {
        Outcome::Gone(facts) | Outcome::Lost(facts) => {
            ends.push(facts)?;
            Ok(())
        }
        Outcome::Held => match held {
            Some(facts) => {
                ends.push(facts)?;
                Ok(())
            }
            None => Ok(()),
        },
    }
}

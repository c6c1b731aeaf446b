//! What a report says of the entries of nodes, and of their ends as they were left. Called by `reports`.
ghost use Rattle.std.specs.Prelude.{◌≡◌, ◌++◌, OnOk, IfOk, string_bytes};
ghost use Rattle.net_report.specs.ToldLines as texts;
ghost use Rattle.circuit_table.specs.Standing.{event_told};
ghost use Rattle.node_core.specs.Standing.{entry_of};

use crate::told::lines::{dropped_line, end_line, link_line, notice_line};
use crate::told::words::drop_word;
use ax_address::Call;
use circuit_l4::{EndFacts, EndNotice};
use circuit_table::SetEvent;
use l3_datagram::Routed;
use net_model::{EndRecord, Outcome};
use node_core::NodeEntry;
use radio_base::{NoMemory, TextOut};
use std::alloc::{AllocError, Global};

/// Appends the line of an entry of a node, if it has one. These are the ends that the node ever made.
pub(crate) fn write_entry(
    alloc: Global,
    node: u8,
    ends: &[EndRecord],
    entry: &NodeEntry,
    text: &mut TextOut,
) -> Result<(), NoMemory>
    ensures { OnOk result (text.new ≡ text.old ++ texts.entry_text node ends.now (entry_of entry.now)) }
{
    match entry {
        NodeEntry::Link(peer, notice) => {
            let line = link_line(alloc, node, peer, notice)?;
            text.text(line.as_str())?;
            Ok(())
        }
        NodeEntry::Overflow { live, would_be } => {
            let line = overflow_line(alloc, node, *live, *would_be)?;
            text.text(line.as_str())?;
            Ok(())
        }
        NodeEntry::Set(event) => write_set_event(alloc, node, ends, event, text),
    }
}

/// `overflow N LIVE WOULDBE`
fn overflow_line(
    alloc: Global,
    node: u8,
    live: usize,
    would_be: usize,
) -> Result<String, AllocError>
    ensures { IfOk result (λ s. string_bytes s ≡ texts.overflow_line node live would_be) }
{
    format!(in alloc; "overflow {node} {live} {would_be}\n")
}

/// Appends the line of an event of a node's circuits, if it has one.
fn write_set_event(
    alloc: Global,
    node: u8,
    ends: &[EndRecord],
    event: &SetEvent,
    text: &mut TextOut,
) -> Result<(), NoMemory>
    ensures { OnOk result (text.new ≡ text.old ++ texts.set_event_text node ends.now (event_told event.now)) }
{
    match event {
        SetEvent::Notice { id, notice } => write_notice(alloc, node, ends, *id, notice, text),
        SetEvent::Dropped(routed) => write_drop(alloc, node, routed, text),
        SetEvent::Made { .. }
        | SetEvent::Sent { .. }
        | SetEvent::Heeded { .. }
        | SetEvent::Lost(_)
        | SetEvent::Gone { .. } => Ok(()),
    }
}

/// Appends the line of a notice of the end of that number, from 1.
fn write_notice(
    alloc: Global,
    node: u8,
    ends: &[EndRecord],
    id: u64,
    notice: &EndNotice,
    text: &mut TextOut,
) -> Result<(), NoMemory>
    ensures { OnOk result (text.new ≡ text.old ++ texts.notice_text node ends.now id notice.now) }
{
    match ends.get(id.saturating_sub(1) as usize) {
        Some(end) => {
            let line = notice_line(alloc, node, id, &end.partner, notice)?;
            text.text(line.as_str())?;
            Ok(())
        }
        None => Ok(()),
    }
}

/// Appends the line of a datagram that was dropped.
fn write_drop(alloc: Global, node: u8, routed: &Routed, text: &mut TextOut) -> Result<(), NoMemory>
    ensures { OnOk result (text.new ≡ text.old ++ texts.drop_text node routed.now) }
{
    match drop_word(routed) {
        Some(why) => {
            let line = dropped_line(alloc, node, why)?;
            text.text(line.as_str())?;
            Ok(())
        }
        None => Ok(()),
    }
}

/// Appends the line of an end as it was left. One that is held has these facts.
pub(crate) fn write_last(
    alloc: Global,
    node: u8,
    id: u64,
    end: &EndRecord,
    held: Option<EndFacts>,
    text: &mut TextOut,
) -> Result<(), NoMemory>
    ensures { OnOk result (text.new ≡ text.old ++ texts.last_text node id end.now held) }
{
    match end.outcome {
        Outcome::Lost(facts) => write_end(alloc, node, id, &end.partner, true, &facts, text),
        Outcome::Gone(facts) => write_end(alloc, node, id, &end.partner, false, &facts, text),
        Outcome::Held => write_held(alloc, node, id, &end.partner, held, text),
    }
}

fn write_held(
    alloc: Global,
    node: u8,
    id: u64,
    partner: &Call,
    held: Option<EndFacts>,
    text: &mut TextOut,
) -> Result<(), NoMemory>
    ensures { OnOk result (text.new ≡ text.old ++ texts.held_text node id partner.now held) }
{
    match held {
        Some(facts) => write_end(alloc, node, id, partner, false, &facts, text),
        None => Ok(()),
    }
}

fn write_end(
    alloc: Global,
    node: u8,
    id: u64,
    partner: &Call,
    is_lost: bool,
    facts: &EndFacts,
    text: &mut TextOut,
) -> Result<(), NoMemory>
    ensures { OnOk result (text.new ≡ text.old ++ texts.end_line node id partner.now is_lost facts.now) }
{
    let line = end_line(alloc, node, id, partner, is_lost, facts)?;
    text.text(line.as_str())?;
    Ok(())
}

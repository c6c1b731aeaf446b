//! The report. Called by node_cmd, through net_replay, and `write_verdict` by `soak`.
ghost use Rattle.std.specs.Prelude.{◌≡◌, ◌++◌, List, Option, flat_map, codes, string_bytes, OnOk, OnErr, IfOk, Some};
ghost use Rattle.std.specs.Fmt.{decimal};
ghost use Rattle.radio_base.specs.Modulus.{modulus_size};
ghost use Rattle.ax_frame.specs.Controls.{IsLinkModulus};
ghost use Rattle.ax_frame.specs.Frames.{read_at};
ghost use Rattle.node_core.specs.Standing.{NodeStands, entry_of};
ghost use Rattle.node_model.specs.States.{NodeState};
ghost use Rattle.node_mail.specs.Lists.{Lists};
ghost use Rattle.net_model.specs.World.{frame_of, World};
ghost use Rattle.net_model.specs.Refused.{word_for_why};
ghost use Rattle.net_report.specs.Reporting.{ends_left, text_left};
ghost use Rattle.net_report.specs.Reports as texts;
ghost use Rattle.net_model.specs.Starting.{Placed};
ghost use Rattle.net_report.specs.ToldLines as entries;
ghost use Rattle.net_model.specs.Standing.{IsTraceOf, MailStands, MembersStand};
ghost use Rattle.net_model.specs.Traces.{left_of};

use crate::entries::{write_entry, write_last};
use crate::told::events::write_event_line;
use crate::told::lines::write_line;
use crate::told::mails::mail_line;
use crate::told::tables::write_table;
use arrayvec::ArrayString;
use ax_frame::{read_frame, show_frame};
use circuit_verdict::{Late, LateWhy};
use net_model::{Aired, EndRecord, Event, LineRefusal, Member, NumberedEvent, Trace, shown};
use node_core::{Node, NodeEntry};
use node_mail::Store;
use radio_base::{LinkModulus, M8, M128, Modulus, NoMemory, TextOut, push_decimal};
use std::alloc::{AllocError, Global};

/// Room for the start of a frame's line.
type Line = ArrayString<80>;

/// Appends the report of a trace with the verdict on it, or nothing where memory ran out.
pub fn report(
    alloc: Global,
    trace: &Trace,
    late: Option<Late>,
    out: &mut TextOut,
) -> Result<(), NoMemory>
    ensures ok { OnOk result ((w : World) → IsTraceOf (left_of trace.now) w
        → out.new ≡ out.old ++ texts.report_text w late) }
    ensures err { OnErr result (out.new ≡ out.old) }
{
    let text = report_of(alloc, trace, late)?;
    out.append(text)?;
    Ok(())
}

fn report_of(alloc: Global, trace: &Trace, late: Option<Late>) -> Result<TextOut, NoMemory>
    ensures { IfOk result (λ text. (w : World) → IsTraceOf (left_of trace.now) w → text ≡ texts.report_text w late) }
{
    let mut text = TextOut::new(alloc);
    write_events(alloc, trace, &mut text)?;
    write_nodes(alloc, trace, trace.members(), &mut text)?;
    write_verdict(alloc, late, &mut text)?;
    Ok(text)
}

fn write_events(alloc: Global, trace: &Trace, text: &mut TextOut) -> Result<(), NoMemory>
    ensures { OnOk result (text.new ≡ text.old ++ flat_map (text_left (left_of trace.now)) (left_of trace.now).events) }
{
    for numbered in trace.events() {
        write_event(alloc, trace, numbered, text)?;
    }
    Ok(())
}

fn write_event(
    alloc: Global,
    trace: &Trace,
    numbered: &NumberedEvent,
    text: &mut TextOut,
) -> Result<(), NoMemory>
    ensures { OnOk result (text.new ≡ text.old ++ text_left (left_of trace.now) numbered.now) }
{
    match &numbered.event {
        Event::Entry { node, entry } => {
            write_entry(alloc, *node, trace.ends_of(*node), entry, text)
        }
        Event::InAir { frame } => write_aired(*frame as usize, trace.frames(), text),
        Event::Shown { table } => write_table(alloc, table, text),
        Event::Refused { why } => write_line(refused_line(alloc, numbered.line, why)?, text),
        event => write_event_line(alloc, event, text),
    }
}

/// `refused L WHY`
fn refused_line(alloc: Global, line: u32, why: &LineRefusal) -> Result<String, AllocError>
    ensures { IfOk result (λ s. string_bytes s ≡ texts.refused_line line (word_for_why why.now)) }
{
    format!(in alloc; "refused {line} {why}\n")
}

/// `air K N FRAME`
fn write_aired(number: usize, frames: &[Aired], text: &mut TextOut) -> Result<(), NoMemory>
    ensures { OnOk result (text.new ≡ text.old ++ texts.air_line number (frame_of frames.now number)) }
{
    match frames.get(number.saturating_sub(1)) {
        Some(frame) => write_frame_line(number, frame, text),
        None => Ok(()),
    }
}

fn write_frame_line(number: usize, frame: &Aired, text: &mut TextOut) -> Result<(), NoMemory>
    ensures { OnOk result (text.new ≡ text.old ++ texts.air_line number (Some frame.now)) }
{
    let start = air_start(number, frame.sender);
    text.text(start.as_str())?;
    write_frame_text(frame, text)?;
    text.text("\n")?;
    Ok(())
}

/// `air K N `
fn air_start(number: usize, sender: u8) -> Line
    ensures { result.bytes ≡ codes "air " ++ (decimal number ++ (codes " " ++ (decimal sender ++ codes " "))) }
{
    let mut line = Line::new();
    line.push_str("air ");
    push_decimal(number, &mut line);
    line.push(' ');
    push_decimal(sender as usize, &mut line);
    line.push(' ');
    line
}

/// The frame, as a text.
fn write_frame_text(frame: &Aired, text: &mut TextOut) -> Result<(), NoMemory>
    ensures { OnOk result (text.new ≡ text.old ++ texts.text_of_frame
        (read_at (modulus_size frame.now.modulus) frame.now.octets.items)) }
{
    match frame.modulus {
        LinkModulus::Modulo8 => write_read::<M8>(frame.octets.as_slice(), text),
        LinkModulus::Modulo128 => write_read::<M128>(frame.octets.as_slice(), text),
    }
}

/// The frame that the octets spell, as a text.
fn write_read<M: Modulus>(octets: &[u8], text: &mut TextOut) -> Result<(), NoMemory>
    requires { IsLinkModulus M.SIZE }
    ensures { OnOk result (text.new ≡ text.old ++ texts.text_of_frame (read_at M.SIZE octets.now)) }
{
    match read_frame::<M>(octets) {
        Ok(view) => show_frame(&view, text),
        Err(_) => Ok(()),
    }
}

/// The tables and the ends of the nodes as they were left.
fn write_nodes(
    alloc: Global,
    trace: &Trace,
    members: &[Member],
    text: &mut TextOut,
) -> Result<(), NoMemory>
    ensures { OnOk result ((placed : List Placed) (kept : List (Option Lists)) → MembersStand members.now placed kept
        → text.new ≡ text.old ++ texts.nodes_text (ends_left (left_of trace.now)) placed kept) }
{
    match members {
        [] => Ok(()),
        [first, others @ ..] => {
            write_node(alloc, trace, first, text)?;
            write_nodes(alloc, trace, others, text)?;
            Ok(())
        }
    }
}

fn write_node(
    alloc: Global,
    trace: &Trace,
    member: &Member,
    text: &mut TextOut,
) -> Result<(), NoMemory>
    ensures { OnOk result ((p : Placed) (kept : Option Lists) → member.now.declared ≡ p.declared
        → NodeStands member.now.node p.state → MailStands member.now.mail kept
        → text.new ≡ text.old ++ texts.kept_text (ends_left (left_of trace.now)) p kept) }
{
    let table = shown(alloc, &member.declared, &member.node)?;
    write_table(alloc, &table, text)?;
    let number = member.declared.node;
    write_ends(alloc, number, trace.ends_of(number), &member.node, text)?;
    write_mail(alloc, number, &member.mail, text)?;
    Ok(())
}

/// How much mail a node has left, where it keeps mail.
fn write_mail(
    alloc: Global,
    node: u8,
    mail: &Option<Store>,
    text: &mut TextOut,
) -> Result<(), NoMemory>
    ensures { OnOk result ((kept : Option Lists) → MailStands mail.now kept
        → text.new ≡ text.old ++ texts.mail_text node kept) }
{
    match mail {
        Some(store) => {
            let (queued, stored) = store.counts();
            let line = mail_line(alloc, node, queued, stored)?;
            text.text(line.as_str())?;
            Ok(())
        }
        None => Ok(()),
    }
}

/// The ends that a node ever made, as they were left.
fn write_ends(
    alloc: Global,
    number: u8,
    ends: &[EndRecord],
    node: &Node,
    text: &mut TextOut,
) -> Result<(), NoMemory>
    ensures { OnOk result ((n : NodeState) → NodeStands node.now n
        → text.new ≡ text.old ++ entries.last_texts number 1 ends.now n.station.set.set.ends) }
{
    for (place, end) in ends.iter().enumerate() {
        let id = place as u64 + 1;
        write_last(alloc, number, id, end, node.facts(id), text)?;
    }
    Ok(())
}

/// The last line.
pub(crate) fn write_verdict(
    alloc: Global,
    late: Option<Late>,
    text: &mut TextOut,
) -> Result<(), NoMemory>
    ensures { OnOk result (text.new ≡ text.old ++ texts.verdict_line late) }
{
    match late {
        Some(late) => {
            let line = late_line(alloc, late)?;
            text.text(line.as_str())?;
            Ok(())
        }
        None => {
            text.text("verdict done\n")?;
            Ok(())
        }
    }
}

/// `verdict late L WHY`
fn late_line(alloc: Global, late: Late) -> Result<String, AllocError>
    ensures { IfOk result (λ s. string_bytes s ≡ texts.verdict_line (Some late)) }
{
    let line = late.line;
    let why = late_word(late.why);
    format!(in alloc; "verdict late {line} {why}\n")
}

fn late_word(why: LateWhy) -> &'static str
    ensures { result.now ≡ texts.late_word why }
{
    match why {
        LateWhy::Overtaken => "overtaken",
        LateWhy::Returned => "returned",
    }
}

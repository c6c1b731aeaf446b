//! The events of a trace. Called by `traces`.
ghost use Rattle.std.specs.Prelude.{◌≡◌, ◌++◌, [], ◌∷◌, length, OnOk, IfOk, string_bytes, map, flat_map};
ghost use Rattle.radio_base.specs.Modulus.{modulus_size};
ghost use Rattle.net_model.specs.World.{frame_of};
ghost use Rattle.net_model.specs.Events.{event_of, numbered_of};
ghost use Rattle.net_model.specs.Refused.{word_for_why};
ghost use Rattle.trace_lines.specs.Events as events;
ghost use Rattle.trace_lines.specs.Json as json;
ghost use Rattle.trace_lines.specs.Json.{Bytes, Number, Octets, fields_text};
ghost use Rattle.trace_lines.specs.Marks.{mark_at};

use crate::circuits::{write_entry, write_heeded, write_sent};
use crate::json::{hex_text, string_text, truth};
use crate::left::{facts_fields, route_fields};
use crate::lines::Lines;
use crate::mails::write_stored;
use crate::marks::mark_of;
use crate::stands::{AtNode, Stand};
use circuit_l4::Pair;
use net_model::{Aired, Event, LostEnd, NumberedEvent, Offer, Table};
use radio_base::{LinkModulus, NoMemory};
use route_table::Route;
use std::alloc::{AllocError, Global};

/// Appends the lines of all events. These are the marks of the lines that bring a frame again, and the frames in the air.
pub(crate) fn write_events(
    marks: &[bool],
    frames: &[Aired],
    told: &[NumberedEvent],
    out: &mut Lines,
) -> Result<(), NoMemory>
    ensures { OnOk result (out.new
        ≡ out.old ++ events.events_from (mark_at marks.now) frames.now 1 (map numbered_of told.now)) }
{
    for (place, numbered) in told.iter().enumerate() {
        let stand = Stand {
            event: place as u64 + 1,
            line: numbered.line,
        };
        write_event(marks, frames, stand, &numbered.event, out)?;
    }
    Ok(())
}

fn write_event(
    marks: &[bool],
    frames: &[Aired],
    stand: Stand,
    event: &Event,
    out: &mut Lines,
) -> Result<(), NoMemory>
    ensures { OnOk result (out.new
        ≡ out.old ++ events.event_text (mark_at marks.now) frames.now stand (event_of event.now)) }
{
    match event {
        Event::Entry { node, entry } => write_entry(stand.at(*node), entry, out),
        Event::Sent { node, sent } => {
            let id = sent.datagram.id;
            write_sent(stand.at(*node), id, sent.number, &sent.datagram.octets, out)
        }
        Event::Heeded { node, heeded } => {
            write_heeded(stand.at(*node), heeded.id, &heeded.octets, out)
        }
        Event::InAir { frame } => write_aired(stand, *frame, frames, out),
        Event::Delivered { frame, node } => {
            let again = mark_of(marks, stand.line);
            write_delivered(stand, *frame, *node, again, out)
        }
        Event::Settled { frame } => write_lost_frame(stand, *frame, out),
        Event::Shown { table } => write_shown(stand, table, out),
        Event::Took { node, end, message } => write_took(stand.at(*node), *end, message, out),
        Event::Restarted { node, pair } => write_restarted(stand.at(*node), *pair, out),
        Event::Lost { node, end } => write_lost_end(stand.at(*node), end, out),
        Event::MailStored { node, mail } => write_stored(stand.at(*node), mail, out),
        event => write_object(event_object(out.alloc(), stand, event)?, out),
    }
}

fn write_object(object: String, out: &mut Lines) -> Result<(), NoMemory>
    ensures { OnOk result (out.new ≡ out.old ++ string_bytes object) }
{
    out.text(object.as_str())?;
    Ok(())
}

/// The object of an event that is made in one piece, of numbers and words.
#[tactic(auto, unfolding(crate::specs::Json::object))]
fn event_object(alloc: Global, stand: Stand, event: &Event) -> Result<String, AllocError>
    ensures { IfOk result (λ s. string_bytes s ≡ events.event_object stand (event_of event.now)) }
{
    let Stand { event: nth, line } = stand;
    match event {
        Event::Wrote { node, end, count } => format!(in alloc;
            "{{\"kind\":\"wrote\",\"event\":{nth},\"line\":{line},\"node\":{node},\"end\":{end},\"messages\":{count}}}\n"
        ),
        Event::Refused { why } => format!(in alloc;
            "{{\"kind\":\"refused\",\"event\":{nth},\"line\":{line},\"why\":\"{why}\"}}\n"
        ),
        Event::Posted { node, number } => format!(in alloc;
            "{{\"kind\":\"posted\",\"event\":{nth},\"line\":{line},\"node\":{node},\"mail\":{number}}}\n"
        ),
        Event::Offered { node, offer } => {
            let Offer { id, number } = **offer;
            format!(in alloc;
                "{{\"kind\":\"offered\",\"event\":{nth},\"line\":{line},\"node\":{node},\"end\":{id},\"mail\":{number}}}\n"
            )
        }
        Event::MailSettled { node, number } => format!(in alloc;
            "{{\"kind\":\"settled\",\"event\":{nth},\"line\":{line},\"node\":{node},\"mail\":{number}}}\n"
        ),
        Event::Entry { .. }
        | Event::Sent { .. }
        | Event::Heeded { .. }
        | Event::InAir { .. }
        | Event::Delivered { .. }
        | Event::Settled { .. }
        | Event::Shown { .. }
        | Event::Took { .. }
        | Event::Restarted { .. }
        | Event::Lost { .. }
        | Event::MailStored { .. } => Ok(String::new(alloc)),
    }
}

/// The node has put a frame in the air.
fn write_aired(stand: Stand, number: u32, frames: &[Aired], out: &mut Lines) -> Result<(), NoMemory>
    ensures { OnOk result (out.new ≡ out.old ++ events.aired_text stand number (frame_of frames.now number)) }
{
    match frames.get((number as usize).saturating_sub(1)) {
        Some(frame) => write_frame(stand, number, frame, out),
        None => Ok(()),
    }
}

#[tactic(auto, unfolding(crate::specs::Json::object))]
fn write_frame(stand: Stand, number: u32, frame: &Aired, out: &mut Lines) -> Result<(), NoMemory>
    ensures { OnOk result (out.new ≡ out.old ++ events.frame_line stand number frame.now) }
{
    let Stand { event, line } = stand;
    let node = frame.sender;
    let fields = frame_fields(out.alloc(), frame)?;
    let fields = fields.as_str();
    let object = format!(in out.alloc();
        "{{\"kind\":\"frame\",\"event\":{event},\"line\":{line},\"frame\":{number},\"node\":{node}{fields}"
    )?;
    out.text(object.as_str())?;
    Ok(())
}

/// The fields from the modulus on, and the end of their object.
fn frame_fields(alloc: Global, frame: &Aired) -> Result<String, AllocError>
    ensures { IfOk result (λ s. string_bytes s
        ≡ fields_text (Number "modulo" (modulus_size frame.now.modulus)
        ∷ Octets "octets" frame.now.octets.items ∷ [])) }
{
    let modulo = size_of(frame.modulus);
    let octets = octets_text(alloc, frame)?;
    let octets = octets.as_str();
    let fields = format!(in alloc; ",\"modulo\":{modulo},\"octets\":{octets}}}\n")?;
    Ok(fields)
}

fn octets_text(alloc: Global, frame: &Aired) -> Result<String, AllocError>
    ensures { IfOk result (λ s. string_bytes s ≡ json.hex_text frame.now.octets.items) }
{
    hex_text(alloc, frame.octets.as_slice())
}

/// How many numbers there are.
fn size_of(modulus: LinkModulus) -> u8
    ensures { result ≡ modulus_size modulus }
{
    match modulus {
        LinkModulus::Modulo8 => 8,
        LinkModulus::Modulo128 => 128,
    }
}

/// The frame goes to the node.
#[tactic(auto, unfolding(crate::specs::Json::object))]
fn write_delivered(
    stand: Stand,
    frame: u32,
    node: u8,
    again: bool,
    out: &mut Lines,
) -> Result<(), NoMemory>
    ensures { OnOk result (out.new ≡ out.old ++ events.delivered_line stand frame node again) }
{
    let Stand { event, line } = stand;
    let again = truth(again);
    let object = format!(in out.alloc();
        "{{\"kind\":\"delivered\",\"event\":{event},\"line\":{line},\"frame\":{frame},\"node\":{node},\"again\":{again}}}\n"
    )?;
    out.text(object.as_str())?;
    Ok(())
}

/// The frame went to nobody.
#[tactic(auto, unfolding(crate::specs::Json::object))]
fn write_lost_frame(stand: Stand, frame: u32, out: &mut Lines) -> Result<(), NoMemory>
    ensures { OnOk result (out.new ≡ out.old ++ events.lost_frame_line stand frame) }
{
    let Stand { event, line } = stand;
    let object = format!(in out.alloc();
        "{{\"kind\":\"lost_frame\",\"event\":{event},\"line\":{line},\"frame\":{frame}}}\n"
    )?;
    out.text(object.as_str())?;
    Ok(())
}

/// A message was taken from an end, whole.
#[tactic(auto, unfolding(crate::specs::Json::object))]
fn write_took(at: AtNode, end: u32, message: &[u8], out: &mut Lines) -> Result<(), NoMemory>
    ensures { OnOk result (out.new ≡ out.old ++ events.took_line at end message.now) }
{
    let Stand { event, line } = at.stand;
    let node = at.node;
    let fields = message_fields(out.alloc(), message)?;
    let fields = fields.as_str();
    let object = format!(in out.alloc();
        "{{\"kind\":\"took\",\"event\":{event},\"line\":{line},\"node\":{node},\"end\":{end}{fields}"
    )?;
    out.text(object.as_str())?;
    Ok(())
}

/// The fields of a message, and the end of their object.
fn message_fields(alloc: Global, message: &[u8]) -> Result<String, AllocError>
    ensures { IfOk result (λ s. string_bytes s
        ≡ fields_text (Number "bytes" (length message.now) ∷ Bytes "text" message.now ∷ [])) }
{
    let bytes = message.len();
    let said = string_text(alloc, message)?;
    let said = said.as_str();
    let fields = format!(in alloc; ",\"bytes\":{bytes},\"text\":{said}}}\n")?;
    Ok(fields)
}

/// The node starts again, and gives this pair next.
#[tactic(auto, unfolding(crate::specs::Json::object))]
fn write_restarted(at: AtNode, pair: Pair, out: &mut Lines) -> Result<(), NoMemory>
    ensures { OnOk result (out.new ≡ out.old ++ events.restarted_line at pair) }
{
    let Stand { event, line } = at.stand;
    let node = at.node;
    let index = pair.index;
    let ident = pair.ident;
    let object = format!(in out.alloc();
        "{{\"kind\":\"restarted\",\"event\":{event},\"line\":{line},\"node\":{node},\"index\":{index},\"ident\":{ident}}}\n"
    )?;
    out.text(object.as_str())?;
    Ok(())
}

/// A restart took an end away.
#[tactic(auto, unfolding(crate::specs::Json::object))]
fn write_lost_end(at: AtNode, lost: &LostEnd, out: &mut Lines) -> Result<(), NoMemory>
    ensures { OnOk result (out.new ≡ out.old ++ events.lost_end_line at lost.now.id lost.now.facts) }
{
    let Stand { event, line } = at.stand;
    let node = at.node;
    let end = lost.id;
    let facts = facts_fields(out.alloc(), &lost.facts)?;
    let facts = facts.as_str();
    let object = format!(in out.alloc();
        "{{\"kind\":\"lost_end\",\"event\":{event},\"line\":{line},\"node\":{node},\"end\":{end}{facts}"
    )?;
    out.text(object.as_str())?;
    Ok(())
}

/// A table was shown; its routes follow.
fn write_shown(stand: Stand, table: &Table, out: &mut Lines) -> Result<(), NoMemory>
    ensures { OnOk result (out.new ≡ out.old ++ events.shown_text stand table.now) }
{
    let at = stand.at(table.node());
    write_shown_head(at, table.routes().len(), out)?;
    write_shown_routes(at, table.routes(), out)?;
    Ok(())
}

#[tactic(auto, unfolding(crate::specs::Json::object))]
fn write_shown_head(at: AtNode, routes: usize, out: &mut Lines) -> Result<(), NoMemory>
    ensures { OnOk result (out.new ≡ out.old ++ events.shown_line at routes) }
{
    let Stand { event, line } = at.stand;
    let node = at.node;
    let object = format!(in out.alloc();
        "{{\"kind\":\"shown\",\"event\":{event},\"line\":{line},\"node\":{node},\"routes\":{routes}}}\n"
    )?;
    out.text(object.as_str())?;
    Ok(())
}

fn write_shown_routes(at: AtNode, routes: &[Route], out: &mut Lines) -> Result<(), NoMemory>
    ensures { OnOk result (out.new ≡ out.old ++ flat_map (events.shown_route_line at) routes.now) }
{
    for route in routes {
        write_shown_route(at, route, out)?;
    }
    Ok(())
}

#[tactic(auto, unfolding(crate::specs::Json::object))]
fn write_shown_route(at: AtNode, route: &Route, out: &mut Lines) -> Result<(), NoMemory>
    ensures { OnOk result (out.new ≡ out.old ++ events.shown_route_line at route.now) }
{
    let Stand { event, line } = at.stand;
    let node = at.node;
    let fields = route_fields(out.alloc(), route)?;
    let fields = fields.as_str();
    let object = format!(in out.alloc();
        "{{\"kind\":\"shown_route\",\"event\":{event},\"line\":{line},\"node\":{node}{fields}"
    )?;
    out.text(object.as_str())?;
    Ok(())
}

//! What the nodes tell: of their links, their tables and their circuits. Called by `events`.
ghost use Rattle.std.specs.Prelude.{◌≡◌, ◌++◌, [], ◌∷◌, OnOk, IfOk, string_bytes};
ghost use Rattle.std.specs.Fmt.{decimal};
ghost use Rattle.std.specs.Option.{option_map};
ghost use Rattle.ax_address.specs.Callsign as calls;
ghost use Rattle.circuit_table.specs.Standing.{event_told};
ghost use Rattle.node_core.specs.Standing.{entry_of};
ghost use Rattle.net_report.specs.ToldLines.{drop_word, notice_word};
ghost use Rattle.trace_lines.specs.Circuits as circuits;
ghost use Rattle.trace_lines.specs.Json.{Number, NumberOrNull, Octets, OctetsOrNull, Word, fields_text, hex_text, or_null, quoted};

use crate::json::{hex_text, number_or_null};
use crate::left::facts_fields;
use crate::lines::Lines;
use crate::stands::{AtNode, Stand};
use ax_address::Call;
use ax_link::LinkNotice;
use circuit_l4::{EndFacts, EndNotice, Pair};
use circuit_table::SetEvent;
use l3_datagram::{Datagram, Routed};
use net_report::{drop_word, link_word, notice_word};
use node_core::NodeEntry;
use radio_base::NoMemory;
use std::alloc::{AllocError, Global};

/// Appends the line of an entry of a node.
pub(crate) fn write_entry(at: AtNode, entry: &NodeEntry, out: &mut Lines) -> Result<(), NoMemory>
    ensures { OnOk result (out.new ≡ out.old ++ circuits.entry_text at (entry_of entry.now)) }
{
    match entry {
        NodeEntry::Link(peer, notice) => write_link(at, peer, notice, out),
        NodeEntry::Overflow { live, would_be } => { write_overflow(at, *live, *would_be, out) }
        NodeEntry::Set(event) => write_set_event(at, event, out),
    }
}

#[tactic(auto, unfolding(crate::specs::Json::object))]
fn write_link(at: AtNode, peer: &Call, notice: &LinkNotice, out: &mut Lines) -> Result<(), NoMemory>
    ensures { OnOk result (out.new ≡ out.old ++ circuits.link_line at peer.now notice.now) }
{
    let Stand { event, line } = at.stand;
    let node = at.node;
    let peer = peer.show();
    let peer = peer.as_str();
    let what = link_word(notice);
    let object = format!(in out.alloc();
        "{{\"kind\":\"link\",\"event\":{event},\"line\":{line},\"node\":{node},\"peer\":\"{peer}\",\"what\":\"{what}\"}}\n"
    )?;
    out.text(object.as_str())?;
    Ok(())
}

#[tactic(auto, unfolding(crate::specs::Json::object))]
fn write_overflow(at: AtNode, live: usize, would_be: usize, out: &mut Lines) -> Result<(), NoMemory>
    ensures { OnOk result (out.new ≡ out.old ++ circuits.overflow_line at live would_be) }
{
    let Stand { event, line } = at.stand;
    let node = at.node;
    let object = format!(in out.alloc();
        "{{\"kind\":\"overflow\",\"event\":{event},\"line\":{line},\"node\":{node},\"live\":{live},\"would_be\":{would_be}}}\n"
    )?;
    out.text(object.as_str())?;
    Ok(())
}

/// Appends the line of an event of a node's circuits.
fn write_set_event(at: AtNode, event: &SetEvent, out: &mut Lines) -> Result<(), NoMemory>
    ensures { OnOk result (out.new ≡ out.old ++ circuits.set_text at (event_told event.now)) }
{
    match event {
        SetEvent::Made {
            id,
            pair,
            partner,
            request,
        } => {
            let opening = Opening {
                pair: *pair,
                partner,
                request,
            };
            write_made(at, *id, &opening, out)
        }
        SetEvent::Sent {
            id,
            number,
            datagram,
        } => write_sent(at, *id, *number, datagram.as_slice(), out),
        SetEvent::Heeded { id, datagram } => { write_heeded(at, *id, datagram.as_slice(), out) }
        SetEvent::Notice { id, notice } => write_notice(at, *id, notice, out),
        SetEvent::Dropped(routed) => write_dropped(at, routed, out),
        SetEvent::Lost(neighbour) => write_lost_neighbour(at, neighbour, out),
        SetEvent::Gone { id, facts } => write_gone(at, *id, facts, out),
    }
}

/// With what an end was made: its pair, whom it is with, and the datagram of the request that has opened it.
#[derive(Drop)]
struct Opening<'a> {
    pair: Pair,
    partner: &'a Call,
    request: &'a Option<Datagram>,
}

/// An end was made. One that a request has opened has that datagram.
#[tactic(auto, unfolding(crate::specs::Json::object))]
fn write_made(at: AtNode, end: u64, opening: &Opening<'_>, out: &mut Lines) -> Result<(), NoMemory>
    ensures { OnOk result (out.new
        ≡ out.old ++ circuits.made_line at end opening.now.pair opening.now.partner.now
        (option_map (λ d. d.items) opening.now.request.now)) }
{
    let Stand { event, line } = at.stand;
    let node = at.node;
    let fields = made_fields(out.alloc(), opening)?;
    let fields = fields.as_str();
    let object = format!(in out.alloc();
        "{{\"kind\":\"made\",\"event\":{event},\"line\":{line},\"node\":{node},\"end\":{end}{fields}"
    )?;
    out.text(object.as_str())?;
    Ok(())
}

/// The fields from the pair on, and the end of their object.
fn made_fields(alloc: Global, opening: &Opening<'_>) -> Result<String, AllocError>
    ensures { IfOk result (λ s. string_bytes s ≡ fields_text (Number "index" opening.now.pair.index
        ∷ Number "ident" opening.now.pair.ident ∷ Word "partner" (calls.shown opening.now.partner.now)
        ∷ OctetsOrNull "request" (option_map (λ d. d.items) opening.now.request.now) ∷ [])) }
{
    let index = opening.pair.index;
    let ident = opening.pair.ident;
    let partner = opening.partner.show();
    let partner = partner.as_str();
    let request = request_text(alloc, opening.request)?;
    let request = request.as_str();
    let fields = format!(in alloc;
        ",\"index\":{index},\"ident\":{ident},\"partner\":\"{partner}\",\"request\":{request}}}\n"
    )?;
    Ok(fields)
}

#[tactic(auto, unfolding(crate::specs::Json::or_null))]
fn request_text(alloc: Global, request: &Option<Datagram>) -> Result<String, AllocError>
    ensures { IfOk result (λ s. string_bytes s ≡ or_null hex_text (option_map (λ d. d.items) request.now)) }
{
    match request {
        Some(datagram) => hex_text(alloc, datagram.as_slice()),
        None => "null".to_string(alloc),
    }
}

/// An end has sent a datagram, that of an information message with the number of its fragment.
#[tactic(auto, unfolding(crate::specs::Json::object))]
pub(crate) fn write_sent(
    at: AtNode,
    end: u64,
    number: Option<u64>,
    datagram: &[u8],
    out: &mut Lines,
) -> Result<(), NoMemory>
    ensures { OnOk result (out.new ≡ out.old ++ circuits.sent_line at end number datagram.now) }
{
    let Stand { event, line } = at.stand;
    let node = at.node;
    let fields = sent_fields(out.alloc(), number, datagram)?;
    let fields = fields.as_str();
    let object = format!(in out.alloc();
        "{{\"kind\":\"sent\",\"event\":{event},\"line\":{line},\"node\":{node},\"end\":{end}{fields}"
    )?;
    out.text(object.as_str())?;
    Ok(())
}

/// The fields from the number of the fragment on, and the end of their object.
fn sent_fields(alloc: Global, number: Option<u64>, datagram: &[u8]) -> Result<String, AllocError>
    ensures { IfOk result (λ s. string_bytes s
        ≡ fields_text (NumberOrNull "fragment" number ∷ Octets "octets" datagram.now ∷ [])) }
{
    let fragment = number_or_null(alloc, number)?;
    let fragment = fragment.as_str();
    let octets = hex_text(alloc, datagram)?;
    let octets = octets.as_str();
    let fields = format!(in alloc; ",\"fragment\":{fragment},\"octets\":{octets}}}\n")?;
    Ok(fields)
}

/// An end has taken in a datagram of its partner's node.
#[tactic(auto, unfolding(crate::specs::Json::object))]
pub(crate) fn write_heeded(
    at: AtNode,
    end: u64,
    datagram: &[u8],
    out: &mut Lines,
) -> Result<(), NoMemory>
    ensures { OnOk result (out.new ≡ out.old ++ circuits.heeded_line at end datagram.now) }
{
    let Stand { event, line } = at.stand;
    let node = at.node;
    let octets = hex_text(out.alloc(), datagram)?;
    let octets = octets.as_str();
    let object = format!(in out.alloc();
        "{{\"kind\":\"heeded\",\"event\":{event},\"line\":{line},\"node\":{node},\"end\":{end},\"octets\":{octets}}}\n"
    )?;
    out.text(object.as_str())?;
    Ok(())
}

/// What has become of a circuit, with its window where it opened.
#[tactic(auto, unfolding(crate::specs::Json::object))]
fn write_notice(at: AtNode, end: u64, notice: &EndNotice, out: &mut Lines) -> Result<(), NoMemory>
    ensures { OnOk result (out.new ≡ out.old ++ circuits.notice_line at end notice.now) }
{
    let Stand { event, line } = at.stand;
    let node = at.node;
    let fields = notice_fields(out.alloc(), notice)?;
    let fields = fields.as_str();
    let object = format!(in out.alloc();
        "{{\"kind\":\"notice\",\"event\":{event},\"line\":{line},\"node\":{node},\"end\":{end}{fields}"
    )?;
    out.text(object.as_str())?;
    Ok(())
}

/// The fields of a notice, and the end of their object.
fn notice_fields(alloc: Global, notice: &EndNotice) -> Result<String, AllocError>
    ensures { IfOk result (λ s. string_bytes s
        ≡ fields_text (Word "what" (notice_word notice.now)
        ∷ NumberOrNull "window" (circuits.window_of notice.now) ∷ [])) }
{
    let what = notice_word(notice);
    let window = window_text(alloc, notice)?;
    let window = window.as_str();
    let fields = format!(in alloc; ",\"what\":\"{what}\",\"window\":{window}}}\n")?;
    Ok(fields)
}

#[tactic(auto, unfolding(crate::specs::Json::or_null))]
fn window_text(alloc: Global, notice: &EndNotice) -> Result<String, AllocError>
    ensures { IfOk result (λ s. string_bytes s ≡ or_null decimal (circuits.window_of notice.now)) }
{
    match notice {
        EndNotice::Opened { window } => format!(in alloc; "{window}"),
        _ => "null".to_string(alloc),
    }
}

/// A datagram came to nothing.
#[tactic(auto, unfolding(crate::specs::Json::object))]
fn write_dropped(at: AtNode, routed: &Routed, out: &mut Lines) -> Result<(), NoMemory>
    ensures { OnOk result (out.new ≡ out.old ++ circuits.dropped_line at routed.now) }
{
    let Stand { event, line } = at.stand;
    let node = at.node;
    let why = drop_text(out.alloc(), routed)?;
    let why = why.as_str();
    let object = format!(in out.alloc();
        "{{\"kind\":\"dropped\",\"event\":{event},\"line\":{line},\"node\":{node},\"why\":{why}}}\n"
    )?;
    out.text(object.as_str())?;
    Ok(())
}

#[tactic(auto, unfolding(crate::specs::Json::or_null))]
fn drop_text(alloc: Global, routed: &Routed) -> Result<String, AllocError>
    ensures { IfOk result (λ s. string_bytes s ≡ or_null quoted (drop_word routed.now)) }
{
    match drop_word(routed) {
        Some(why) => format!(in alloc; "\"{why}\""),
        None => "null".to_string(alloc),
    }
}

/// The routes over a neighbour have ended.
#[tactic(auto, unfolding(crate::specs::Json::object))]
fn write_lost_neighbour(at: AtNode, neighbour: &Call, out: &mut Lines) -> Result<(), NoMemory>
    ensures { OnOk result (out.new ≡ out.old ++ circuits.lost_neighbour_line at neighbour.now) }
{
    let Stand { event, line } = at.stand;
    let node = at.node;
    let neighbour = neighbour.show();
    let neighbour = neighbour.as_str();
    let object = format!(in out.alloc();
        "{{\"kind\":\"lost_neighbour\",\"event\":{event},\"line\":{line},\"node\":{node},\"neighbour\":\"{neighbour}\"}}\n"
    )?;
    out.text(object.as_str())?;
    Ok(())
}

/// An end is held no longer.
#[tactic(auto, unfolding(crate::specs::Json::object))]
fn write_gone(at: AtNode, end: u64, facts: &EndFacts, out: &mut Lines) -> Result<(), NoMemory>
    ensures { OnOk result (out.new ≡ out.old ++ circuits.gone_line at end facts.now) }
{
    let Stand { event, line } = at.stand;
    let node = at.node;
    let facts = facts_fields(out.alloc(), facts)?;
    let facts = facts.as_str();
    let object = format!(in out.alloc();
        "{{\"kind\":\"gone\",\"event\":{event},\"line\":{line},\"node\":{node},\"end\":{end}{facts}"
    )?;
    out.text(object.as_str())?;
    Ok(())
}

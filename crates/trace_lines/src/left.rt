//! The nodes as they were left: their tables, and the ends that they ever made. Called by `circuits`, `events` and `traces`.
ghost use Rattle.std.specs.Prelude.{◌≡◌, ◌++◌, List, Option, OnOk, IfOk, string_bytes, flat_map};
ghost use Rattle.std.specs.Fmt.{decimal};
ghost use Rattle.node_core.specs.Standing.{NodeStands};
ghost use Rattle.node_model.specs.States.{NodeState};
ghost use Rattle.net_report.specs.Reporting.{ends_left};
ghost use Rattle.net_model.specs.Starting.{Placed};
ghost use Rattle.net_model.specs.Standing.{MailStands, MembersStand};
ghost use Rattle.net_model.specs.Traces.{left_of};
ghost use Rattle.node_mail.specs.Lists.{Lists};
ghost use Rattle.trace_lines.specs.Json.{fields_text, or_null};
ghost use Rattle.trace_lines.specs.Left as left;

use crate::json::alias_text;
use crate::lines::Lines;
use crate::mails::write_left_mail;
use ax_address::Call;
use circuit_l4::EndFacts;
use net_model::{EndRecord, Member, Outcome, Table, Trace, shown};
use net_report::phase_word;
use node_core::Node;
use radio_base::NoMemory;
use route_table::Route;
use std::alloc::{AllocError, Global};

/// An end: its node, its number there, and whom it is with.
#[derive(Drop)]
struct EndName {
    node: u8,
    id: u64,
    partner: Call,
}

/// Appends the tables and the ends of the nodes, by number.
pub(crate) fn write_nodes(
    trace: &Trace,
    members: &[Member],
    out: &mut Lines,
) -> Result<(), NoMemory>
    ensures { OnOk result ((placed : List Placed) (kept : List (Option Lists)) → MembersStand members.now placed kept
        → out.new ≡ out.old ++ left.nodes_trace (ends_left (left_of trace.now)) placed kept) }
{
    match members {
        [] => Ok(()),
        [first, others @ ..] => {
            write_node(trace, first, out)?;
            write_nodes(trace, others, out)?;
            Ok(())
        }
    }
}

fn write_node(trace: &Trace, member: &Member, out: &mut Lines) -> Result<(), NoMemory>
    ensures { OnOk result ((p : Placed) (kept : Option Lists) → member.now.declared ≡ p.declared
        → NodeStands member.now.node p.state → MailStands member.now.mail kept
        → out.new ≡ out.old ++ left.kept_trace (ends_left (left_of trace.now)) p kept) }
{
    let table = shown(out.alloc(), &member.declared, &member.node)?;
    write_table(&table, out)?;
    let number = member.declared.node;
    write_ends(number, trace.ends_of(number), &member.node, out)?;
    write_left_mail(number, &member.mail, out)?;
    Ok(())
}

fn write_table(table: &Table, out: &mut Lines) -> Result<(), NoMemory>
    ensures { OnOk result (out.new ≡ out.old ++ left.table_text table.now) }
{
    write_head(table.node(), table.routes().len(), out)?;
    write_routes(table.node(), table.routes(), out)?;
    Ok(())
}

#[tactic(auto, unfolding(crate::specs::Json::object))]
fn write_head(node: u8, routes: usize, out: &mut Lines) -> Result<(), NoMemory>
    ensures { OnOk result (out.new ≡ out.old ++ left.table_line node routes) }
{
    let object = format!(in out.alloc();
        "{{\"kind\":\"table\",\"node\":{node},\"routes\":{routes}}}\n"
    )?;
    out.text(object.as_str())?;
    Ok(())
}

fn write_routes(node: u8, routes: &[Route], out: &mut Lines) -> Result<(), NoMemory>
    ensures { OnOk result (out.new ≡ out.old ++ flat_map (left.route_line node) routes.now) }
{
    for route in routes {
        write_route(node, route, out)?;
    }
    Ok(())
}

#[tactic(auto, unfolding(crate::specs::Json::object))]
fn write_route(node: u8, route: &Route, out: &mut Lines) -> Result<(), NoMemory>
    ensures { OnOk result (out.new ≡ out.old ++ left.route_line node route.now) }
{
    let fields = route_fields(out.alloc(), route)?;
    let fields = fields.as_str();
    let object = format!(in out.alloc(); "{{\"kind\":\"route\",\"node\":{node}{fields}")?;
    out.text(object.as_str())?;
    Ok(())
}

/// The fields of a route, and the end of its object. A route that is locked has no count.
#[tactic(auto, unfolding(crate::specs::Left::route_fields))]
pub(crate) fn route_fields(alloc: Global, route: &Route) -> Result<String, AllocError>
    ensures { IfOk result (λ s. string_bytes s ≡ fields_text (left.route_fields route.now)) }
{
    let dest = route.dest.show();
    let dest = dest.as_str();
    let alias = alias_text(alloc, route.alias)?;
    let alias = alias.as_str();
    let neighbour = route.neighbour.show();
    let neighbour = neighbour.as_str();
    let quality = route.quality;
    let count = count_text(alloc, route.count)?;
    let count = count.as_str();
    let fields = format!(in alloc;
        ",\"dest\":\"{dest}\",\"alias\":{alias},\"neighbour\":\"{neighbour}\",\"quality\":{quality},\"count\":{count}}}\n"
    )?;
    Ok(fields)
}

#[tactic(auto, unfolding(crate::specs::Json::or_null))]
fn count_text(alloc: Global, count: Option<u8>) -> Result<String, AllocError>
    ensures { IfOk result (λ s. string_bytes s ≡ or_null decimal count) }
{
    match count {
        Some(count) => format!(in alloc; "{count}"),
        None => "null".to_string(alloc),
    }
}

/// The ends that a node ever made, as they were left.
fn write_ends(number: u8, ends: &[EndRecord], node: &Node, out: &mut Lines) -> Result<(), NoMemory>
    ensures { OnOk result ((n : NodeState) → NodeStands node.now n
        → out.new ≡ out.old ++ left.ends_text number 1 ends.now n.station.set.set.ends) }
{
    for (place, end) in ends.iter().enumerate() {
        let id = place as u64 + 1;
        write_end(number, id, end, node.facts(id), out)?;
    }
    Ok(())
}

/// Appends the line of an end. One that is held has these facts.
fn write_end(
    node: u8,
    id: u64,
    end: &EndRecord,
    held: Option<EndFacts>,
    out: &mut Lines,
) -> Result<(), NoMemory>
    ensures { OnOk result (out.new ≡ out.old ++ left.end_text node id end.now held) }
{
    let name = EndName {
        node,
        id,
        partner: end.partner,
    };
    match end.outcome {
        Outcome::Lost(facts) => write_left(&name, "lost", &facts, out),
        Outcome::Gone(facts) => write_left(&name, "gone", &facts, out),
        Outcome::Held => write_held(&name, held, out),
    }
}

fn write_held(name: &EndName, held: Option<EndFacts>, out: &mut Lines) -> Result<(), NoMemory>
    ensures { OnOk result (out.new ≡ out.old ++ left.held_text name.now.node name.now.id name.now.partner held) }
{
    match held {
        Some(facts) => write_left(name, "held", &facts, out),
        None => Ok(()),
    }
}

#[tactic(auto, unfolding(crate::specs::Json::object))]
fn write_left(
    name: &EndName,
    outcome: &str,
    facts: &EndFacts,
    out: &mut Lines,
) -> Result<(), NoMemory>
    ensures { OnOk result (out.new
        ≡ out.old ++ left.end_line name.now.node name.now.id name.now.partner outcome.now facts.now) }
{
    let node = name.node;
    let end = name.id;
    let partner = name.partner.show();
    let partner = partner.as_str();
    let facts = facts_fields(out.alloc(), facts)?;
    let facts = facts.as_str();
    let object = format!(in out.alloc();
        "{{\"kind\":\"end\",\"node\":{node},\"end\":{end},\"partner\":\"{partner}\",\"outcome\":\"{outcome}\"{facts}"
    )?;
    out.text(object.as_str())?;
    Ok(())
}

/// The fields of the facts of an end, and the end of their object.
#[tactic(auto, unfolding(crate::specs::Left::facts_fields))]
pub(crate) fn facts_fields(alloc: Global, facts: &EndFacts) -> Result<String, AllocError>
    ensures { IfOk result (λ s. string_bytes s ≡ fields_text (left.facts_fields facts.now)) }
{
    let phase = phase_word(facts.phase);
    let window = facts.window;
    let wrote = facts.wrote;
    let received = facts.received;
    let counts = count_fields(alloc, facts)?;
    let counts = counts.as_str();
    let fields = format!(in alloc;
        ",\"phase\":\"{phase}\",\"window\":{window},\"wrote\":{wrote},\"received\":{received}{counts}"
    )?;
    Ok(fields)
}

/// What of that counts fragments and bytes.
fn count_fields(alloc: Global, facts: &EndFacts) -> Result<String, AllocError>
    ensures { IfOk result (λ s. string_bytes s ≡ fields_text (left.count_fields facts.now)) }
{
    let acked = facts.acked;
    let waiting = facts.waiting;
    let queued = facts.queued;
    let fields = format!(in alloc;
        ",\"acked\":{acked},\"waiting\":{waiting},\"queued\":{queued}}}\n"
    )?;
    Ok(fields)
}

//! The nodes of a replay as they start, by number, and their tables as they are shown. Called by net_world, and `shown` by the crates of
//! reports and traces.
ghost use Rattle.std.specs.Prelude.{◌≡◌, ◌≤◌, ◌++◌, filter, map, IfOk, OnOk};
ghost use Rattle.ax_address.specs.Callsign.{IsCallsign};
ghost use Rattle.circuit_table.specs.Pairs.{IsPair};
ghost use Rattle.circuit_table.specs.Runs.{AreStarts, IsStart};
ghost use Rattle.node_core.specs.Standing.{NodeStands};
ghost use Rattle.node_model.specs.States.{NodeState};
ghost use Rattle.net_model.specs.SoundPlans.{set_of, sets_of};
ghost use Rattle.net_model.specs.Lines as lines;
ghost use Rattle.net_model.specs.Starting as starting;
ghost use Rattle.net_model.specs.Standing.{MailStands, MemberStands, MembersStand};

use crate::members::Member;
use crate::table::Table;
use ax_address::Call;
use circuit_l4::Pair;
use network_file::{Declaration, Key, MAX_NODES, Network, Setting, value_of};
use node_core::Node;
use node_mail::Store;
use node_settings::{config_of, set_paths};
use radio_base::NoMemory;
use std::alloc::Global;

/// The declarations by number.
pub fn declared_by_number(alloc: Global, network: &Network) -> Result<Vec<Declaration>, NoMemory>
    ensures { IfOk result (λ declared. declared.items ≡ starting.by_number network.now.declared 1 16) }
{
    let mut all = Vec::new(alloc);
    for number in 1..MAX_NODES as u8 + 1 {
        add_declared(network.declared(), number, &mut all)?;
    }
    Ok(all)
}

/// Appends the declarations of a number.
fn add_declared(
    declared: &[Declaration],
    number: u8,
    all: &mut Vec<Declaration>,
) -> Result<(), NoMemory>
    ensures { OnOk result (all.new.items ≡ all.old.items ++ filter (starting.has_number number) declared.now) }
{
    for one in declared {
        if one.node == number {
            all.push(*one)?;
        }
    }
    Ok(())
}

/// Nodes of these declarations, as they start, and their mail.
pub fn members_of(
    alloc: Global,
    network: &Network,
    declared: &[Declaration],
) -> Result<Vec<Member>, NoMemory>
    ensures stand { IfOk result (λ members. MembersStand members.items (map (starting.new_placed network.now) declared.now)
        (map (starting.new_mail network.now.settings) declared.now)) }
    ensures starts { IfOk result (λ _. AreStarts (sets_of (map (starting.new_placed network.now) declared.now))) }
{
    let mut members = Vec::new(alloc);
    for one in declared {
        members.push(new_member(alloc, network, one)?)?;
    }
    Ok(members)
}

/// A node that starts for the first time: it gives the pair (1, 1) first, and numbers its ends from 1.
fn new_member(alloc: Global, network: &Network, declared: &Declaration) -> Result<Member, NoMemory>
    ensures stands { IfOk result (λ member. MemberStands member (starting.new_placed network.now declared.now)
        (starting.new_mail network.now.settings declared.now)) }
    ensures start { IfOk result (λ _. IsStart (set_of (starting.new_placed network.now declared.now))) }
{
    let first = Pair { index: 1, ident: 1 };
    let node = started(alloc, network, declared, first, 1)?;
    let mail = new_mail(alloc, network.settings(), declared);
    Ok(Member {
        declared: *declared,
        node,
        mail,
    })
}

/// The mail of a node as it starts: none where the node keeps none.
fn new_mail(alloc: Global, settings: &[Setting], declared: &Declaration) -> Option<Store>
    ensures { MailStands result (starting.new_mail settings.now declared.now) }
{
    if value_of(settings, declared.node, Key::Mail) == 1 {
        Some(Store::new(alloc, declared.call))
    } else {
        None
    }
}

/// A node as it starts, with the pair and the number of its first end.
pub fn started(
    alloc: Global,
    network: &Network,
    declared: &Declaration,
    pair: Pair,
    first: u64,
) -> Result<Node, NoMemory>
    requires pair { IsPair pair }
    requires first { 1 ≤ first }
    requires last { first ≤ 4611686018427387905 }
    ensures stands { IfOk result (λ node. NodeStands node (starting.started network.now declared.now pair first)) }
    ensures start { IfOk result (λ _. IsStart (starting.started network.now declared.now pair first).station.set.set) }
{
    let config = config_of(declared, network.settings(), pair, first);
    is_callsign(&declared.call);
    let mut node = Node::new(alloc, config)?;
    set_paths(&mut node, declared.node, network.vias())?;
    Ok(node)
}

/// What holds of every call.
pub fn is_callsign(call: &Call)
    ensures { IsCallsign call.now.letters call.now.ssid }
{
    let _ = call.ssid();
}

/// A node's table, as it is shown.
pub fn shown(alloc: Global, declared: &Declaration, node: &Node) -> Result<Table, NoMemory>
    ensures { IfOk result (λ table. (n : NodeState) → NodeStands node.now n
        → table ≡ lines.table_of (record { declared = declared.now; state = n })) }
{
    let routes = node.routes().routes_of_all(alloc)?;
    Ok(Table::new(declared.node, declared.call, declared.alias, routes))
}

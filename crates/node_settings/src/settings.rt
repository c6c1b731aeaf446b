//! The settings of a file as a node takes them. Called by the replay and `node_cmd`.
ghost use Rattle.std.specs.Prelude.{◌≡◌, ◌≤◌};
ghost use Rattle.ax_link.specs.State.{count_end};
ghost use Rattle.circuit_l4.specs.Opening as ends;
ghost use Rattle.circuit_table.specs.Pairs.{IsPair};
ghost use Rattle.node_core.specs.Configs.{IsConfig};
ghost use Rattle.route_table.specs.Held.{AreRules};
ghost use Rattle.node_settings.specs.Settings as node_settings;

use ax_link::LinkConfig;
use circuit_l4::{EndConfig, Pair};
use network_file::{Declaration, Key, Setting, value_of};
use node_core::NodeConfig;
use route_table::RouteRules;

/// How a node starts: with its settings, this pair and this number for its first end.
pub fn config_of(declared: &Declaration, settings: &[Setting], pair: Pair, first: u64) -> NodeConfig
    requires pair { IsPair pair }
    requires first { 1 ≤ first }
    requires last { first ≤ 4611686018427387905 }
    ensures value { result ≡ node_settings.config_of settings.now declared.now pair first }
    ensures good { IsConfig result }
{
    let node = declared.node;
    NodeConfig {
        call: declared.call,
        alias: declared.alias,
        routes: route_rules(settings, node),
        quality: value_of(settings, node, Key::PathQuality) as u8,
        ttl: value_of(settings, node, Key::TimeToLive) as u8,
        ends: end_config(settings, node),
        links: value_of(settings, node, Key::Links) == 1,
        modulo128: value_of(settings, node, Key::Modulo) == 128,
        link: link_config(settings, node),
        prompt: value_of(settings, node, Key::Prompt) == 1,
        interval: value_of(settings, node, Key::Interval) as u64,
        pair,
        first,
    }
}

fn route_rules(settings: &[Setting], node: u8) -> RouteRules
    ensures value { result ≡ node_settings.route_rules settings.now node }
    ensures good { AreRules result }
{
    RouteRules {
        life: value_of(settings, node, Key::Life) as u8,
        least: value_of(settings, node, Key::Least) as u8,
        minq: value_of(settings, node, Key::MinimumQuality) as u8,
    }
}

fn end_config(settings: &[Setting], node: u8) -> EndConfig
    ensures value { result ≡ node_settings.end_config settings.now node }
    ensures good { ends.IsConfig result }
{
    EndConfig {
        window: value_of(settings, node, Key::Window) as u8,
        timeout: value_of(settings, node, Key::Timeout) as u64,
        retries: value_of(settings, node, Key::Retries) as u8,
        busy: value_of(settings, node, Key::Busy) as u64,
        inactive: value_of(settings, node, Key::Inactive) as u64,
    }
}

fn link_config(settings: &[Setting], node: u8) -> LinkConfig
    ensures value { result ≡ node_settings.link_config settings.now node }
    ensures t1 { result.t1 ≤ count_end }
    ensures t3 { result.t3 ≤ count_end }
{
    LinkConfig {
        window: value_of(settings, node, Key::LinkWindow) as u8,
        srej: value_of(settings, node, Key::SelectiveReject) == 1,
        t1: value_of(settings, node, Key::T1) as u64,
        t3: value_of(settings, node, Key::T3) as u64,
        retries: value_of(settings, node, Key::LinkRetries) as u8,
    }
}

//! A node that runs alone, as it starts. Called by `live`.
ghost use Rattle.std.specs.Prelude.{◌≡◌, IfOk};
ghost use Rattle.circuit_table.specs.Pairs.{IsPair};
ghost use Rattle.node_core.specs.Configs.{IsConfig};
ghost use Rattle.node_core.specs.Standing.{NodeStands};
ghost use Rattle.node_cmd.specs.Starting as starting;

use circuit_l4::Pair;
use network_file::{FirstPair, Key, LiveNode, set_to};
use node_core::{Node, NodeConfig};
use node_settings::{config_of, set_paths};
use radio_base::NoMemory;
use std::alloc::Global;

/// How many milliseconds it waits between its rounds where nothing else is said: an hour.
const LIVE_INTERVAL: u32 = 3_600_000;

/// The declared node, as it starts.
pub(crate) fn live_node(alloc: Global, live: &LiveNode) -> Result<Node, NoMemory>
    ensures { IfOk result (λ node. NodeStands node (starting.live_started live.now)) }
{
    let mut node = Node::new(alloc, live_config(live))?;
    set_paths(&mut node, live.declared.node, live.vias.as_slice())?;
    Ok(node)
}

/// How it starts: as it is declared, but that its users are served at a prompt and that it does a round each hour where it isn't said
/// otherwise.
fn live_config(live: &LiveNode) -> NodeConfig
    ensures value { result ≡ starting.live_config live.now }
    ensures good { IsConfig result }
{
    let settings = live.settings.as_slice();
    let node = live.declared.node;
    let mut config = config_of(&live.declared, settings, first_pair(&live.pair), 1);
    config.prompt = set_to(settings, node, Key::Prompt).unwrap_or(1) == 1;
    config.interval = set_to(settings, node, Key::Interval).unwrap_or(LIVE_INTERVAL) as u64;
    config
}

/// The pair that it gives first: (1, 1) where none is named.
fn first_pair(named: &Option<FirstPair>) -> Pair
    ensures value { result ≡ starting.first_pair named.now }
    ensures good { IsPair result }
{
    match named {
        Some(pair) => Pair {
            index: pair.index(),
            ident: pair.ident(),
        },
        None => Pair { index: 1, ident: 1 },
    }
}

//! The settings of members, by their tables. Called when the members of a file are made.
ghost use Rattle.std.specs.Prelude.{◌≡◌, ◌<◌, ◌≤◌, ◌+◌, ◌∷◌, ◌++◌, [], false, filter, length, IsTrue};
ghost use Rattle.circuit_table.specs.Pairs.{IsPair};
ghost use Rattle.node_core.specs.Configs.{IsConfig};
ghost use Rattle.station_file.specs.Stations.{has_small_pieces};
ghost use Rattle.station_settings.specs.Starting as starting;

use arrayvec::ArrayVec;
use circuit_l4::Pair;
use network_file::Declaration;
use node_core::NodeConfig;
use node_settings::config_of;
use station_file::{Member, Post};
use station_members::{MemberConfig, MemberRules};
use station_ports::MAX_PORTS;

/// How long after its first tick the post does its first round, in milliseconds.
const POST_FIRST: u64 = 60_000;

/// How long after a round of its own it does the next, in milliseconds.
const POST_INTERVAL: u64 = 3_600_000;

/// The settings of a member that serves users, as a file declares it.
pub(crate) fn member_config(member: &Member, pair: Pair) -> MemberConfig
    requires pair { IsPair pair }
    requires small { IsTrue (has_small_pieces member.now) }
    ensures value { result ≡ starting.member_config pair member.now }
    ensures good { IsConfig result.node }
    ensures hosted { result.node.prompt ≡ false }
{
    MemberConfig {
        node: hosted(config_of(&member.declared, member.settings.as_slice(), pair, 1)),
        rules: rules_of(member),
    }
}

fn rules_of(member: &Member) -> MemberRules
    requires { IsTrue (has_small_pieces member.now) }
    ensures { result ≡ starting.rules_of member.now }
{
    MemberRules {
        ports: ports_of(member.ports.as_slice()),
        digipeat: member.digipeat,
        users: member.users,
        t2: member.t2 as u64,
        paclen: member.paclen as u16,
        first: member.first as u64,
    }
}

/// The ports of these numbers, which count from 1: from 0, in the order of the station's.
fn ports_of(numbers: &[u8]) -> ArrayVec<u8, MAX_PORTS>
    ensures { result.items ≡ starting.ports_of numbers.now }
{
    let mut ports = ArrayVec::new();
    for port in 0..MAX_PORTS as u8 {
        add_port(&mut ports, numbers, port);
    }
    ports
}

fn add_port(ports: &mut ArrayVec<u8, MAX_PORTS>, numbers: &[u8], port: u8)
    requires room { length ports.old.items < 8 }
    requires port { port < 8 }
    ensures items { ports.new.items ≡ ports.old.items ++ filter (starting.is_port_of numbers.now) (port ∷ []) }
    ensures more { length ports.new.items ≤ length ports.old.items + 1 }
{
    if has_number(numbers, port + 1) {
        ports.push(port);
    }
}

fn has_number(numbers: &[u8], number: u8) -> bool
    ensures { result ≡ starting.has_number numbers.now number }
{
    numbers.iter().any(|one| *one == number)
}

/// The post stands on no port, and goes by the defaults.
pub(crate) fn post_config(post: &Post, pair: Pair) -> MemberConfig
    requires pair { IsPair pair }
    ensures value { result ≡ starting.post_config pair post.now }
    ensures good { IsConfig result.node }
    ensures hosted { result.node.prompt ≡ false }
{
    let declared = Declaration {
        node: 1,
        call: post.call,
        alias: post.alias,
    };
    MemberConfig {
        node: hourly(hosted(config_of(&declared, &[], pair, 1))),
        rules: MemberRules {
            ports: ArrayVec::new(),
            digipeat: true,
            users: false,
            t2: 0,
            paclen: 256,
            first: POST_FIRST,
        },
    }
}

/// Its users are served by the station.
fn hosted(config: NodeConfig) -> NodeConfig
    requires { IsConfig config }
    ensures value { result ≡ starting.hosted config }
    ensures good { IsConfig result }
{
    let mut config = config;
    config.prompt = false;
    config
}

/// It does rounds by itself, one each hour.
fn hourly(config: NodeConfig) -> NodeConfig
    requires { IsConfig config }
    ensures value { result ≡ starting.hourly config }
    ensures good { IsConfig result }
{
    let mut config = config;
    config.interval = POST_INTERVAL;
    config
}

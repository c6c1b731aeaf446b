//! Transports become octets (NET/ROM, Appendix B, level 4). Called by `circuit_table`.
ghost use Rattle.std.specs.Prelude.{◌≡◌, ◌+◌, ◌≤◌};
ghost use Rattle.ax_address.specs.Callsign.{IsCallsign};
ghost use Rattle.circuit_l4.specs.Transports as octet;
ghost use Rattle.circuit_l4.specs.Spelling.{IsTransport};

use crate::{Flags, Pair, Transport, laws};
use arrayvec::ArrayVec;
use ax_address::{Call, write_net_call};

type Octets = ArrayVec<u8, 241>;

/// The octets of a transport. What is ignored where it is read is written 0.
pub fn write_transport(transport: &Transport) -> ArrayVec<u8, 241>
    ensures exact { result.items ≡ octet.transport_octets transport.now }

    // What is written spells the transport.
    ensures spelled { octet.SpellsTransport transport.now result.items }
{
    // By the laws of the spelling the octets that it defines spell the transport.
    laws::transport_spelling();
    octets_of(transport)
}

fn octets_of(transport: &Transport) -> Octets
    ensures exact { result.items ≡ octet.transport_octets transport.now }
    ensures is_transport { IsTransport transport.now }
{
    match transport {
        Transport::Request {
            pair,
            window,
            user,
            node,
        } => request_octets(pair, *window, user, node),
        Transport::Accept { to, own, window } => {
            let mut octets = headed(to, own.index, own.ident, 2);
            octets.push(*window);
            octets
        }
        Transport::Refuse { to } => {
            let mut octets = headed(to, 0, 0, 2 + 128);
            octets.push(0);
            octets
        }
        Transport::Disconnect { to } => headed(to, 0, 0, 3),
        Transport::Disconnected { to } => headed(to, 0, 0, 4),
        Transport::Info {
            to,
            tx,
            rx,
            flags,
            text,
        } => {
            let mut octets = headed(to, *tx, *rx, 5 + flag_bits(flags));
            let _ = octets.try_extend_from_slice(text.as_slice());
            octets
        }
        Transport::InfoAck { to, rx, flags } => headed(to, 0, *rx, 6 + flag_bits(flags)),
    }
}

fn request_octets(pair: &Pair, window: u8, user: &Call, node: &Call) -> Octets
    ensures exact { result.items ≡ octet.request_octets pair.now window user.now node.now }
    ensures user { IsCallsign user.now.letters user.now.ssid }
    ensures node { IsCallsign node.now.letters node.now.ssid }
{
    let mut octets = headed(pair, 0, 0, 1);
    octets.push(window);
    let _ = octets.try_extend_from_slice(&write_net_call(user));
    let _ = octets.try_extend_from_slice(&write_net_call(node));
    octets
}

/// The five octets that each transport begins with.
fn headed(to: &Pair, third: u8, fourth: u8, opcode: u8) -> Octets
    ensures { result.items ≡ octet.headed to.now third fourth opcode }
{
    let mut octets = Octets::new();
    let _ = octets.try_extend_from_slice(&[to.index, to.ident, third, fourth, opcode]);
    octets
}

/// The flags where they stand in octet 4.
fn flag_bits(flags: &Flags) -> u8
    ensures exact { result ≡ octet.flag_bits flags.now }
    ensures bound { result ≤ 224 }
{
    let choke = if flags.choke { 128 } else { 0 };
    let nak = if flags.nak { 64 } else { 0 };
    let more = if flags.more { 32 } else { 0 };
    choke + nak + more
}

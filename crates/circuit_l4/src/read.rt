//! Octets become transports (NET/ROM, Appendix B, level 4). Called by `circuit_table` and `frame_lines`.
ghost use Rattle.std.specs.Prelude.{◌≡◌, ◌+◌, ◌<◌, ◌≤◌, Ok, length, take, drop, IfOk, IsOk, false};
ghost use Rattle.ax_address.specs.Octets.{SpellsNetCall};
ghost use Rattle.circuit_l4.specs.Transports as octet;
ghost use Rattle.circuit_l4.specs.declared.transport.Transport.{Transport};

use crate::transport::HEAD_SIZE;
use crate::{Flags, MAX_TRANSPORT, Pair, Transport, TransportRefusal, laws};
use arrayvec::ArrayVec;
use ax_address::{Call, address_fault, read_net_call};

/// The transport that the octets spell, or the first reason for which they spell none: more than 241 of them, and then
/// the first octet that is missing or can't stand at its place.
pub fn read_transport(bytes: &[u8]) -> Result<Transport, TransportRefusal>
    // What is read is spelled so.
    ensures found { IfOk result (λ transport. octet.SpellsTransport transport bytes.now) }

    // What is spelled so is read.
    ensures only { (transport : Transport) → octet.SpellsTransport transport bytes.now → result ≡ Ok transport }

    // Which refusal it is.
    ensures exact { result ≡ octet.transport_at bytes.now }
{
    // By the laws of the spelling none that is spelled is refused.
    laws::transport_spelling();
    transport_of(bytes)
}

#[tactic(auto, unfolding(crate::specs::Transports::transport_at))]
fn transport_of(bytes: &[u8]) -> Result<Transport, TransportRefusal>
    ensures found { IfOk result (λ transport. octet.SpellsTransport transport bytes.now) }
    ensures exact { result ≡ octet.transport_at bytes.now }
{
    if bytes.len() > MAX_TRANSPORT {
        return Err(TransportRefusal::TooLong);
    }
    if bytes.len() < HEAD_SIZE {
        return Err(TransportRefusal::Short { at: bytes.len() });
    }
    of_opcode(bytes)
}

/// The transport of the opcode in octet 4.
fn of_opcode(bytes: &[u8]) -> Result<Transport, TransportRefusal>
    requires whole { 5 ≤ length bytes.now }
    requires fits { length bytes.now ≤ 241 }
    ensures found { IfOk result (λ transport. octet.SpellsTransport transport bytes.now) }
    ensures exact { result ≡ octet.of_opcode bytes.now }
{
    let to = pair_at(0, bytes);
    // Bits 3 to 0 are the opcode, and bit 4 must be 0.
    match bytes[4] % 32 {
        1 => request_in(bytes),
        2 if flags_in(bytes).choke => Ok(Transport::Refuse { to }),
        2 => accept_in(bytes),
        3 => Ok(Transport::Disconnect { to }),
        4 => Ok(Transport::Disconnected { to }),
        5 => Ok(info_in(bytes)),
        6 => Ok(Transport::InfoAck {
            to,
            rx: bytes[3],
            flags: flags_in(bytes),
        }),
        _ => Err(TransportRefusal::BadOpcode),
    }
}

#[tactic(auto, unfolding(crate::specs::Transports::request_at))]
fn request_in(bytes: &[u8]) -> Result<Transport, TransportRefusal>
    requires whole { 5 ≤ length bytes.now }
    requires fits { length bytes.now ≤ 241 }
    requires opcode { octet.opcode bytes.now ≡ 1 }
    ensures found { IfOk result (λ transport. octet.SpellsTransport transport bytes.now) }
    ensures exact { result ≡ octet.request_at bytes.now }
{
    let window = octet_at(5, bytes)?;
    let user = call_from(6, bytes)?;
    let node = call_from(13, bytes)?;
    Ok(Transport::Request {
        pair: pair_at(0, bytes),
        window,
        user,
        node,
    })
}

#[tactic(auto, unfolding(crate::specs::Transports::accept_at))]
fn accept_in(bytes: &[u8]) -> Result<Transport, TransportRefusal>
    requires whole { 5 ≤ length bytes.now }
    requires fits { length bytes.now ≤ 241 }
    requires opcode { octet.opcode bytes.now ≡ 2 }
    requires accepted { octet.choke bytes.now ≡ false }
    ensures found { IfOk result (λ transport. octet.SpellsTransport transport bytes.now) }
    ensures exact { result ≡ octet.accept_at bytes.now }
{
    let window = octet_at(5, bytes)?;
    Ok(Transport::Accept {
        to: pair_at(0, bytes),
        own: pair_at(2, bytes),
        window,
    })
}

fn info_in(bytes: &[u8]) -> Transport
    requires whole { 5 ≤ length bytes.now }
    requires fits { length bytes.now ≤ 241 }
    requires opcode { octet.opcode bytes.now ≡ 5 }
    ensures found { octet.SpellsTransport result bytes.now }
    ensures exact { result ≡ octet.info_in bytes.now }
{
    let mut text = ArrayVec::new();
    let _ = text.try_extend_from_slice(&bytes[HEAD_SIZE..]);
    Transport::Info {
        to: pair_at(0, bytes),
        tx: bytes[2],
        rx: bytes[3],
        flags: flags_in(bytes),
        text,
    }
}

/// The flags of octet 4.
fn flags_in(bytes: &[u8]) -> Flags
    requires { 5 ≤ length bytes.now }
    ensures { result ≡ octet.flags_in bytes.now }
{
    Flags {
        choke: bytes[4] / 128 % 2 == 1,
        nak: bytes[4] / 64 % 2 == 1,
        more: bytes[4] / 32 % 2 == 1,
    }
}

/// The pair in the two octets from a place on.
fn pair_at(at: usize, bytes: &[u8]) -> Pair
    requires { at + 2 ≤ length bytes.now }
    ensures { result ≡ octet.pair_at at bytes.now }
{
    Pair {
        index: bytes[at],
        ident: bytes[at + 1],
    }
}

/// The octet at a place.
fn octet_at(at: usize, bytes: &[u8]) -> Result<u8, TransportRefusal>
    ensures exact { result ≡ octet.octet_at at bytes.now }
    ensures within { IsOk result → at < length bytes.now }
{
    if bytes.len() <= at {
        return Err(TransportRefusal::Short { at: bytes.len() });
    }
    Ok(bytes[at])
}

/// The call in the seven octets from a place on.
fn call_from(at: usize, bytes: &[u8]) -> Result<Call, TransportRefusal>
    requires { at ≤ length bytes.now }
    ensures exact { result ≡ octet.call_from at bytes.now }
    ensures found { IfOk result (λ call. SpellsNetCall call (take 7 (drop at bytes.now))) }
    ensures within { IsOk result → at + 7 ≤ length bytes.now }
{
    let octets = &bytes[at..];
    match octets.first_chunk::<7>() {
        Some(seven) => match read_net_call(seven) {
            Ok(call) => Ok(call),
            Err(refusal) => Err(TransportRefusal::BadCall {
                at: at + refusal.at(),
            }),
        },
        None => match address_fault(octets) {
            Some(refusal) => Err(TransportRefusal::BadCall {
                at: at + refusal.at(),
            }),
            None => Err(TransportRefusal::Short { at: bytes.len() }),
        },
    }
}

//! The words for why octets are none of what their place says that they are. Called by `datagrams`, `nodes`, `packets` and `transports`.
ghost use Rattle.std.specs.Prelude.{◌≡◌, IfOk, string_bytes};
ghost use Rattle.frame_lines.specs.Words as words;

use ax_ip::{ArpRefusal, PacketRefusal};
use circuit_l4::TransportRefusal;
use l3_datagram::DatagramRefusal;
use nodes_broadcast::NodesRefusal;
use std::alloc::{AllocError, Global};

pub(crate) fn nodes_fault(alloc: Global, why: NodesRefusal) -> Result<String, AllocError>
    ensures { IfOk result (λ s. string_bytes s ≡ words.nodes_fault why) }
{
    match why {
        NodesRefusal::NotNodes => "signature".to_string(alloc),
        NodesRefusal::BadLength { at } => format!(in alloc; "length {at}"),
        NodesRefusal::TooMany => "entries".to_string(alloc),
        NodesRefusal::BadCall { at } => format!(in alloc; "call {at}"),
    }
}

pub(crate) fn datagram_fault(alloc: Global, why: DatagramRefusal) -> Result<String, AllocError>
    ensures { IfOk result (λ s. string_bytes s ≡ words.datagram_fault why) }
{
    match why {
        DatagramRefusal::Short { at } => format!(in alloc; "short {at}"),
        DatagramRefusal::TooLong => "long".to_string(alloc),
        DatagramRefusal::BadCall { at } => format!(in alloc; "call {at}"),
    }
}

pub(crate) fn transport_fault(alloc: Global, why: TransportRefusal) -> Result<String, AllocError>
    ensures { IfOk result (λ s. string_bytes s ≡ words.transport_fault why) }
{
    match why {
        TransportRefusal::Short { at } => format!(in alloc; "short {at}"),
        TransportRefusal::BadOpcode => "opcode".to_string(alloc),
        TransportRefusal::BadCall { at } => format!(in alloc; "call {at}"),
        TransportRefusal::TooLong => "long".to_string(alloc),
    }
}

pub(crate) fn packet_fault(why: PacketRefusal) -> &'static str
    ensures { result.now ≡ words.packet_fault why }
{
    match why {
        PacketRefusal::Short => "short",
        PacketRefusal::TooLong => "long",
        PacketRefusal::BadVersion => "version",
        PacketRefusal::BadHeader => "header",
        PacketRefusal::BadLength => "length",
        PacketRefusal::BadSum => "checksum",
    }
}

pub(crate) fn arp_fault(alloc: Global, why: ArpRefusal) -> Result<String, AllocError>
    ensures { IfOk result (λ s. string_bytes s ≡ words.arp_fault why) }
{
    match why {
        ArpRefusal::Short => "short".to_string(alloc),
        ArpRefusal::NotAx25 => "kind".to_string(alloc),
        ArpRefusal::BadOp => "operation".to_string(alloc),
        ArpRefusal::BadCall { at } => format!(in alloc; "call {at}"),
    }
}

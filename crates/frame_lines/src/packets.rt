//! The lines of a packet of IPv4 and of a message of ARP. Called by `contents`.
ghost use Rattle.std.specs.Prelude.{◌≡◌, ◌++◌, OnOk, IfOk, string_bytes};
ghost use Rattle.frame_lines.specs.PacketLines as lines;

use crate::words::{arp_fault, packet_fault};
use ax_address::Call;
use ax_ip::{Arp, ArpRefusal, PacketHead, PacketRefusal, read_arp, read_packet};
use radio_base::{NoMemory, TextOut};
use std::alloc::{AllocError, Global};

/// The packet that the octets begin with, or why they begin with none.
pub(crate) fn write_packet_text(
    alloc: Global,
    octets: &[u8],
    out: &mut TextOut,
) -> Result<(), NoMemory>
    ensures { OnOk result (out.new ≡ out.old ++ lines.packet_text octets.now) }
{
    let line = match read_packet(octets) {
        Ok(head) => packet_line(alloc, &head)?,
        Err(why) => bad_packet(alloc, why)?,
    };
    out.text(line.as_str())?;
    Ok(())
}

/// `ip SOURCE>DEST ttl=T protocol=P len=L`
fn packet_line(alloc: Global, head: &PacketHead) -> Result<String, AllocError>
    ensures { IfOk result (λ s. string_bytes s ≡ lines.packet_line head.now) }
{
    let source = address_text(alloc, head.source)?;
    let source = source.as_str();
    let dest = address_text(alloc, head.dest)?;
    let dest = dest.as_str();
    let ttl = head.ttl;
    let protocol = head.protocol;
    let len = head.total;
    format!(in alloc; "  ip {source}>{dest} ttl={ttl} protocol={protocol} len={len}\n")
}

fn bad_packet(alloc: Global, why: PacketRefusal) -> Result<String, AllocError>
    ensures { IfOk result (λ s. string_bytes s ≡ lines.bad_packet why) }
{
    let why = packet_fault(why);
    format!(in alloc; "  bad ip {why}\n")
}

/// The message that the octets begin with, or why they begin with none.
pub(crate) fn write_arp_text(
    alloc: Global,
    octets: &[u8],
    out: &mut TextOut,
) -> Result<(), NoMemory>
    ensures { OnOk result (out.new ≡ out.old ++ lines.arp_text octets.now) }
{
    let line = match read_arp(octets) {
        Ok(message) => arp_line(alloc, &message)?,
        Err(why) => bad_arp(alloc, why)?,
    };
    out.text(line.as_str())?;
    Ok(())
}

/// `arp request CALL ADDRESS for ADDRESS`, or `arp reply CALL ADDRESS to CALL ADDRESS`
fn arp_line(alloc: Global, message: &Arp) -> Result<String, AllocError>
    ensures { IfOk result (λ s. string_bytes s ≡ lines.arp_line message.now) }
{
    let operation = operation_text(&message.target);
    let sender = message.sender.show();
    let sender = sender.as_str();
    let sender_ip = address_text(alloc, message.sender_ip)?;
    let sender_ip = sender_ip.as_str();
    let target = target_text(alloc, &message.target)?;
    let target = target.as_str();
    let target_ip = address_text(alloc, message.target_ip)?;
    let target_ip = target_ip.as_str();
    format!(in alloc; "  arp {operation}{sender} {sender_ip}{target}{target_ip}\n")
}

fn operation_text(target: &Option<Call>) -> &'static str
    ensures { result.now ≡ lines.operation_text target.now }
{
    match target {
        None => "request ",
        Some(_) => "reply ",
    }
}

fn target_text(alloc: Global, target: &Option<Call>) -> Result<String, AllocError>
    ensures { IfOk result (λ s. string_bytes s ≡ lines.target_text target.now) }
{
    match target {
        None => " for ".to_string(alloc),
        Some(call) => {
            let call = call.show();
            let call = call.as_str();
            format!(in alloc; " to {call} ")
        }
    }
}

fn bad_arp(alloc: Global, why: ArpRefusal) -> Result<String, AllocError>
    ensures { IfOk result (λ s. string_bytes s ≡ lines.bad_arp why) }
{
    let why = arp_fault(alloc, why)?;
    let why = why.as_str();
    format!(in alloc; "  bad arp {why}\n")
}

/// Four numbers, the high octet first.
fn address_text(alloc: Global, address: u32) -> Result<String, AllocError>
    ensures { IfOk result (λ s. string_bytes s ≡ lines.address_text address) }
{
    let first = address / 16_777_216;
    let second = address / 65_536 % 256;
    let third = address / 256 % 256;
    let fourth = address % 256;
    format!(in alloc; "{first}.{second}.{third}.{fourth}")
}

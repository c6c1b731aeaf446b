//! Messages of ARP: who has an address (RFC 826; the types and lengths of AX.25 are this project's profile). Called by `messages` and
//! `packets`, and by `frame_lines`.
ghost use Rattle.std.specs.Prelude.{◌≡◌, ◌+◌, ◌≤◌, ◌++◌, length, is_some, IfOk, Ok, true};
ghost use Rattle.ax_address.specs.Octets.{SpellsNetCall};
ghost use Rattle.ax_ip.specs.Arps as arps;
ghost use Rattle.ax_ip.specs.Packets.{word};

use crate::laws;
use crate::numbers::{long, long_octets, push_octets, word};
use arrayvec::ArrayVec;
use ax_address::{Call, read_net_call, write_net_call};

/// A request for the call of the station that has an address, or a reply that tells it.
#[derive(Clone, Copy, Debug, PartialEq, Eq)]
pub struct Arp {
    pub reply: bool,
    pub sender: Call,
    pub sender_ip: u32,
    /// There exactly for a reply.
    pub target: Option<Call>,
    pub target_ip: u32,
}

/// Why octets are no message of ARP. What stands first comes first.
#[derive(Clone, Copy, Debug, PartialEq, Eq)]
pub enum ArpRefusal {
    /// There are fewer than 30 octets.
    Short,
    /// The hardware isn't AX.25, the protocol isn't IP, or the lengths aren't those of calls and addresses.
    NotAx25,
    /// The operation is neither a request nor a reply.
    BadOp,
    /// The octet at `at`, from 0, can't stand there in a call.
    BadCall { at: usize },
}

/// The message that the first 30 octets are, or why they are none.
pub fn read_arp(bytes: &[u8]) -> Result<Arp, ArpRefusal>
    // What is read is laid out so.
    ensures found { IfOk result (λ arp. arps.SpellsArp arp bytes.now) }

    // What is laid out so is read.
    ensures only { (arp : arps.Arp) → arps.SpellsArp arp bytes.now → result ≡ Ok arp }

    // Which refusal it is.
    ensures exact { result ≡ arps.arp_at bytes.now }
{
    // By the law of the spelling none that is laid out is refused.
    laws::arp_spelling();
    message_in(bytes)
}

#[tactic(auto, unfolding(crate::specs::Arps::message_at))]
fn message_in(bytes: &[u8]) -> Result<Arp, ArpRefusal>
    ensures found { IfOk result (λ arp. arps.SpellsArp arp bytes.now) }
    ensures exact { result ≡ arps.arp_at bytes.now }
{
    if bytes.len() < 30 {
        return Err(ArpRefusal::Short);
    }
    if !is_ax25(bytes) {
        return Err(ArpRefusal::NotAx25);
    }
    let reply = is_reply(bytes)?;
    let sender = call_of(&bytes[8..15], 8)?;
    let target = target_of(reply, &bytes[19..26])?;
    Ok(Arp {
        reply,
        sender,
        sender_ip: long(bytes, 15),
        target,
        target_ip: long(bytes, 26),
    })
}

/// Hardware type 3 is AX.25, and 0xCC stands for IP as it does in a PID; a call has 7 octets and an address 4.
fn is_ax25(bytes: &[u8]) -> bool
    requires { 30 ≤ length bytes.now }
    ensures exact { result ≡ arps.is_ax25 bytes.now }
    ensures kind { result ≡ true → arps.HasKind bytes.now }
{
    word(bytes, 0) == 3 && word(bytes, 2) == 0xCC && bytes[4] == 7 && bytes[5] == 4
}

fn is_reply(bytes: &[u8]) -> Result<bool, ArpRefusal>
    requires { 30 ≤ length bytes.now }
    ensures found { IfOk result (λ reply. word bytes.now 6 ≡ arps.operation reply) }
    ensures exact { result ≡ arps.reply_at bytes.now }
{
    match word(bytes, 6) {
        1 => Ok(false),
        2 => Ok(true),
        _ => Err(ArpRefusal::BadOp),
    }
}

/// The target of a reply; in a request its octets say nothing.
fn target_of(reply: bool, octets: &[u8]) -> Result<Option<Call>, ArpRefusal>
    requires { length octets.now ≡ 7 }
    ensures found { IfOk result (λ target. arps.SpellsTarget reply target octets.now) }
    ensures exact { result ≡ arps.target_at reply octets.now }
{
    if reply {
        match call_of(octets, 19) {
            Ok(call) => Ok(Some(call)),
            Err(refusal) => Err(refusal),
        }
    } else {
        Ok(None)
    }
}

/// The call that its octets spell, which begin at that place.
fn call_of(octets: &[u8], at: usize) -> Result<Call, ArpRefusal>
    requires whole { length octets.now ≡ 7 }
    requires place { at ≤ 30 }
    ensures found { IfOk result (λ call. SpellsNetCall call octets.now) }
    ensures exact { result ≡ arps.call_at at octets.now }
{
    let mut seven = [0; 7];
    seven.copy_from_slice(octets);
    match read_net_call(&seven) {
        Ok(call) => Ok(call),
        Err(refusal) => Err(ArpRefusal::BadCall {
            at: at + refusal.at(),
        }),
    }
}

/// The octets of a message: the target of a request is left out.
pub fn write_arp(arp: &Arp) -> [u8; 30]
    ensures exact { result ≡ arps.arp_octets arp.now }

    // What is written is read back, where the target is there exactly for a reply.
    ensures read_back { is_some arp.now.target ≡ arp.now.reply → arps.arp_at result ≡ Ok arp.now }
{
    // By the law of the spelling what is written is read back.
    laws::arp_spelling();
    octets_of(arp)
}

fn octets_of(arp: &Arp) -> [u8; 30]
    ensures exact { result ≡ arps.arp_octets arp.now }
    ensures arp { is_some arp.now.target ≡ arp.now.reply → arps.IsArp arp.now }
{
    let mut octets = ArrayVec::<u8, 30>::new();
    push_octets(
        &mut octets,
        &[0x00, 0x03, 0x00, 0xCC, 7, 4, 0x00, operation(arp.reply)],
    );
    push_octets(&mut octets, &write_net_call(&arp.sender));
    push_octets(&mut octets, &long_octets(arp.sender_ip));
    push_octets(&mut octets, &target_octets(arp));
    push_octets(&mut octets, &long_octets(arp.target_ip));
    octets.into_inner().unwrap_or([0; 30])
}

fn operation(reply: bool) -> u8
    ensures { result ≡ arps.operation reply }
{
    if reply { 2 } else { 1 }
}

/// The target of a reply, and zeros in a request.
fn target_octets(arp: &Arp) -> [u8; 7]
    ensures exact { result ≡ arps.target_octets arp.now.reply arp.now.target }
    ensures call { is_some arp.now.target ≡ arp.now.reply → arps.IsTarget arp.now.target }
{
    match arp.target {
        Some(target) => {
            if arp.reply {
                write_net_call(&target)
            } else {
                [0; 7]
            }
        }
        None => [0; 7],
    }
}

//! Frames that get another destination or source. Called by the crates that run a station.
ghost use Rattle.std.specs.Prelude.{◌≡◌, ◌≤◌, ◌+◌, ◌++◌, ◌∷◌, length, IfOk};
ghost use Rattle.station_ports.specs.Readdressed.{with_call_at, with_ssid};

use crate::FrameOctets;
use ax_address::{Call, write_net_call};
use radio_base::NoMemory;
use std::alloc::Global;

/// The frame with another destination: its C bit and the reserved bits stay.
pub fn with_dest(alloc: Global, octets: &[u8], call: &Call) -> Result<FrameOctets, NoMemory>
    requires { 14 ≤ length octets.now }
    ensures { IfOk result (λ frame. frame ≡ with_call_at 0 call.now octets.now) }
{
    with_call(alloc, octets, 0, call)
}

/// The frame with another source: its C bit, the reserved bits and the extension bit stay.
pub fn with_source(alloc: Global, octets: &[u8], call: &Call) -> Result<FrameOctets, NoMemory>
    requires { 14 ≤ length octets.now }
    ensures { IfOk result (λ frame. frame ≡ with_call_at 7 call.now octets.now) }
{
    with_call(alloc, octets, 7, call)
}

/// The frame with this call in the address that begins at a place.
fn with_call(alloc: Global, octets: &[u8], at: usize, call: &Call) -> Result<FrameOctets, NoMemory>
    requires { at + 7 ≤ length octets.now }
    ensures { IfOk result (λ frame. frame ≡ with_call_at at call.now octets.now) }
{
    let name = write_net_call(call);
    let last = with_ssid(octets[at + 6], call.ssid());
    joined(alloc, &octets[..at], &name[..6], last, &octets[at + 7..])
}

/// The octet of an address that has its SSID, with another one: all other bits stay (AX.25 2.2, section 3.12.2).
fn with_ssid(octet: u8, ssid: u8) -> u8
    requires { ssid ≤ 15 }
    ensures { result ≡ with_ssid octet ssid }
{
    octet / 32 * 32 + 2 * ssid + octet % 2
}

#[tactic(auto, using(std::proofs::lemmas::List::append_assoc))]
fn joined(
    alloc: Global,
    front: &[u8],
    letters: &[u8],
    last: u8,
    back: &[u8],
) -> Result<FrameOctets, NoMemory>
    ensures { IfOk result (λ frame. frame ≡ front.now ++ letters.now ++ last ∷ back.now) }
{
    let mut octets = front.to_vec(alloc)?;
    octets.extend_from_slice(letters)?;
    octets.push(last)?;
    octets.extend_from_slice(back)?;
    Ok(FrameOctets::from_vec(octets))
}

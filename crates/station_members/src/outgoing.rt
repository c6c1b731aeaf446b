//! Frames on their way from a member. Called by the desk.
ghost use Rattle.std.specs.Prelude.{◌≡◌, ◌≤◌, length, IfOk};
ghost use Rattle.station_members.specs.Outgoing as going;

use crate::seat::Seat;
use ax_address::Call;
use ax_frame::{Control, read_frame};
use link_table::Written;
use radio_base::{LinkModulus, M8, M128, NoMemory};
use station_ports::{FrameOctets, Heading, heading_of, with_source};
use std::alloc::Global;

/// A frame on its way from a member.
#[derive(Drop)]
pub(crate) struct Outgoing {
    /// As the node has put it out.
    pub(crate) heading: Heading,
    /// As it goes: to who speaks to the member by its alias it comes from there.
    pub(crate) octets: FrameOctets,
    /// Whether its sequence numbers count modulo 128.
    pub(crate) is_extended: bool,
    /// Whether it is the member's own, and none that it repeats.
    pub(crate) is_own: bool,
    /// Whether it says nothing but what has come, unasked: an own RR that is a response with F 0 (AX.25 2.2, section 4.3.2.1).
    pub(crate) may_wait: bool,
}

impl Outgoing {
    /// A frame that the node has put out. None where its addresses can't be read.
    pub(crate) fn new(
        alloc: Global,
        seat: &Seat,
        frame: &Written,
    ) -> Result<Option<Outgoing>, NoMemory>
        ensures { IfOk result (λ out. out ≡ going.outgoing seat.now frame.now) }
    {
        match heading_of(frame.octets.as_slice()) {
            Some(heading) => {
                let octets = signed(alloc, seat, &heading, frame.octets.as_slice())?;
                Ok(Some(Outgoing {
                    heading,
                    octets,
                    is_extended: is_extended(frame.modulus),
                    is_own: frame.modulus.is_some(),
                    may_wait: !heading.is_command && says_only_ready(frame),
                }))
            }
            None => Ok(None),
        }
    }
}

fn is_extended(modulus: Option<LinkModulus>) -> bool
    ensures { result ≡ going.is_extended modulus }
{
    match modulus {
        Some(LinkModulus::Modulo8) => false,
        Some(LinkModulus::Modulo128) => true,
        None => false,
    }
}

/// The octets as they go: from the alias, where the destination speaks to the member by that.
fn signed(
    alloc: Global,
    seat: &Seat,
    heading: &Heading,
    octets: &[u8],
) -> Result<FrameOctets, NoMemory>
    requires { 14 ≤ length octets.now }
    ensures { IfOk result (λ out. out ≡ going.signed_by (going.name_to seat.now heading.now) octets.now) }
{
    match name_to(seat, heading) {
        Some(name) => with_source(alloc, octets, &name),
        None => FrameOctets::from_slice(alloc, octets),
    }
}

/// The alias, where a frame comes from it and not from the call.
fn name_to(seat: &Seat, heading: &Heading) -> Option<Call>
    ensures { result ≡ going.name_to seat.now heading.now }
{
    if heading.source == seat.call && seat.peers.has(&heading.dest) {
        seat.byname
    } else {
        None
    }
}

/// An own frame is an RR with P/F 0.
fn says_only_ready(frame: &Written) -> bool
    ensures { result ≡ going.says_only_ready frame.now }
{
    match frame.modulus {
        Some(LinkModulus::Modulo8) => is_ready_8(frame.octets.as_slice()),
        Some(LinkModulus::Modulo128) => is_ready_128(frame.octets.as_slice()),
        None => false,
    }
}

fn is_ready_8(octets: &[u8]) -> bool
    ensures { result ≡ going.is_ready_at 8 octets.now }
{
    match read_frame::<M8>(octets) {
        Ok(frame) => is_ready(&frame.control),
        Err(_) => false,
    }
}

fn is_ready_128(octets: &[u8]) -> bool
    ensures { result ≡ going.is_ready_at 128 octets.now }
{
    match read_frame::<M128>(octets) {
        Ok(frame) => is_ready(&frame.control),
        Err(_) => false,
    }
}

fn is_ready(control: &Control) -> bool
    ensures { result ≡ going.is_ready control.now }
{
    match control {
        Control::Rr { pf, .. } => !*pf,
        _ => false,
    }
}

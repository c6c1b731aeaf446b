//! Frames become octets (AX.25 2.2, sections 3 and 4). Called by `link_table`, `node_core` and `tool_cmd`.
ghost use Rattle.std.specs.Prelude.{◌≡◌, ◌<◌, ◌≤◌, ◌+◌, ◌*◌, ◌++◌, ◌∷◌, [], ◌↔◌, ℕ, Bool, length, IsErr, IsTrue, OnOk, OnErr, None, Some, false, is_some};
ghost use Rattle.std.specs.List.{AllByRecursion, flat_map};
ghost use Rattle.ax_address.specs.Octets.{address_octets};
ghost use Rattle.ax_frame.specs.Controls as controls;
ghost use Rattle.radio_base.specs.Modulus.{modulus_size};
ghost use Rattle.ax_frame.specs.Frames.{IsAddress, Spells, HasParts, addresses, addresses_octets, frame, frame_octets};

use crate::control::Format;
use crate::{Control, FrameBytes, Full, Head};
use arrayvec::ArrayVec;
use ax_address::{Address, write_address};
use radio_base::{LinkModulus, Modulus};

/// The octets before the information: at most ten addresses, two octets of control and a PID.
type Start = ArrayVec<u8, 73>;

/// Replaces `out` by the octets of the frame, with sequence numbers modulo 8 or 128.
pub fn write_frame<M: Modulus>(
    head: &Head,
    control: &Control,
    pid: Option<u8>,
    info: &[u8],
    out: &mut FrameBytes,
) -> Result<(), Full>
    requires modulus { controls.IsLinkModulus M.SIZE }
    requires parts { HasParts M.SIZE control.now pid info.now }

    // What is written spells the frame.
    ensures ok { OnOk result (Spells M.SIZE (frame head.now control.now pid info.now) out.new.items) }

    // It is refused exactly where it has more than 1,023 octets.
    ensures full { IsErr result ↔ (1023 < length (frame_octets M.SIZE (frame head.now control.now pid info.now))) }
    ensures err { OnErr result (out.new ≡ out.old) }
{
    let mut start = Start::new();
    push_head(head, &mut start);
    push_control(LinkModulus::of::<M>(), control, &mut start);
    if let Some(pid) = pid {
        start.push(pid);
    }
    if start.len() + info.len() > out.capacity() {
        return Err(Full);
    }
    out.clear();
    let _ = out.try_extend_from_slice(start.as_slice());
    let _ = out.try_extend_from_slice(info);
    Ok(())
}

/// The addresses of the head.
fn push_head(head: &Head, start: &mut Start)
    requires { start.old.items ≡ [] }
    ensures spelled { start.new.items ≡ addresses_octets (addresses head.now) }
    ensures calls { AllByRecursion IsAddress (addresses head.now) }
    ensures eight { length head.now.path.items ≤ 8 }
    ensures room { length start.new.items ≤ 70 }
{
    let path = head.path.as_slice();
    push_address(&head.dest, false, start);
    push_addresses(&head.source, path, start);
}

/// One address after the other; the last has the extension bit.
fn push_addresses(first: &Address, more: &[Address], start: &mut Start)
    requires { length start.old.items + 7 * (1 + length more.now) ≤ 73 }
    ensures spelled { start.new.items ≡ start.old.items ++ addresses_octets (first.now ∷ more.now) }
    ensures calls { AllByRecursion IsAddress (first.now ∷ more.now) }
    ensures len { length start.new.items ≡ length start.old.items + 7 * (1 + length more.now) }
{
    match more {
        [] => push_address(first, true, start),
        [next, rest @ ..] => {
            push_address(first, false, start);
            push_addresses(next, rest, start);
        }
    }
}

fn push_address(address: &Address, last: bool, start: &mut Start)
    requires { length start.old.items + 7 ≤ 73 }
    ensures spelled { start.new.items ≡ start.old.items ++ address_octets address.now last }
    ensures call { IsAddress address.now }
    ensures len { length start.new.items ≡ length start.old.items + 7 }
{
    push(&write_address(address, last), start);
}

fn push(octets: &[u8], start: &mut Start)
    requires { length start.old.items + length octets.now ≤ 73 }
    ensures { start.new.items ≡ start.old.items ++ octets.now }
{
    let _ = start.try_extend_from_slice(octets);
}

/// A control field, with sequence numbers of this modulus.
fn push_control(modulus: LinkModulus, control: &Control, start: &mut Start)
    requires fits { controls.NumbersFit (modulus_size modulus) control.now }
    requires room { length start.old.items + 2 ≤ 73 }
    ensures spelled { start.new.items ≡ start.old.items ++ controls.control_octets (modulus_size modulus) control.now }
    ensures len { length start.new.items ≤ length start.old.items + 2 }
{
    push_format(modulus, control.format(), start);
}

fn push_format(modulus: LinkModulus, format: Format, start: &mut Start)
    requires fits { controls.FormatFits (modulus_size modulus) format }
    requires code { controls.CodeFits format }
    requires room { length start.old.items + 2 ≤ 73 }
    ensures spelled { start.new.items ≡ start.old.items ++ controls.format_octets (modulus_size modulus) format }
    ensures len { length start.new.items ≤ length start.old.items + 2 }
{
    match (format, modulus) {
        (Format::Information { ns, nr, pf }, LinkModulus::Modulo8) => {
            push_short(2 * ns, nr, pf, start)
        }
        (Format::Information { ns, nr, pf }, LinkModulus::Modulo128) => {
            push_extended(2 * ns, nr, pf, start)
        }
        (Format::Supervisory { code, nr, pf }, LinkModulus::Modulo8) => {
            push_short(code, nr, pf, start)
        }
        (Format::Supervisory { code, nr, pf }, LinkModulus::Modulo128) => {
            push_extended(code, nr, pf, start)
        }
        (Format::Unnumbered { code, pf }, _) => start.push(code + poll(pf)),
    }
}

/// A field of one octet, with a sequence number in its upper three bits.
fn push_short(low: u8, nr: u8, pf: bool, start: &mut Start)
    requires nr { nr < 8 }
    requires low { low < 16 }
    requires room { length start.old.items < 73 }
    ensures spelled { start.new.items ≡ start.old.items ++ (32 * nr + controls.poll pf + low) ∷ [] }
    ensures len { length start.new.items ≡ length start.old.items + 1 }
{
    start.push(32 * nr + poll(pf) + low);
}

/// An extended field has two octets, of which the second has the sequence number and the P/F bit.
fn push_extended(first: u8, nr: u8, pf: bool, start: &mut Start)
    requires nr { nr < 128 }
    requires room { length start.old.items + 1 < 73 }
    ensures spelled { start.new.items ≡ start.old.items ++ first ∷ (2 * nr + controls.low_bit pf) ∷ [] }
    ensures len { length start.new.items ≡ length start.old.items + 2 }
{
    start.push(first);
    start.push(2 * nr + low_bit(pf));
}

fn poll(pf: bool) -> u8
    ensures value { result ≡ controls.poll pf }
    ensures bound { result ≤ 16 }
{
    if pf { 16 } else { 0 }
}

fn low_bit(pf: bool) -> u8
    ensures value { result ≡ controls.low_bit pf }
    ensures bound { result ≤ 1 }
{
    if pf { 1 } else { 0 }
}

//! Control fields and whole frames. Called by `rt test`.
ghost use Rattle.ax_frame.specs.Controls.{IsLinkModulus};
ghost use Rattle.ax_frame.specs.Frames.{HasParts};

use super::{call, expect};
use crate::controls::{ControlVector, NUMBERED_M8, NUMBERED_M128, UNNUMBERED};
use crate::frames::{FRAMES_M8, FRAMES_M128, FrameVector, REFUSED_M8, REFUSED_M128, Station};
use ax_address::{Address, Path};
use ax_frame::{Control, FrameBytes, FrameRefusal, FrameView, Head, read_frame, write_frame};
use radio_base::{M8, M128, Modulus};
use std::process::Abort;

/// N0CALL-7 to NODES.
const ADDRESSES: [u8; 14] = [
    0x9C, 0x9E, 0x88, 0x8A, 0xA6, 0x40, 0xE0, 0x9C, 0x60, 0x86, 0x82, 0x98, 0x98, 0x6F,
];

fn address(rt: &impl Abort, station: &Station) -> Address {
    Address {
        call: call(rt, station.0),
        bit7: station.1,
        reserved: 3,
    }
}

fn head(rt: &impl Abort, row: &FrameVector) -> Head {
    let mut path = Path::new();
    for repeater in row.repeaters {
        let _ = path.try_push(address(rt, repeater));
    }
    Head {
        dest: address(rt, &row.dest),
        source: address(rt, &row.source),
        path,
    }
}

/// The octets that the codec writes of a frame.
fn octets_of<M: Modulus>(frame: &FrameView<'_>) -> FrameBytes
    requires modulus { IsLinkModulus M.SIZE }
    requires parts { HasParts M.SIZE frame.now.control frame.now.pid frame.now.info.now }
{
    let mut out = FrameBytes::new();
    let _ = write_frame::<M>(&frame.head, &frame.control, frame.pid, frame.info, &mut out);
    out
}

fn frame_goes_both_ways<M: Modulus>(rt: &impl Abort, row: &FrameVector)
    requires { IsLinkModulus M.SIZE }
{
    match read_frame::<M>(row.octets) {
        Ok(read) => {
            expect(
                rt,
                octets_of::<M>(&read).as_slice() == row.octets,
                row.octets,
            );
            expect_parts(rt, &read, row);
        }
        Err(_) => expect(rt, false, row.octets),
    }
}

fn expect_parts(rt: &impl Abort, read: &FrameView<'_>, row: &FrameVector) {
    expect(rt, read.head == head(rt, row), row.octets);
    expect(rt, read.control == row.control, row.octets);
    expect(rt, read.pid == row.pid, row.octets);
    expect(rt, read.info == row.info, row.octets);
}

/// The control field stands behind two addresses, with a PID behind it where its kind has one.
fn control_goes_both_ways<M: Modulus>(rt: &impl Abort, row: &ControlVector)
    requires { IsLinkModulus M.SIZE }
{
    let (octets, control) = *row;
    let mut frame = FrameBytes::new();
    let _ = frame.try_extend_from_slice(&ADDRESSES);
    let _ = frame.try_extend_from_slice(octets);
    if matches!(control, Control::I { .. } | Control::Ui { .. }) {
        let _ = frame.try_push(0xF0);
    }
    match read_frame::<M>(frame.as_slice()) {
        Ok(read) => {
            expect(rt, octets_of::<M>(&read) == frame, octets);
            expect(rt, read.control == control, octets);
        }
        Err(_) => expect(rt, false, octets),
    }
}

/// Each table is met in a function of its own, since a function's proof grows with the tables in it.
fn frames_m8_go_both_ways(rt: &impl Abort) {
    for row in &FRAMES_M8 {
        frame_goes_both_ways::<M8>(rt, row);
    }
}

fn frames_m128_go_both_ways(rt: &impl Abort) {
    for row in &FRAMES_M128 {
        frame_goes_both_ways::<M128>(rt, row);
    }
}

#[test]
fn frames_go_both_ways(rt: HostRuntime) {
    frames_m8_go_both_ways(&rt);
    frames_m128_go_both_ways(&rt);
}

#[test]
fn control_fields_go_both_ways(rt: HostRuntime) {
    for row in UNNUMBERED {
        control_goes_both_ways::<M8>(&rt, &row);
        control_goes_both_ways::<M128>(&rt, &row);
    }
    for row in NUMBERED_M8 {
        control_goes_both_ways::<M8>(&rt, &row);
    }
    for row in NUMBERED_M128 {
        control_goes_both_ways::<M128>(&rt, &row);
    }
}

fn is_refused<M: Modulus>(rt: &impl Abort, octets: &[u8], refusal: FrameRefusal)
    requires { IsLinkModulus M.SIZE }
{
    match read_frame::<M>(octets) {
        Ok(_) => expect(rt, false, octets),
        Err(told) => expect(rt, told == refusal, octets),
    }
}

#[test]
fn the_first_octet_at_fault_is_named(rt: HostRuntime) {
    for (octets, refusal) in REFUSED_M8 {
        is_refused::<M8>(&rt, octets, refusal);
    }
    for (octets, refusal) in REFUSED_M128 {
        is_refused::<M128>(&rt, octets, refusal);
    }
}

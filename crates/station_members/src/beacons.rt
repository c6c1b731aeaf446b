//! Beacons. Used by `desk`, which has them, and by `waiting`.
ghost use Rattle.std.specs.Prelude.{◌≡◌, ◌≤◌, ◌+◌, ◌++◌, length, IfOk, OnOk};
ghost use Rattle.station_members.specs.Beacons as beacons;

use crate::BeaconConfig;
use ax_address::{Path, address_of};
use ax_frame::{Control, FrameBytes, Head, write_frame};
use radio_base::{M8, Moment, NoMemory};
use station_ports::{FrameOctets, PortFrame};
use std::alloc::Global;

/// The PID of text without a layer 3 (AX.25 2.2, section 3.4).
const TEXT_PID: u8 = 0xF0;

/// A frame that goes on a port again and again.
#[derive(Drop)]
pub(crate) struct Beacon {
    pub(crate) port: u8,
    pub(crate) octets: FrameOctets,
    pub(crate) every: u64,
    /// When it is due; none before the first tick.
    pub(crate) due: Option<u64>,
}

impl Beacon {
    /// A UI command without repeaters.
    pub(crate) fn new(alloc: Global, config: &BeaconConfig<'_>) -> Result<Beacon, NoMemory>
        requires { length config.now.text.now ≤ 256 }
        ensures { IfOk result (λ beacon. beacon ≡ beacons.new_beacon config.now) }
    {
        let octets = beacon_octets(config);
        Ok(Beacon {
            port: config.port,
            octets: FrameOctets::from_slice(alloc, octets.as_slice())?,
            every: config.every,
            due: None,
        })
    }

    /// Whether it is due.
    pub(crate) fn is_due(&self, now: Moment) -> bool
        ensures { result ≡ beacons.is_due now.0 self.now }
    {
        match self.due {
            Some(due) => due <= now.0,
            None => false,
        }
    }

    /// Its frame.
    pub(crate) fn frame(&self, alloc: Global) -> Result<PortFrame, NoMemory>
        ensures { IfOk result (λ frame. frame ≡ beacons.frame_of self.now) }
    {
        Ok(PortFrame {
            port: self.port,
            octets: FrameOctets::from_slice(alloc, self.octets.as_slice())?,
            is_extended: false,
        })
    }

    /// Time has passed: from the first tick on, and where it is due, it is due so much later.
    pub(crate) fn tick(&mut self, now: Moment)
        ensures { self.new ≡ beacons.ticked now.0 self.old }
    {
        if self.due.is_none() || self.is_due(now) {
            self.due = Some(now.0.saturating_add(self.every));
        }
    }
}

/// The octets of a UI command without repeaters.
fn beacon_octets(config: &BeaconConfig<'_>) -> FrameBytes
    requires { length config.now.text.now ≤ 256 }
    ensures { result.items ≡ beacons.octets_of config.now }
{
    let mut octets = FrameBytes::new();
    let head = Head {
        dest: address_of(config.to, true),
        source: address_of(config.from, false),
        path: Path::new(),
    };
    let control = Control::Ui { pf: false };
    // The text goes straight behind what stands before it.
    let _ = write_frame::<M8>(&head, &control, Some(TEXT_PID), &[], &mut octets);
    push_text(config.text, &mut octets);
    octets
}

fn push_text(text: &[u8], octets: &mut FrameBytes)
    requires { length octets.old.items + length text.now ≤ 1023 }
    ensures { octets.new.items ≡ octets.old.items ++ text.now }
{
    let _ = octets.try_extend_from_slice(text);
}

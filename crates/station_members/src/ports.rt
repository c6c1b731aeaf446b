//! The ports of a station, and the frames that go there. Used by `desk`, which has them, and by `routing` and `waiting`.
ghost use Rattle.std.specs.Prelude.{◌≡◌, ◌≤◌, length, slice_get, IfOk, OnOk};
ghost use Rattle.station_members.specs.Ports as airs;
ghost use Rattle.station_members.specs.Ports.{air_of};

use ax_address::Call;
use radio_base::{Moment, NoMemory};
use station_ports::{Heard, HeardList, PortFrame};
use std::alloc::Global;
use std::collections::VecDeque;

/// What is known of a port. Counts stand still at 2^64 - 1.
#[derive(Drop)]
pub(crate) struct Port {
    pub(crate) heard: HeardList,
    /// How many frames came there.
    pub(crate) came: u64,
    /// How many frames went there.
    pub(crate) went: u64,
}

/// The ports, and the frames that wait to be fetched.
#[derive(Drop)]
pub(crate) struct Ports {
    pub(crate) ports: Vec<Port>,
    pub(crate) frames: VecDeque<PortFrame>,
}

impl Ports {
    /// So many ports, where nobody was heard.
    pub(crate) fn new(alloc: Global, count: usize) -> Result<Ports, NoMemory>
        ensures { IfOk result (λ ports. air_of ports ≡ airs.new_air count) }
    {
        Ok(Ports {
            ports: silent_ports(alloc, count)?,
            frames: VecDeque::new(alloc),
        })
    }

    /// A frame came at a port, in which this call was heard.
    pub(crate) fn note(&mut self, port: u8, hop: &Call, now: Moment)
        ensures { air_of self.new ≡ airs.noted port hop.now now (air_of self.old) }
    {
        note_at(&mut self.ports, port as usize, hop, now);
    }

    /// A frame goes.
    pub(crate) fn put(&mut self, frame: PortFrame) -> Result<(), NoMemory>
        ensures { OnOk result (air_of self.new ≡ airs.put frame (air_of self.old)) }
    {
        let at = frame.port as usize;
        self.frames.push_back(frame)?;
        count_at(&mut self.ports, at);
        Ok(())
    }

    /// The frame that has waited longest.
    pub(crate) fn next_frame(&mut self) -> Option<PortFrame>
        ensures answer { result ≡ slice_get (air_of self.old).frames 0 }
        ensures goes { air_of self.new ≡ airs.fetched (air_of self.old) }
    {
        self.frames.pop_front()
    }

    /// Who was heard at a port, the latest first.
    pub(crate) fn heard(&self, port: u8) -> &[Heard]
        ensures value { result.now ≡ airs.heard_at port (air_of self.now) }
        ensures few { length result.now ≤ 32 }
    {
        match self.ports.get(port as usize) {
            Some(port) => port.heard.as_slice(),
            None => &[],
        }
    }

    /// How many frames came at a port.
    pub(crate) fn came(&self, port: u8) -> u64
        ensures { result ≡ airs.came_at port (air_of self.now) }
    {
        match self.ports.get(port as usize) {
            Some(port) => port.came,
            None => 0,
        }
    }

    /// How many frames went on a port.
    pub(crate) fn went(&self, port: u8) -> u64
        ensures { result ≡ airs.went_at port (air_of self.now) }
    {
        match self.ports.get(port as usize) {
            Some(port) => port.went,
            None => 0,
        }
    }
}

fn silent_ports(alloc: Global, count: usize) -> Result<Vec<Port>, NoMemory>
    ensures { IfOk result (λ ports. ports.items ≡ airs.silent count) }
{
    let mut ports = Vec::new(alloc);
    for _ in 0..count {
        ports.push(Port {
            heard: HeardList::new(),
            came: 0,
            went: 0,
        })?;
    }
    Ok(ports)
}

fn note_at(ports: &mut Vec<Port>, at: usize, hop: &Call, now: Moment)
    ensures { ports.new.items ≡ airs.noted_at at hop.now now ports.old.items }
{
    if at < ports.len() {
        ports[at].note(hop, now);
    }
}

fn count_at(ports: &mut Vec<Port>, at: usize)
    ensures { ports.new.items ≡ airs.counted_at at ports.old.items }
{
    if at < ports.len() {
        ports[at].count();
    }
}

impl Port {
    /// A frame came, in which this call was heard.
    fn note(&mut self, hop: &Call, now: Moment)
        ensures { self.new ≡ airs.hears hop.now now self.old }
    {
        self.heard.note(hop, now);
        self.came = self.came.saturating_add(1);
    }

    /// A frame went.
    fn count(&mut self)
        ensures { self.new ≡ airs.counts self.old }
    {
        self.went = self.went.saturating_add(1);
    }
}

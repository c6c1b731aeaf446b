//! What waits to be fetched of a station, in the order in which it came. The station's works have it.
ghost use Rattle.std.specs.Prelude.{◌≡◌, ◌<◌, ◌+◌, ◌-◌, ◌^◌, ◌∷◌, ◌++◌, [], drop, slice_get, OnOk};
ghost use Rattle.station.specs.Outs as lists;
ghost use Rattle.station.specs.declared.outs.Waiting.TheVariants as waiting;

use radio_base::NoMemory;
use station_ports::PortFrame;
use std::alloc::Global;
use std::collections::VecDeque;

/// What waits to be fetched: a frame, or what has waited longest for a console then.
#[derive(Drop)]
pub(crate) enum Waiting {
    Frame(PortFrame),
    Console,
}

/// What waits to be fetched, the oldest first.
#[derive(Drop)]
pub(crate) struct Outs {
    pub(crate) waiting: VecDeque<Waiting>,
    /// How many of it are for consoles.
    pub(crate) consoles: usize,
}

impl Outs {
    /// Nothing.
    pub(crate) fn new(alloc: Global) -> Outs
        ensures waiting { result.waiting.items ≡ [] }
        ensures consoles { result.consoles ≡ 0 }
    {
        Outs {
            waiting: VecDeque::new(alloc),
            consoles: 0,
        }
    }

    /// A frame goes.
    pub(crate) fn put_frame(&mut self, frame: PortFrame) -> Result<(), NoMemory>
        ensures waiting { OnOk result (self.new.waiting.items ≡ self.old.waiting.items ++ waiting.Frame frame ∷ []) }
        ensures consoles { self.new.consoles ≡ self.old.consoles }
    {
        self.waiting.push_back(Waiting::Frame(frame))?;
        Ok(())
    }

    /// So many things wait for consoles by now.
    pub(crate) fn note_consoles(&mut self, count: usize) -> Result<(), NoMemory>
        ensures waiting { OnOk result (self.new.waiting.items
            ≡ self.old.waiting.items ++ lists.consoles (count - self.old.consoles)) }
        ensures consoles { OnOk result (self.new.consoles ≡ self.old.consoles + (count - self.old.consoles)) }
    {
        let more = count.saturating_sub(self.consoles);
        for _ in 0..more {
            self.put_console()?;
        }
        Ok(())
    }

    fn put_console(&mut self) -> Result<(), NoMemory>
        requires { self.old.consoles + 1 < 2 ^ 64 }
        ensures waiting { OnOk result (self.new.waiting.items ≡ self.old.waiting.items ++ waiting.Console ∷ []) }
        ensures consoles { OnOk result (self.new.consoles ≡ self.old.consoles + 1) }
    {
        self.waiting.push_back(Waiting::Console)?;
        self.consoles += 1;
        Ok(())
    }

    /// The oldest: it waits no longer. None where nothing waits.
    pub(crate) fn next(&mut self) -> Option<Waiting>
        ensures answer { result ≡ slice_get self.old.waiting.items 0 }
        ensures waiting { self.new.waiting.items ≡ drop 1 self.old.waiting.items }
        ensures consoles { self.new.consoles ≡ self.old.consoles - lists.one_if (lists.is_console result) }
    {
        let next = self.waiting.pop_front();
        if let Some(Waiting::Console) = &next {
            self.consoles = self.consoles.saturating_sub(1);
        }
        next
    }
}

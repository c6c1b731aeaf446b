//! What goes to consoles, until it is fetched. Called by `sides`, and by whoever has the consoles.
ghost use Rattle.std.specs.Prelude.{◌≡◌, ◌^◌, ◌-◌, ◌∷◌, ◌++◌, [], drop, length, min, slice_get, OnErr, OnOk};
ghost use Rattle.station_places.specs.Consoles as consoles;
ghost use Rattle.station_places.specs.declared.console_outs.ConsoleOut.TheVariants as out;

use radio_base::{NoMemory, TextOut};
use std::alloc::Global;
use std::collections::VecDeque;
use std::marker::Model;

/// What a console is given.
#[derive(Drop)]
pub enum ConsoleOut {
    /// A text.
    Text { console: u8, text: TextOut },
    /// The console is closed.
    Closed { console: u8 },
}

/// What goes to consoles, the oldest first.
#[derive(Drop)]
pub struct ConsoleOuts {
    alloc: Global,
    outs: VecDeque<ConsoleOut>,
}

impl Model for ConsoleOuts {
    ghost use Rattle.std.specs.Prelude.{List};
    ghost use Rattle.station_places.specs.declared.console_outs.ConsoleOut.{ConsoleOut};

    ghost Value = { List ConsoleOut };

    ghost view = { λ o. o.outs.items };
}

impl ConsoleOuts {
    /// Nothing yet.
    pub fn new(alloc: Global) -> ConsoleOuts
        ensures { result ≡ [] }
    {
        ConsoleOuts {
            alloc,
            outs: VecDeque::new(alloc),
        }
    }

    /// A text goes to a console.
    pub fn put(&mut self, console: u8, text: &[u8]) -> Result<(), NoMemory>
        ensures ok { OnOk result (self.new ≡ self.old ++ out.Text console text.now ∷ []) }
        ensures err { OnErr result (self.new ≡ self.old) }
    {
        let mut copy = TextOut::new(self.alloc);
        copy.octets(text)?;
        self.outs.push_back(ConsoleOut::Text {
            console,
            text: copy,
        })?;
        Ok(())
    }

    /// A console is closed.
    pub fn close(&mut self, console: u8) -> Result<(), NoMemory>
        ensures ok { OnOk result (self.new ≡ self.old ++ out.Closed console ∷ []) }
        ensures err { OnErr result (self.new ≡ self.old) }
    {
        self.outs.push_back(ConsoleOut::Closed { console })?;
        Ok(())
    }

    /// The oldest: it waits no longer. None where nothing waits.
    pub fn next(&mut self) -> Option<ConsoleOut>
        ensures first { result ≡ slice_get self.old 0 }
        ensures rest { self.new ≡ drop 1 self.old }
    {
        self.outs.pop_front()
    }

    /// How many wait.
    pub fn len(&self) -> usize
        ensures { result ≡ length self.now }
    {
        self.outs.len()
    }

    /// How many bytes wait for a console; at most 2^64 - 1 are counted.
    #[tactic(auto, using(crate::proofs::Counting::counts_next, crate::proofs::Counting::counts_end))]
    pub fn waiting(&self, console: u8) -> usize
        ensures { result ≡ min (consoles.octets_for console self.now) (2 ^ 64 - 1) }
    {
        let mut bytes: usize = 0;
        for out in self.outs.iter() {
            bytes = bytes.saturating_add(bytes_for(out, console));
        }
        bytes
    }
}

fn bytes_for(out: &ConsoleOut, at: u8) -> usize
    ensures { result ≡ consoles.octets_in at out.now }
{
    match out {
        ConsoleOut::Text { console, text } if *console == at => text.bytes().len(),
        _ => 0,
    }
}

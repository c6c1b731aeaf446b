//! Who was heard at a port. Called by the crates that run a station.
ghost use Rattle.std.specs.Prelude.{◌≡◌, ◌≤◌, [], length, take};
ghost use Rattle.station_ports.specs.Hearing as hearing;

use arrayvec::ArrayVec;
use ax_address::Call;
use radio_base::Moment;
use std::marker::Model;

/// A call that was heard at a port.
#[derive(Clone, Copy, Debug, PartialEq, Eq)]
pub struct Heard {
    pub call: Call,
    /// How many frames it was heard in since it is in the list; the count stands still at 2^64 - 1.
    pub count: u64,
    /// When the last one came.
    pub last: Moment,
}

impl Default for Heard {
    /// What an unused place of an `ArrayVec` holds.
    fn default() -> Self {
        Heard {
            call: Call::default(),
            count: 0,
            last: Moment(0),
        }
    }
}

/// The last 32 calls that were heard at a port, the latest first. No call takes memory.
#[derive(Drop)]
pub struct HeardList {
    heard: ArrayVec<Heard, 32>,
}

impl Model for HeardList {
    ghost use Rattle.std.specs.Prelude.{List};
    ghost use Rattle.station_ports.specs.declared.heard_list.Heard.{Heard};

    ghost Value = { List Heard };

    ghost view = { λ l. l.heard.items };
}

impl HeardList {
    /// Nobody yet.
    pub fn new() -> HeardList
        ensures { result ≡ [] }
    {
        HeardList {
            heard: ArrayVec::new(),
        }
    }

    /// Notes a frame in which this call was heard: the call moves to the front, and where 32 others stand there, the oldest goes.
    pub fn note(&mut self, call: &Call, now: Moment)
        ensures { self.new ≡ hearing.noted call.now now self.old }
    {
        let first = Heard {
            call: *call,
            count: count_of(self.heard.as_slice(), call).saturating_add(1),
            last: now,
        };
        forget(call, &mut self.heard);
        make_room(&mut self.heard);
        self.heard.insert(0, first);
    }

    /// The calls, the latest first.
    pub fn as_slice(&self) -> &[Heard]
        ensures items { result.now ≡ self.now }
        ensures few { length self.now ≤ 32 }
    {
        self.heard.as_slice()
    }
}

/// How many frames a call was heard in, as the list has it.
fn count_of(heard: &[Heard], call: &Call) -> u64
    ensures { result ≡ hearing.count_of call.now heard.now }
{
    let found = heard.iter().find(|one| one.call == *call);
    found.map(|one| one.count).unwrap_or(0)
}

/// Takes a call out.
fn forget(call: &Call, heard: &mut ArrayVec<Heard, 32>)
    ensures { heard.new.items ≡ hearing.without call.now heard.old.items }
{
    heard.retain(|one| one.call != *call);
}

/// Where 32 stand, the one that was heard longest ago goes.
fn make_room(heard: &mut ArrayVec<Heard, 32>)
    ensures items { heard.new.items ≡ take 31 heard.old.items }
    ensures room { length heard.new.items ≤ 31 }
{
    if heard.is_full() {
        let _ = heard.pop();
    }
}

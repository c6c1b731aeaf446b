//! Who tells moments. Called by `cmd_streams` and `node_cmd`.
ghost use Rattle.std.specs.Prelude.{◌≡◌, ◌≤◌, [], ◌∷◌, List, ℕ, Option};
ghost use Rattle.radio_base.specs.Causes.{Gains, Ticking, moment_of, moments_told, after_moment};

use crate::moment::Moment;
use std::marker::Model;

/// A clock that never goes back. It tells what it has handed out always or never, but for the end of a count (`Gains`).
pub trait Clock {
    /// The moments handed out, in order, where it tells them.
    ghost given: { Self → Option (List ℕ) };

    /// A lower bound of the moments that are still to come.
    ghost least: { Self → ℕ };

    /// The moment now. None that was handed out before is later.
    fn now(&mut self) -> Moment
        ensures after { least self.old ≤ result.0 }
        ensures before { result.0 ≤ least self.new }
        ensures told { Gains (given self.old) (given self.new) (result.0 ∷ []) };
}

/// A clock that goes on by a fixed step from one moment to the next, and stands still at 2^64 - 1.
/// It tells its moments as long as it can count them, which are the first 2^64 - 2.
#[derive(Drop)]
pub struct MemClock {
    start: u64,
    step: u64,
    calls: u64,
}

impl Model for MemClock {
    ghost use Rattle.radio_base.specs.Causes.{Ticking};

    ghost Value = { Ticking };

    ghost view = { λ c. record { start = c.start; step = c.step; calls = c.calls } };
}

impl MemClock {
    pub fn new(start: u64, step: u64) -> MemClock
        ensures { result ≡ record { start = start; step = step; calls = 0 } }
    {
        MemClock {
            start,
            step,
            calls: 0,
        }
    }
}

impl Clock for MemClock {
    ghost given = { moments_told };

    ghost least = { moment_of };

    fn now(&mut self) -> Moment
        ensures exact { result.0 ≡ moment_of self.old }
        ensures counted { self.new ≡ after_moment self.old }
        ensures after { moment_of self.old ≤ result.0 }
        ensures before { result.0 ≤ moment_of self.new }
        ensures told { Gains (moments_told self.old) (moments_told self.new) (result.0 ∷ []) }
    {
        let moment = self
            .start
            .saturating_add(self.calls.saturating_mul(self.step));
        self.calls = self.calls.saturating_add(1);
        Moment(moment)
    }
}

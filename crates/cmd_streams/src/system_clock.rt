//! A clock over the system's clock: the edge of what is proved. Called by `program`, and by `node_cmd`.
ghost use Rattle.std.specs.Prelude.{◌≡◌, None};

use radio_base::{Clock, Moment};
use std::time;

/// A clock over the system's clock that never goes back, in milliseconds from a start of its own.
/// A reading that is lower than the last one, or that fails, counts as the last one. It tells nothing
/// of the moments.
#[derive(Drop)]
pub struct SystemClock<T: time::Clock + Drop> {
    time: T,
    last: u64,
}

impl<T: time::Clock + Drop> SystemClock<T> {
    pub fn new(time: T) -> Self
        ensures { result.last ≡ 0 }
    {
        SystemClock { time, last: 0 }
    }
}

impl<T: time::Clock + Drop> Clock for SystemClock<T> {
    ghost given = { λ _. None };

    ghost least = { λ c. c.last };

    fn now(&mut self) -> Moment {
        if let Ok(time) = self.time.monotonic() {
            let read = u64::try_from(time.as_millis()).unwrap_or(u64::MAX);
            self.last = self.last.max(read);
        }
        Moment(self.last)
    }
}

//! The bytes of a message that is being joined. Called by `joiner`.
ghost use Rattle.std.specs.Prelude.{◌≡◌, ◌<◌, ◌≤◌, [], OnErr, IfOk};
ghost use Rattle.ax_segment.specs.Joining.{Nothing, join_step, begun_by, continued_by, counted};
ghost use Rattle.ax_segment.specs.Pushing.{answer_of};

use crate::{FIRST_BIT, Joined};
use radio_base::NoMemory;
use std::alloc::Global;
use std::mem;

/// The message that is being joined.
#[derive(Drop)]
pub(crate) struct Gathered {
    pub(crate) alloc: Global,
    pub(crate) pid: u8,
    pub(crate) bytes: Vec<u8>,
    /// How many segments are still to come. At 0 nothing is held.
    pub(crate) to_come: u8,
    ghost to_come_fits: { to_come < 128 },
    ghost none_held: { to_come ≡ 0 → bytes.items ≡ [] },
}

impl Gathered {
    ghost use Rattle.ax_segment.specs.Gathering.{held_at};

    pub(crate) fn new(alloc: Global) -> Gathered
        ensures { result.to_come ≡ 0 }
    {
        Gathered {
            alloc,
            pid: 0,
            bytes: Vec::new(alloc),
            to_come: 0,
        }
    }

    /// Takes in a segment.
    pub(crate) fn take_in(&mut self, segment: &[u8]) -> Result<Joined, NoMemory>
        ensures ok { IfOk result (λ joined. (held_at self.new, answer_of joined)
            ≡ join_step (held_at self.old) segment.now) }
        ensures err { OnErr result (held_at self.new ≡ held_at self.old) }
    {
        match segment {
            [] => {
                self.clear();
                Ok(Joined::Short)
            }
            [header, rest @ ..] => {
                if self.to_come == 0 {
                    self.begin(*header, rest)
                } else {
                    self.go_on(*header, rest)
                }
            }
        }
    }

    /// Takes in a segment where a first one has to come.
    fn begin(&mut self, header: u8, rest: &[u8]) -> Result<Joined, NoMemory>
        requires { self.old.to_come ≡ 0 }
        ensures ok { IfOk result (λ joined. (held_at self.new, answer_of joined) ≡ begun_by header rest.now) }
        ensures err { OnErr result (self.new.to_come ≡ 0) }
    {
        if header < FIRST_BIT {
            return Ok(Joined::Broken {
                expected: None,
                found: header,
            });
        }
        match rest {
            [] => Ok(Joined::Short),
            [pid, bytes @ ..] => {
                let mut begun = Vec::new(self.alloc);
                begun.extend_from_slice(bytes)?;
                Ok(self.count(*pid, begun, header % FIRST_BIT))
            }
        }
    }

    /// Takes in a segment where one that isn't the first has to come.
    fn go_on(&mut self, header: u8, rest: &[u8]) -> Result<Joined, NoMemory>
        requires { 0 < self.old.to_come }
        ensures ok { IfOk result (λ joined. (held_at self.new, answer_of joined)
            ≡ continued_by self.old.pid self.old.bytes.items self.old.to_come header rest.now) }
        ensures err { OnErr result (held_at self.new ≡ held_at self.old) }
    {
        let expected = self.to_come - 1;
        if header != expected {
            self.clear();
            return Ok(Joined::Broken {
                expected: Some(expected),
                found: header,
            });
        }
        self.bytes.extend_from_slice(rest)?;
        let bytes = mem::replace(&mut self.bytes, Vec::new(self.alloc));
        Ok(self.count(self.pid, bytes, expected))
    }

    /// Drops what is held.
    pub(crate) fn clear(&mut self)
        ensures { held_at self.new ≡ Nothing }
    {
        self.bytes.clear();
        self.to_come = 0;
    }

    /// Holds these bytes, with so many segments still to come, or hands them out where none is.
    fn count(&mut self, pid: u8, bytes: Vec<u8>, to_come: u8) -> Joined
        requires { to_come < 128 }
        ensures { (held_at self.new, answer_of result) ≡ counted pid bytes.items to_come }
    {
        if to_come == 0 {
            self.clear();
            return Joined::Whole {
                pid,
                message: bytes,
            };
        }
        self.pid = pid;
        self.bytes = bytes;
        self.to_come = to_come;
        Joined::More
    }
}

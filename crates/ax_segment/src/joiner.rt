//! Segments are joined to messages. Called by `link_table`.
ghost use Rattle.std.specs.Prelude.{◌≡◌, ◌≤◌, length, IfOk, IfSome, OnOk, OnErr};
ghost use Rattle.ax_segment.specs.Joining.{Nothing, join_step, held_of, whole_of, IsWithin, kept};
ghost use Rattle.ax_segment.specs.Pushing.{answer_of};

use crate::Joined;
use crate::gathered::Gathered;
use crate::whole::whole_by;
use radio_base::NoMemory;
use std::alloc::Global;
use std::marker::Model;

/// Joins the segments of one message after another.
#[derive(Drop)]
pub struct Joiner {
    gathered: Gathered,
}

impl Model for Joiner {
    ghost use Rattle.std.specs.Prelude.{◌≡◌, length};
    ghost use Rattle.ax_segment.specs.Joining.{HeldMessage, kept};
    ghost use Rattle.ax_segment.specs.Gathering.{held_at};

    ghost Value = { HeldMessage };

    ghost view = { λ j. held_at j.gathered };

    // Its buffer has no octet that the model doesn't show.
    ghost invariant = { λ j. length j.gathered.bytes.items ≡ kept (held_at j.gathered) };
}

impl Joiner {
    /// A joiner that holds nothing.
    pub fn new(alloc: Global) -> Joiner
        ensures { result ≡ Nothing }
    {
        Joiner {
            gathered: Gathered::new(alloc),
        }
    }

    /// Drops what is held.
    pub fn clear(&mut self)
        ensures { self.new ≡ Nothing }
    {
        self.gathered.clear();
    }

    /// The PID, the number of bytes and the count of segments still to come of what is held: none where nothing is held.
    /// The count is 1 to 127.
    pub fn held(&self) -> Option<(u8, usize, u8)>
        ensures held { result ≡ held_of self.now }
        ensures count { IfSome result (λ h. (1 ≤ h.2) × (h.2 ≤ 127)) }
    {
        if self.gathered.to_come == 0 {
            None
        } else {
            Some((
                self.gathered.pid,
                self.gathered.bytes.as_slice().len(),
                self.gathered.to_come,
            ))
        }
    }

    /// The PID and the number of bytes of the message that a segment would make whole if it came next: none where it would
    /// make none whole. Nothing is taken in.
    pub fn whole_by(&self, segment: &[u8]) -> Option<(u8, usize)>
        ensures { result ≡ whole_of (join_step self.now segment.now).1 }
    {
        whole_by(&self.gathered, segment)
    }

    /// Takes in the next segment. Where memory ran out, what is held stays as it was.
    pub fn push(&mut self, segment: &[u8]) -> Result<Joined, NoMemory>
        ensures held { OnOk result (self.new ≡ (join_step self.old segment.now).0) }
        ensures answer { IfOk result (λ joined. answer_of joined ≡ (join_step self.old segment.now).1) }
        ensures err { OnErr result (self.new ≡ self.old) }
        ensures within { length segment.now ≤ 256 → IsWithin self.old → IsWithin self.new }
        ensures kept { length segment.now ≤ 256 → IsWithin self.old → kept self.new ≤ 32639 }
    {
        self.gathered.take_in(segment)
    }
}

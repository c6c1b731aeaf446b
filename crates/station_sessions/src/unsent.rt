//! What is left of a text, and waits for room on a link. Used by `session` and `far`.
ghost use Rattle.std.specs.Prelude.{◌≡◌, ◌≤◌, [], drop, length, not, OnOk};
ghost use Rattle.station_sessions.specs.Sessions.{has_some};

use radio_base::NoMemory;
use std::alloc::Global;
use std::marker::Model;

/// What is left of the text that was given to a side last, and waits for room on its link.
#[derive(Drop)]
pub struct Unsent {
    alloc: Global,
    bytes: Vec<u8>,
    /// How many of these have gone.
    gone: usize,
}

impl Model for Unsent {
    ghost use Rattle.std.specs.Prelude.{ℕ, List, drop, length, ◌≤◌};

    ghost Value = { List ℕ };

    ghost view = { λ u. drop u.gone u.bytes.items };

    ghost invariant = { λ u. u.gone ≤ length u.bytes.items };
}

impl Unsent {
    /// Nothing waits.
    pub fn new(alloc: Global) -> Unsent
        ensures { result ≡ [] }
    {
        Unsent {
            alloc,
            bytes: Vec::new(alloc),
            gone: 0,
        }
    }

    /// Whether nothing waits.
    pub fn is_empty(&self) -> bool
        ensures { result ≡ not (has_some self.now) }
    {
        self.as_slice().is_empty()
    }

    /// What waits.
    pub fn as_slice(&self) -> &[u8]
        ensures { result.now ≡ self.now }
    {
        &self.bytes[self.gone..]
    }

    /// This waits, and nothing else.
    pub fn set(&mut self, text: &[u8]) -> Result<(), NoMemory>
        ensures { OnOk result (self.new ≡ text.now) }
    {
        self.bytes = text.to_vec(self.alloc)?;
        self.gone = 0;
        Ok(())
    }

    /// So many of its bytes have gone: of those at its front.
    pub fn went(&mut self, count: usize)
        requires { count ≤ length self.old }
        ensures { self.new ≡ drop count self.old }
    {
        self.gone += count;
    }

    /// What waits is let fall.
    pub fn forget(&mut self)
        ensures { self.new ≡ [] }
    {
        self.gone = self.bytes.len();
    }
}

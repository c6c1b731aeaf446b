//! Numbers that one number leads to: a linear congruential generator modulo 2^64. Called by `file`.
ghost use Rattle.std.specs.Prelude.{◌≡◌, ◌<◌};
ghost use Rattle.network_soak.specs.Files as draws;

/// The state of the draws.
#[derive(Clone, Copy, Debug, PartialEq, Eq)]
pub struct Draws {
    pub x: u64,
}

impl Draws {
    /// The next draw, below the bound.
    pub fn below(&mut self, bound: u64) -> u64
        requires { 0 < bound }
        ensures value { result ≡ draws.draw bound self.old.x }
        ensures next { self.new.x ≡ draws.next self.old.x }
        ensures most { result < bound }
    {
        self.x = self
            .x
            .wrapping_mul(6364136223846793005)
            .wrapping_add(1442695040888963407);
        self.x / 8589934592 % bound
    }
}

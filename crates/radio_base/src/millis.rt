//! Counts of milliseconds that can be added. Called by `ax_link` and `circuit_l4`.
ghost use Rattle.std.specs.Prelude.{◌≡◌, ◌≤◌, ℕ, min};
ghost use Rattle.radio_base.specs.declared.modulus.TheConstants.{COUNT_MAX};

use crate::modulus::COUNT_MAX;
use crate::moment::Moment;
use std::marker::Model;

/// A count of milliseconds to which another can be added: at most 2^62.
#[derive(Clone, Copy, Debug)]
pub struct Millis(u64);

impl Model for Millis {
    ghost use Rattle.std.specs.Prelude.{◌≡◌, ◌≤◌, ℕ, refl};
    ghost use Rattle.radio_base.specs.declared.modulus.TheConstants.{COUNT_MAX};

    ghost Value = { ℕ };

    ghost view = { λ m. m.0 };

    ghost invariant = { λ m. m.0 ≤ COUNT_MAX };

    ghost inverse = { λ n. record { 0 = n } };

    ghost inverse_ok = { λ m h. refl };
}

impl Millis {
    /// The moment; 2^62 ms, where it is later.
    pub fn of(now: Moment) -> Millis
        ensures { result ≡ min now.0 COUNT_MAX }
    {
        Millis(now.0.min(COUNT_MAX))
    }

    /// The count.
    pub fn ms(self) -> u64
        ensures value { result ≡ self }
        ensures most { result ≤ COUNT_MAX }
    {
        self.0
    }
}

//! The octets of a frame that waits. Called by `pending` and `written`, and by `node_core` and the replay.
use ax_frame::FrameBytes;
use radio_base::NoMemory;
use std::alloc::Global;
use std::marker::Model;

/// The octets of a frame, at most 1,023. They take no more room than they need, and are moved without a copy; a clause sees them as
/// those of a `FrameBytes`.
#[derive(Debug, Drop)]
pub struct Octets {
    bytes: Vec<u8>,
}

impl Model for Octets {
    ghost use Rattle.std.specs.Prelude.{ℕ, ◌≤◌, length};
    ghost use Rattle.arrayvec.specs.ArrayVec.{ArrayVec};

    ghost Value = { ArrayVec ℕ };

    ghost view = { λ o. record { items = o.bytes.items } };

    ghost invariant = { λ o. length o.bytes.items ≤ 1023 };
}

impl Octets {
    ghost use Rattle.std.specs.Prelude.{◌≡◌, ◌≤◌, length, IfOk};

    /// The same octets.
    pub fn new(alloc: Global, octets: &FrameBytes) -> Result<Octets, NoMemory>
        ensures { IfOk result (λ copy. copy ≡ octets.now) }
    {
        Ok(Octets {
            bytes: octets.as_slice().to_vec(alloc)?,
        })
    }

    /// These octets, which are moved.
    pub fn from_vec(bytes: Vec<u8>) -> Octets
        requires { length bytes.items ≤ 1023 }
        ensures { result.items ≡ bytes.items }
    {
        Octets { bytes }
    }

    /// The octets.
    pub fn as_slice(&self) -> &[u8]
        ensures value { result.now ≡ self.now.items }
        ensures few { length result.now ≤ 1023 }
    {
        &self.bytes
    }
}

impl PartialEq for Octets {
    ghost use Rattle.std.specs.Prelude.{nat_eq};
    ghost use Rattle.std.specs.Cmp.{on_per, partial_equiv_from_equiv};
    ghost use Rattle.std.specs.Cmp.Lexicographic.{nat_list_eq_equiv, pointwise};

    ghost eq = { λ a b. pointwise nat_eq a.items b.items };

    ghost laws = { on_per (λ a. a.items) (partial_equiv_from_equiv nat_list_eq_equiv) };

    fn eq(&self, other: &Octets) -> bool {
        self.as_slice() == other.as_slice()
    }
}

impl Eq for Octets {
    ghost use Rattle.std.specs.Cmp.{on_equiv};
    ghost use Rattle.std.specs.Cmp.Lexicographic.{nat_list_eq_equiv};

    ghost laws = { on_equiv (λ a. a.items) nat_list_eq_equiv };
}

//! What takes datagrams to neighbours, as a trait. Called by `router`.
ghost use Rattle.std.specs.Prelude.{◌≡◌, ◌↔◌, true, List, [], ◌∷◌, ◌++◌, drop, slice_get, IfOk};
ghost use Rattle.l3_datagram.specs.Datagrams.{CarrierCall, Parcel, Offer, Collect, Fail};
ghost use Rattle.ax_address.specs.Callsign.{Callsign};

use crate::Datagram;
use ax_address::Call;
use radio_base::{Moment, NoMemory};

/// What a carrier does with a datagram.
#[derive(Clone, Copy, Debug, PartialEq, Eq)]
pub enum Offered {
    /// It takes it, and may still lose it.
    Taken,
    /// It has no room for it.
    Dropped,
}

/// What takes datagrams to neighbours, and brings theirs.
pub trait Carrier {
    /// The pairs of neighbour and datagram that came and weren't collected, in order.
    ghost waiting: { Self → List Parcel };

    /// The neighbours that were lost and weren't yet told, in order.
    ghost lost: { Self → List Callsign };

    /// These calls, with their arguments and answers, lead from the one carrier to the other.
    ghost made: { Self → List CarrierCall → Self → Type 0 };

    /// Hands a datagram down to a neighbour. Where there is no memory for it, no more is said.
    fn offer(&mut self, to: &Call, datagram: &Datagram, now: Moment) -> Result<Offered, NoMemory>
        ensures made { IfOk result (λ answer. made self.old (Offer to.now datagram.now now.0 answer ∷ []) self.new) }
        ensures waiting { waiting self.new ≡ waiting self.old }
        ensures lost { lost self.new ≡ lost self.old };

    /// Takes the first datagram that waits, with the neighbour from which it came.
    fn collect(&mut self) -> Option<(Call, Datagram)>
        ensures made { made self.old (Collect result ∷ []) self.new }
        ensures answer { result ≡ slice_get (waiting self.old) 0 }
        ensures waiting { waiting self.new ≡ drop 1 (waiting self.old) }
        ensures lost { lost self.new ≡ lost self.old };

    /// Takes the first neighbour that was lost and not yet told.
    fn failed(&mut self) -> Option<Call>
        ensures made { made self.old (Fail result ∷ []) self.new }
        ensures answer { result ≡ slice_get (lost self.old) 0 }
        ensures lost { lost self.new ≡ drop 1 (lost self.old) }
        ensures waiting { waiting self.new ≡ waiting self.old };

    /// Whether no neighbour is lost and untold, and no datagram waits.
    fn is_idle(&self) -> bool
        ensures { result ≡ true ↔ (lost self.now ≡ []) × (waiting self.now ≡ []) };

    // No call leads from a carrier to itself.
    ghost none_made: { (c : Self) → made c [] c };

    // Calls and then more calls are all of them.
    ghost more_made: { (a b c : Self) (calls more : List CarrierCall) → made a calls b → made b more c
        → made a (calls ++ more) c };
}

//! Ends among those that a node holds. Called by `loud` and `receiving`.
ghost use Rattle.std.specs.Prelude.{◌≡◌, None};
ghost use Rattle.circuit_table.specs.Sets as sets;
ghost use Rattle.circuit_table.specs.Standing.{FirstFit, FirstLoud, Rests};
ghost use Rattle.circuit_table.specs.Still.{AreStill};

use crate::holder::Holder;
use ax_address::Call;
use circuit_l4::Pair;
use indexmap::map::Slice;

/// The number of the first end that has something to tell.
pub(crate) fn first_untold(ends: Slice<'_, u64, Holder>) -> Option<u64>
    ensures first { FirstLoud result ends.entry }
    ensures rests { result ≡ None → Rests ends.entry }
    ensures still { result ≡ None → AreStill ends.entry }
{
    let mut rest = ends;
    while let Some(((id, holder), later)) = rest.split_first() {
        if !holder.is_quiet() {
            return Some(*id);
        }
        rest = later;
    }
    None
}

/// The number of the open end that a request from this node with this pair has opened.
pub(crate) fn opened_by(ends: Slice<'_, u64, Holder>, origin: &Call, pair: Pair) -> Option<u64>
    ensures { FirstFit (sets.opened_by origin.now pair) result ends.entry }
{
    let mut rest = ends;
    while let Some(((id, holder), later)) = rest.split_first() {
        if holder.is_opened_by(origin, pair) {
            return Some(*id);
        }
        rest = later;
    }
    None
}

/// The number of the open end with this pair, whose partner is at this node.
pub(crate) fn named_by(ends: Slice<'_, u64, Holder>, origin: &Call, pair: Pair) -> Option<u64>
    ensures { FirstFit (sets.named_by origin.now pair) result ends.entry }
{
    let mut rest = ends;
    while let Some(((id, holder), later)) = rest.split_first() {
        if holder.is_named_by(origin, pair) {
            return Some(*id);
        }
        rest = later;
    }
    None
}

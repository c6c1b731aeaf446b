//! The pairs by which a node names its ends (this project's profile). Called by `held_ends`.
ghost use Rattle.std.specs.Prelude.{◌≡◌};
ghost use Rattle.circuit_table.specs.Pairs as order;
ghost use Rattle.circuit_table.specs.Standing.{pairs_of};

use crate::holder::Holder;
use circuit_l4::Pair;
use indexmap::map::Slice;

/// The pair after this one: the index goes first, and both go from 1 to 255.
pub(crate) fn pair_after(pair: Pair) -> Pair
    ensures { result ≡ order.pair_after pair }
{
    if pair.index < 255 {
        return Pair {
            index: pair.index + 1,
            ident: pair.ident,
        };
    }
    Pair {
        index: 1,
        ident: if pair.ident < 255 { pair.ident + 1 } else { 1 },
    }
}

/// Whether one of these ends has the index of this pair.
fn is_used(ends: &Slice<'_, u64, Holder>, pair: Pair) -> bool
    ensures { result ≡ order.is_used pair (pairs_of ends.now) }
{
    match ends.split_first() {
        Some(((_, holder), rest)) => { holder.pair.index == pair.index || is_used(&rest, pair) }
        None => false,
    }
}

/// The first pair from this one on whose index none of these ends has, where at most so many are skipped.
pub(crate) fn next_free(ends: &Slice<'_, u64, Holder>, many: u8, from: Pair) -> Pair
    ensures { result ≡ order.next_free many (pairs_of ends.now) from }
{
    if many == 0 || !is_used(ends, from) {
        return from;
    }
    next_free(ends, many - 1, pair_after(from))
}

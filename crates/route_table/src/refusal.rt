//! Why a table refuses. Used by `table`, and by `node_core`.
use std::alloc::AllocError;

/// Why a route was not locked in. What stands first comes first.
#[derive(Clone, Copy, Debug, PartialEq, Eq)]
pub enum LockRefusal {
    /// It leads to the node itself.
    Own,
    /// Its quality is below the least that is used.
    TooLow,
    /// The table has `live` usable routes, and would have `would_be`, more than `MAX_PAIRS`.
    TableFull { live: usize, would_be: usize },
    NoMemory,
}

/// Why a broadcast was not taken in.
#[derive(Clone, Copy, Debug, PartialEq, Eq)]
pub enum HeardRefusal {
    /// The table has `live` usable routes, and would have `would_be`, more than `MAX_PAIRS`.
    TableFull { live: usize, would_be: usize },
    NoMemory,
}

impl From<AllocError> for HeardRefusal {
    ghost use Rattle.std.specs.Prelude.{◌≡◌};
    ghost use Rattle.route_table.specs.declared.refusal.HeardRefusal.TheVariants.{NoMemory};

    ghost from_gives = { λ _ e. e ≡ NoMemory };

    fn from(_: AllocError) -> Self {
        HeardRefusal::NoMemory
    }
}

impl From<AllocError> for LockRefusal {
    ghost use Rattle.std.specs.Prelude.{◌≡◌};
    ghost use Rattle.route_table.specs.declared.refusal.LockRefusal.TheVariants.{NoMemory};

    ghost from_gives = { λ _ e. e ≡ NoMemory };

    fn from(_: AllocError) -> Self {
        LockRefusal::NoMemory
    }
}

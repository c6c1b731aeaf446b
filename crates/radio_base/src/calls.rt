//! The numbers of calls that fail, for sources and sinks in memory. Called by `mem_sink` and `mem_source`.
ghost use Rattle.std.specs.Prelude.{◌≡◌, ◌↔◌, IsTrue};
ghost use Rattle.radio_base.specs.Memory.{NextFails};

/// Whether the next call's number stands among those that fail. Calls are numbered from 1 to
/// 2^64 - 1, and later ones have no number.
pub fn next_fails(calls: u64, fails: &[u64]) -> bool
    ensures { IsTrue result ↔ NextFails calls fails.now }
{
    calls < u64::MAX && fails.contains(&(calls + 1))
}

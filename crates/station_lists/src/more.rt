//! The most that a list names, and how many there are beside those. Used by `destinations`, `neighbours` and `links`.
ghost use Rattle.std.specs.Prelude.{◌≡◌, ◌++◌, OnOk, take};
ghost use Rattle.station_lists.specs.Lists as lists;

use radio_base::{NoMemory, TextOut};
use std::alloc::Global;

/// Adds how many there are beside those that were named, where there are any.
pub(crate) fn add_more(alloc: Global, more: usize, reply: &mut TextOut) -> Result<(), NoMemory>
    ensures { OnOk result (reply.new ≡ reply.old ++ lists.more_text more) }
{
    if more == 0 {
        return Ok(());
    }
    let line = format!(in alloc; "and {more} more\r")?;
    reply.text(line.as_str())?;
    Ok(())
}

/// The first of these, at most so many.
pub(crate) fn first_of<T>(most: usize, all: &[T]) -> &[T]
    ensures { result.now ≡ take most all.now }
{
    if all.len() <= most { all } else { &all[..most] }
}

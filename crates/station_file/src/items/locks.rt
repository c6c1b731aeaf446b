//! The routes that a node locks in. Called by `nodes`.
ghost use Rattle.std.specs.Prelude.{◌≡◌, ◌≤◌, ◌+◌, [], length, map, option_map, Ok, Err, MatchResult};
ghost use Rattle.toml.specs.View.{view};
ghost use Rattle.text_lines.specs.Lines.{words_of};
ghost use Rattle.station_file.specs.Items as lists;

use crate::items::{alias_of, call_of, in_item, item_needs, quality_of, text_of};
use crate::limits::MAX_LOCKS;
use crate::values::list;
use crate::why::{ItemFault, Why};
use arrayvec::ArrayVec;
use ax_address::{Alias, Call};
use text_lines::first_word;
use toml::Value;

/// A route that is locked in.
#[derive(Clone, Copy, Debug, Default, PartialEq, Eq)]
pub struct Lock {
    pub dest: Call,
    pub alias: Alias,
    pub neighbour: Call,
    pub quality: u8,
}

/// The routes that are locked in at the node of this call, each of at least this quality.
#[tactic(auto, unfolding(crate::specs::Items::locks_at))]
pub fn read_locks(
    value: Option<&Value>,
    own: &Call,
    least: u32,
) -> Result<ArrayVec<Lock, MAX_LOCKS>, Why>
    ensures { MatchResult result (λ v. lists.locks_at own.now least (option_map (λ v. view v.now) value.entry) ≡ Ok v.items)
        (λ e. lists.locks_at own.now least (option_map (λ v. view v.now) value.entry) ≡ Err e) }
{
    let mut locks = ArrayVec::new();
    let items = list(value, MAX_LOCKS)?;
    add_locks(&mut locks, own, least, 1, items)?;
    Ok(locks)
}

fn add_locks(
    locks: &mut ArrayVec<Lock, MAX_LOCKS>,
    own: &Call,
    least: u32,
    number: usize,
    items: &[Value],
) -> Result<(), Why>
    requires room { length locks.old.items + length items.now ≤ 64 }
    requires number { number + length items.now ≤ 65 }
    ensures { MatchResult result
        (λ _. lists.locks_from own.now least number locks.old.items (map view items.now) ≡ Ok locks.new.items)
        (λ e. lists.locks_from own.now least number locks.old.items (map view items.now) ≡ Err e) }
{
    match items {
        [] => Ok(()),
        [item, more @ ..] => {
            let lock = in_item(number, lock_item(own, least, item))?;
            locks.push(lock);
            add_locks(locks, own, least, number + 1, more)?;
            Ok(())
        }
    }
}

#[tactic(auto, unfolding(crate::specs::Items::lock_item))]
fn lock_item(own: &Call, least: u32, item: &Value) -> Result<Lock, ItemFault>
    ensures { result ≡ lists.lock_item own.now least (view item.now) }
{
    let text = text_of(item)?;
    lock_words(own, least, text)
}

fn lock_words(own: &Call, least: u32, text: &[u8]) -> Result<Lock, ItemFault>
    ensures { result ≡ lists.lock_words own.now least (words_of text.now) }
{
    let Some((dest, rest)) = first_word(text) else {
        return Err(ItemFault::NotLock);
    };
    let Some((alias, rest)) = first_word(rest) else {
        return Err(ItemFault::NotLock);
    };
    let Some((neighbour, rest)) = first_word(rest) else {
        return Err(ItemFault::NotLock);
    };
    let Some((quality, rest)) = first_word(rest) else {
        return Err(ItemFault::NotLock);
    };
    match first_word(rest) {
        None => lock_from(own, least, dest, alias, neighbour, quality),
        Some(_) => Err(ItemFault::NotLock),
    }
}

#[tactic(auto, unfolding(crate::specs::Items::lock_from))]
fn lock_from(
    own: &Call,
    least: u32,
    dest: &[u8],
    alias: &[u8],
    neighbour: &[u8],
    quality: &[u8],
) -> Result<Lock, ItemFault>
    ensures { result ≡ lists.lock_from own.now least dest.now alias.now neighbour.now quality.now }
{
    let dest = call_of(dest)?;
    let alias = alias_of(alias)?;
    let neighbour = call_of(neighbour)?;
    let quality = quality_of(quality)?;
    item_needs(dest != *own, ItemFault::Own)?;
    item_needs(quality as u32 >= least, ItemFault::TooLow { least })?;
    Ok(Lock {
        dest,
        alias,
        neighbour,
        quality,
    })
}

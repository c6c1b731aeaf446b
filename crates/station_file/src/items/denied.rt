//! The calls that a station doesn't hear. Called by `station`.
ghost use Rattle.std.specs.Prelude.{◌≡◌, ◌≤◌, ◌+◌, [], length, map, option_map, Ok, Err, MatchResult};
ghost use Rattle.toml.specs.View.{view};
ghost use Rattle.station_file.specs.Items as lists;

use crate::items::{call_of, in_item, text_of};
use crate::limits::MAX_DENY;
use crate::values::list;
use crate::why::{ItemFault, Why};
use arrayvec::ArrayVec;
use ax_address::Call;
use toml::Value;

/// The calls of a list.
#[tactic(auto, unfolding(crate::specs::Items::calls_at))]
pub fn read_denied(value: Option<&Value>) -> Result<ArrayVec<Call, MAX_DENY>, Why>
    ensures { MatchResult result (λ v. lists.calls_at (option_map (λ v. view v.now) value.entry) ≡ Ok v.items)
        (λ e. lists.calls_at (option_map (λ v. view v.now) value.entry) ≡ Err e) }
{
    let mut calls = ArrayVec::new();
    let items = list(value, MAX_DENY)?;
    add_calls(&mut calls, 1, items)?;
    Ok(calls)
}

fn add_calls(
    calls: &mut ArrayVec<Call, MAX_DENY>,
    number: usize,
    items: &[Value],
) -> Result<(), Why>
    requires room { length calls.old.items + length items.now ≤ 64 }
    requires number { number + length items.now ≤ 65 }
    ensures { MatchResult result
        (λ _. lists.calls_from number calls.old.items (map view items.now) ≡ Ok calls.new.items)
        (λ e. lists.calls_from number calls.old.items (map view items.now) ≡ Err e) }
{
    match items {
        [] => Ok(()),
        [item, more @ ..] => {
            let call = in_item(number, call_item(item))?;
            calls.push(call);
            add_calls(calls, number + 1, more)?;
            Ok(())
        }
    }
}

#[tactic(auto, unfolding(crate::specs::Items::call_item))]
fn call_item(item: &Value) -> Result<Call, ItemFault>
    ensures { result ≡ lists.call_item (view item.now) }
{
    let text = text_of(item)?;
    call_of(text)
}

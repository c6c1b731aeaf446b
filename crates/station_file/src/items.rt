//! The items of lists, and the words of an item. Called by the files in `items/`, and by `nodes`, `beacons` and `station`.
ghost use Rattle.std.specs.Prelude.{◌≡◌};
ghost use Rattle.toml.specs.View.{view};
ghost use Rattle.station_file.specs.Items as lists;

pub mod denied;
pub mod locks;
pub mod port_numbers;
pub mod qualities;
pub mod vias;

use crate::why::{ItemFault, Why};
use ax_address::{Alias, Call};
use text_lines::number_of;
use toml::Value;

/// What is wrong with an item, where the test fails.
pub fn item_needs(holds: bool, fault: ItemFault) -> Result<(), ItemFault>
    ensures { result ≡ lists.item_needs holds fault }
{
    if holds { Ok(()) } else { Err(fault) }
}

/// What was read of the item of that number, or what is wrong with it.
pub fn in_item<T: Drop>(number: usize, read: Result<T, ItemFault>) -> Result<T, Why>
    ensures { result ≡ lists.in_item number read }
{
    match read {
        Ok(value) => Ok(value),
        Err(fault) => Err(Why::Item { number, fault }),
    }
}

/// The text that the item is.
pub fn text_of(item: &Value) -> Result<&[u8], ItemFault>
    ensures { lists.seen result ≡ lists.item_text (view item.now) }
{
    match item.as_str() {
        Some(text) => Ok(text.as_bytes()),
        None => Err(ItemFault::NotText),
    }
}

/// The call that the word is.
pub fn call_of(word: &[u8]) -> Result<Call, ItemFault>
    ensures { result ≡ lists.call_of word.now }
{
    match Call::read(word) {
        Ok(call) => Ok(call),
        Err(_) => Err(ItemFault::NoCall),
    }
}

/// The alias that the word is.
pub fn alias_of(word: &[u8]) -> Result<Alias, ItemFault>
    ensures { result ≡ lists.alias_of word.now }
{
    match Alias::read(word) {
        Ok(alias) => Ok(alias),
        Err(_) => Err(ItemFault::NoAlias),
    }
}

/// The quality, from 0 to 255, that the word is.
pub fn quality_of(word: &[u8]) -> Result<u8, ItemFault>
    ensures { result ≡ lists.quality_of word.now }
{
    match number_of(0, 255, word) {
        Some(quality) => Ok(quality as u8),
        None => Err(ItemFault::NoQuality),
    }
}

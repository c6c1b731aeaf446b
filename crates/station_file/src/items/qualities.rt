//! The neighbours of a node that have a quality of their own. Called by `nodes`.
ghost use Rattle.std.specs.Prelude.{◌≡◌, ◌≤◌, ◌+◌, [], length, map, option_map, Ok, Err, MatchResult};
ghost use Rattle.toml.specs.View.{view};
ghost use Rattle.text_lines.specs.Lines.{words_of};
ghost use Rattle.station_file.specs.Items as lists;

use crate::items::{call_of, in_item, item_needs, quality_of, text_of};
use crate::limits::MAX_QUALITIES;
use crate::values::list;
use crate::why::{ItemFault, Why};
use arrayvec::ArrayVec;
use ax_address::Call;
use text_lines::first_word;
use toml::Value;

/// The path to a neighbour has a quality of its own.
#[derive(Clone, Copy, Debug, Default, PartialEq, Eq)]
pub struct NeighbourQuality {
    pub neighbour: Call,
    pub quality: u8,
}

/// The neighbours that have a quality of their own, each of which is there once.
#[tactic(auto, unfolding(crate::specs::Items::qualities_at))]
pub fn read_qualities(
    value: Option<&Value>,
) -> Result<ArrayVec<NeighbourQuality, MAX_QUALITIES>, Why>
    ensures { MatchResult result (λ v. lists.qualities_at (option_map (λ v. view v.now) value.entry) ≡ Ok v.items)
        (λ e. lists.qualities_at (option_map (λ v. view v.now) value.entry) ≡ Err e) }
{
    let mut qualities = ArrayVec::new();
    let items = list(value, MAX_QUALITIES)?;
    add_qualities(&mut qualities, 1, items)?;
    Ok(qualities)
}

fn add_qualities(
    qualities: &mut ArrayVec<NeighbourQuality, MAX_QUALITIES>,
    number: usize,
    items: &[Value],
) -> Result<(), Why>
    requires room { length qualities.old.items + length items.now ≤ 16 }
    requires number { number + length items.now ≤ 65 }
    ensures { MatchResult result
        (λ _. lists.qualities_from number qualities.old.items (map view items.now) ≡ Ok qualities.new.items)
        (λ e. lists.qualities_from number qualities.old.items (map view items.now) ≡ Err e) }
{
    match items {
        [] => Ok(()),
        [item, more @ ..] => {
            let quality = in_item(number, quality_item(qualities.as_slice(), item))?;
            qualities.push(quality);
            add_qualities(qualities, number + 1, more)?;
            Ok(())
        }
    }
}

#[tactic(auto, unfolding(crate::specs::Items::quality_item))]
fn quality_item(before: &[NeighbourQuality], item: &Value) -> Result<NeighbourQuality, ItemFault>
    ensures { result ≡ lists.quality_item before.now (view item.now) }
{
    let text = text_of(item)?;
    quality_words(before, text)
}

fn quality_words(before: &[NeighbourQuality], text: &[u8]) -> Result<NeighbourQuality, ItemFault>
    ensures { result ≡ lists.quality_words before.now (words_of text.now) }
{
    let Some((neighbour, rest)) = first_word(text) else {
        return Err(ItemFault::NotQuality);
    };
    let Some((quality, rest)) = first_word(rest) else {
        return Err(ItemFault::NotQuality);
    };
    match first_word(rest) {
        None => quality_from(before, neighbour, quality),
        Some(_) => Err(ItemFault::NotQuality),
    }
}

#[tactic(auto, unfolding(crate::specs::Items::quality_from))]
fn quality_from(
    before: &[NeighbourQuality],
    neighbour: &[u8],
    quality: &[u8],
) -> Result<NeighbourQuality, ItemFault>
    ensures { result ≡ lists.quality_from before.now neighbour.now quality.now }
{
    let neighbour = call_of(neighbour)?;
    let quality = quality_of(quality)?;
    item_needs(!has_quality(before, &neighbour), ItemFault::Twice)?;
    Ok(NeighbourQuality { neighbour, quality })
}

fn has_quality(qualities: &[NeighbourQuality], neighbour: &Call) -> bool
    ensures { result ≡ lists.has_quality qualities.now neighbour.now }
{
    qualities.iter().any(|other| other.neighbour == *neighbour)
}

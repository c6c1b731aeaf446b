//! The peers that a node reaches over repeaters. Called by `nodes`.
ghost use Rattle.std.specs.Prelude.{◌≡◌, ◌≤◌, ◌+◌, [], length, map, option_map, Ok, Err, MatchResult};
ghost use Rattle.toml.specs.View.{view};
ghost use Rattle.text_lines.specs.Lines.{words_of};
ghost use Rattle.station_file.specs.Items as lists;

use crate::items::{call_of, in_item, item_needs, text_of};
use crate::limits::MAX_VIAS;
use crate::values::list;
use crate::why::{ItemFault, Why};
use arrayvec::ArrayVec;
use ax_address::Call;
use network_file::Via;
use text_lines::first_word;
use toml::Value;

/// The peers that a node reaches over repeaters, each of which is there once.
#[tactic(auto, unfolding(crate::specs::Items::vias_at))]
pub fn read_vias(value: Option<&Value>, node: u8) -> Result<ArrayVec<Via, MAX_VIAS>, Why>
    ensures { MatchResult result (λ v. lists.vias_at node (option_map (λ v. view v.now) value.entry) ≡ Ok v.items)
        (λ e. lists.vias_at node (option_map (λ v. view v.now) value.entry) ≡ Err e) }
{
    let mut vias = ArrayVec::new();
    let items = list(value, MAX_VIAS)?;
    add_vias(&mut vias, node, 1, items)?;
    Ok(vias)
}

fn add_vias(
    vias: &mut ArrayVec<Via, MAX_VIAS>,
    node: u8,
    number: usize,
    items: &[Value],
) -> Result<(), Why>
    requires room { length vias.old.items + length items.now ≤ 16 }
    requires number { number + length items.now ≤ 65 }
    ensures { MatchResult result
        (λ _. lists.vias_from node number vias.old.items (map view items.now) ≡ Ok vias.new.items)
        (λ e. lists.vias_from node number vias.old.items (map view items.now) ≡ Err e) }
{
    match items {
        [] => Ok(()),
        [item, more @ ..] => {
            let via = in_item(number, via_item(vias.as_slice(), node, item))?;
            vias.push(via);
            add_vias(vias, node, number + 1, more)?;
            Ok(())
        }
    }
}

#[tactic(auto, unfolding(crate::specs::Items::via_item))]
fn via_item(before: &[Via], node: u8, item: &Value) -> Result<Via, ItemFault>
    ensures { result ≡ lists.via_item node before.now (view item.now) }
{
    let text = text_of(item)?;
    via_words(before, node, text)
}

fn via_words(before: &[Via], node: u8, text: &[u8]) -> Result<Via, ItemFault>
    ensures { result ≡ lists.via_words node before.now (words_of text.now) }
{
    let Some((peer, rest)) = first_word(text) else {
        return Err(ItemFault::NotVia);
    };
    let Some((first, rest)) = first_word(rest) else {
        return Err(ItemFault::NotVia);
    };
    let Some((second, rest)) = first_word(rest) else {
        return via_of(before, node, peer, first, None);
    };
    match first_word(rest) {
        None => via_of(before, node, peer, first, Some(second)),
        Some(_) => Err(ItemFault::NotVia),
    }
}

#[tactic(auto, unfolding(crate::specs::Items::via_of))]
fn via_of(
    before: &[Via],
    node: u8,
    peer: &[u8],
    first: &[u8],
    second: Option<&[u8]>,
) -> Result<Via, ItemFault>
    ensures { result ≡ lists.via_of node before.now peer.now first.now (option_map (λ s. s.now) second.entry) }
{
    let peer = call_of(peer)?;
    let first = call_of(first)?;
    let second = second_call(second)?;
    item_needs(!has_peer(before, &peer), ItemFault::Twice)?;
    Ok(new_via(node, peer, first, second))
}

fn second_call(word: Option<&[u8]>) -> Result<Option<Call>, ItemFault>
    ensures { result ≡ lists.second_call (option_map (λ s. s.now) word.entry) }
{
    match word {
        None => Ok(None),
        Some(word) => {
            let call = call_of(word)?;
            Ok(Some(call))
        }
    }
}

fn new_via(node: u8, peer: Call, first: Call, second: Option<Call>) -> Via
    ensures { result ≡ lists.new_via node peer first second }
{
    let mut repeaters = ArrayVec::new();
    repeaters.push(first);
    match second {
        None => Via {
            node,
            peer,
            repeaters,
        },
        Some(second) => {
            repeaters.push(second);
            Via {
                node,
                peer,
                repeaters,
            }
        }
    }
}

fn has_peer(vias: &[Via], peer: &Call) -> bool
    ensures { result ≡ lists.has_peer vias.now peer.now }
{
    vias.iter().any(|via| via.peer == *peer)
}

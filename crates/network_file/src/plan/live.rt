//! A node that runs alone, as the words of a command declare it. Called by `node_cmd`.
ghost use Rattle.std.specs.Prelude.{◌≡◌, ◌≤◌, ◌++◌, ◌∷◌, length, map, string_bytes, Some, None, Ok, Err, MatchOption, MatchResult};
ghost use Rattle.network_file.specs.Live as live;
ghost use Rattle.text_lines.specs.Lines.{texts};

use crate::limits::{MAX_KEYS, MAX_VIAS};
use crate::lines::declaring::repeaters_of;
use crate::places::{alias, call, needs, new_peer, pair_part, value};
use crate::plan::declarations::Declaration;
use crate::plan::keys::Key;
use crate::plan::pairs::FirstPair;
use crate::plan::settings::{Setting, set_to};
use crate::plan::vias::Via;
use crate::what::What;
use arrayvec::ArrayVec;
use ax_address::{Alias, Call};
use text_lines::place_of;

/// A node that runs alone: the one node of a network of version 3, which keeps no mail.
#[derive(Debug, Drop)]
pub struct LiveNode {
    /// Its number is 1.
    pub declared: Declaration,
    pub settings: ArrayVec<Setting, MAX_KEYS>,
    pub vias: ArrayVec<Via, MAX_VIAS>,
    /// The pair that it gives first, where one is named.
    pub pair: Option<FirstPair>,
}

/// The node that the words declare: `call=CALL`, `alias=ALIAS`, and then in any order `key=value` for any of the keys of a `set`
/// line, `via=CALL,REPEATER` or `via=CALL,REPEATER,REPEATER` for at most sixteen calls, and `pair=INDEX,IDENT`. Each key and each
/// call of a `via` stands once at most, and so does the pair. What is wrong with the words is told as for the lines of a file.
pub fn read_live_node(words: &[String]) -> Result<LiveNode, What>
    ensures { result ≡ live.live_node_at (map (λ w. string_bytes w) words.now) }
{
    match words {
        [name, nick, more @ ..] => live_node(name.as_bytes(), nick.as_bytes(), more),
        _ => Err(What::Count),
    }
}

#[tactic(auto, unfolding(crate::specs::Live::live_node_of))]
fn live_node(name: &[u8], nick: &[u8], more: &[String]) -> Result<LiveNode, What>
    ensures { result ≡ live.live_node_of name.now nick.now (map (λ w. string_bytes w) more.now) }
{
    let name = value_behind(b"call", name)?;
    let nick = value_behind(b"alias", nick)?;
    let call = call(name)?;
    let alias = alias(nick)?;
    let mut node = new_live_node(call, alias);
    add_words(&mut node, more)?;
    Ok(node)
}

/// A node of which nothing else is said.
fn new_live_node(call: Call, alias: Alias) -> LiveNode
    ensures { result ≡ live.new_live_node call alias }
{
    LiveNode {
        declared: Declaration {
            node: 1,
            call,
            alias,
        },
        settings: ArrayVec::new(),
        vias: ArrayVec::new(),
        pair: None,
    }
}

/// Adds what the words say, one after another.
fn add_words(node: &mut LiveNode, words: &[String]) -> Result<(), What>
    ensures { MatchResult result (λ _. live.after_words node.old (map (λ w. string_bytes w) words.now) ≡ Ok node.new)
        (λ e. live.after_words node.old (map (λ w. string_bytes w) words.now) ≡ Err e) }
{
    match words {
        [] => Ok(()),
        [word, more @ ..] => {
            add_word(node, word.as_bytes())?;
            add_words(node, more)?;
            Ok(())
        }
    }
}

/// Adds what a word says.
fn add_word(node: &mut LiveNode, word: &[u8]) -> Result<(), What>
    ensures { MatchResult result (λ _. live.after_word node.old word.now ≡ Ok node.new)
        (λ e. live.after_word node.old word.now ≡ Err e) }
{
    match split_once(b'=', word) {
        Some((name, value)) => {
            if name == b"via".as_slice() {
                add_via(node, value)?;
                Ok(())
            } else if name == b"pair".as_slice() {
                add_pair(node, value)?;
                Ok(())
            } else {
                add_setting(node, name, value)?;
                Ok(())
            }
        }
        None => Err(What::Word),
    }
}

/// `CALL,REPEATER`, or with a second REPEATER
fn add_via(node: &mut LiveNode, text: &[u8]) -> Result<(), What>
    ensures { MatchResult result (λ _. live.with_via node.old text.now ≡ Ok node.new)
        (λ e. live.with_via node.old text.now ≡ Err e) }
{
    match split_once(b',', text) {
        Some((name, rest)) => match split_once(b',', rest) {
            Some((first, second)) => {
                add_way(node, name, &[first, second])?;
                Ok(())
            }
            None => {
                add_way(node, name, &[rest])?;
                Ok(())
            }
        },
        None => Err(What::Count),
    }
}

/// The call of a peer, and its repeaters.
#[tactic(auto, unfolding(crate::specs::Live::with_way))]
fn add_way(node: &mut LiveNode, name: &[u8], words: &[&[u8]]) -> Result<(), What>
    requires { length words.now ≤ 2 }
    ensures { MatchResult result (λ _. live.with_way node.old name.now (texts words.now) ≡ Ok node.new)
        (λ e. live.with_way node.old name.now (texts words.now) ≡ Err e) }
{
    let peer = new_peer(node.vias.as_slice(), 1, name)?;
    let repeaters = repeaters_of(words)?;
    needs(node.vias.len() < MAX_VIAS, What::Value)?;
    node.vias.push(Via {
        node: 1,
        peer,
        repeaters,
    });
    Ok(())
}

/// `INDEX,IDENT`
fn add_pair(node: &mut LiveNode, text: &[u8]) -> Result<(), What>
    ensures { MatchResult result (λ _. live.with_pair node.old text.now ≡ Ok node.new)
        (λ e. live.with_pair node.old text.now ≡ Err e) }
{
    match split_once(b',', text) {
        Some((index, ident)) => {
            set_pair(node, index, ident)?;
            Ok(())
        }
        None => Err(What::Count),
    }
}

#[tactic(auto, unfolding(crate::specs::Live::with_pair_of))]
fn set_pair(node: &mut LiveNode, index: &[u8], ident: &[u8]) -> Result<(), What>
    ensures { MatchResult result (λ _. live.with_pair_of node.old index.now ident.now ≡ Ok node.new)
        (λ e. live.with_pair_of node.old index.now ident.now ≡ Err e) }
{
    needs(node.pair.is_none(), What::Twice)?;
    let index = pair_part(index)?;
    let ident = pair_part(ident)?;
    node.pair = Some(FirstPair::new(index, ident));
    Ok(())
}

/// A key and its value.
#[tactic(auto, unfolding(crate::specs::Live::with_setting))]
fn add_setting(node: &mut LiveNode, name: &[u8], text: &[u8]) -> Result<(), What>
    ensures { MatchResult result (λ _. live.with_setting node.old name.now text.now ≡ Ok node.new)
        (λ e. live.with_setting node.old name.now text.now ≡ Err e) }
{
    let key = Key::read(3, name)?;
    let is_new = set_to(node.settings.as_slice(), 1, key).is_none();
    needs(is_new, What::Twice)?;
    let value = value(key.least(), key.most(), text)?;
    needs(key.takes(3, value), What::Value)?;
    needs(node.settings.len() < MAX_KEYS, What::Twice)?;
    node.settings.push(Setting {
        node: 1,
        key,
        value,
    });
    Ok(())
}

/// What stands behind `name=`.
fn value_behind<'a>(name: &[u8], word: &'a [u8]) -> Result<&'a [u8], What>
    ensures { MatchResult result (λ v. live.value_behind name.now word.now ≡ Ok v.now)
        (λ e. live.value_behind name.now word.now ≡ Err e) }
{
    match split_once(b'=', word) {
        Some((front, value)) => {
            if front == name {
                Ok(value)
            } else {
                Err(What::Word)
            }
        }
        None => Err(What::Word),
    }
}

/// What stands before and behind the first such character.
fn split_once(mark: u8, text: &[u8]) -> Option<(&[u8], &[u8])>
    ensures { MatchOption result (live.split_once mark text.now ≡ None)
        (λ x. live.split_once mark text.now ≡ Some (x.0.now, x.1.now)) }
{
    match place_of(mark, text) {
        Some(at) => Some((&text[..at], &text[at + 1..])),
        None => None,
    }
}

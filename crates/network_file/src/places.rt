//! The words of a line, by the rules of their places. Called by most files here.
ghost use Rattle.std.specs.Prelude.{◌≡◌, ◌≤◌, IfOk, MatchOption, None, Some, take};
ghost use Rattle.network_file.specs.Places as places;
ghost use Rattle.text_lines.specs.Lines.{texts};

use crate::limits::{MAX_BURST, MAX_COUNT, MAX_NODES, MAX_TICK, MAX_VIAS};
use crate::plan::declarations::{Declaration, has_call, has_node};
use crate::plan::vias::{Via, has_via, via_count};
use crate::what::What;
use ax_address::{Alias, Call};
use text_lines::{after_space, is_number, number_of, past_word};

/// What is wrong, where the test fails.
pub fn needs(holds: bool, what: What) -> Result<(), What>
    ensures { result ≡ places.needs holds what }
{
    if holds { Ok(()) } else { Err(what) }
}

/// A number from `least` to `most`.
pub fn number(least: u32, most: u32, word: &[u8]) -> Result<u32, What>
    ensures { result ≡ places.number_at least most word.now }
{
    number_of(least, most, word).ok_or(What::Number)
}

/// A number from 0 to 255.
pub fn octet(word: &[u8]) -> Result<u8, What>
    ensures { result ≡ places.number_at 0 255 word.now }
{
    let value = number(0, 255, word)?;
    Ok(value as u8)
}

/// A part of a pair, from 1 to 255.
pub fn pair_part(word: &[u8]) -> Result<u8, What>
    ensures value { result ≡ places.number_at 1 255 word.now }
    ensures least { IfOk result (λ part. 1 ≤ part) }
{
    let value = number(1, 255, word)?;
    Ok(value as u8)
}

/// The number of a frame or of an end, from 1.
pub fn nth(word: &[u8]) -> Result<u32, What>
    ensures { result ≡ places.nth_at word.now }
{
    number(1, u32::MAX, word)
}

/// How many frames, at most.
pub fn frame_count(word: &[u8]) -> Result<u32, What>
    ensures { result ≡ places.number_at 1 100000 word.now }
{
    number(1, MAX_COUNT, word)
}

/// How many texts.
pub fn text_count(word: &[u8]) -> Result<u32, What>
    ensures { result ≡ places.number_at 1 10000 word.now }
{
    number(1, MAX_BURST, word)
}

/// A time in milliseconds.
pub fn time(word: &[u8]) -> Result<u32, What>
    ensures { result ≡ places.number_at 1 86400000 word.now }
{
    number(1, MAX_TICK, word)
}

/// A number of any size, which has to be from `least` to `most`.
#[tactic(auto, unfolding(crate::specs::Places::value_at))]
pub fn value(least: u32, most: u32, word: &[u8]) -> Result<u32, What>
    ensures value { result ≡ places.value_at least most word.now }
    ensures in_range { IfOk result (λ v. (least ≤ v) × (v ≤ most)) }
{
    needs(is_number(word), What::Number)?;
    number_of(least, most, word).ok_or(What::Value)
}

/// The number of a node, declared or not.
fn node_number(word: &[u8]) -> Result<u8, What>
    ensures { result ≡ places.number_at 1 16 word.now }
{
    let value = number(1, MAX_NODES as u32, word)?;
    Ok(value as u8)
}

/// The number of a declared node.
#[tactic(auto, unfolding(crate::specs::Places::node_at))]
pub fn node(declared: &[Declaration], word: &[u8]) -> Result<u8, What>
    ensures { result ≡ places.node_at declared.now word.now }
{
    let node = node_number(word)?;
    needs(has_node(declared, node), What::Node)?;
    Ok(node)
}

/// The number of a node that isn't declared yet.
#[tactic(auto, unfolding(crate::specs::Places::new_node_at))]
pub fn new_node(declared: &[Declaration], word: &[u8]) -> Result<u8, What>
    ensures { result ≡ places.new_node_at declared.now word.now }
{
    let node = node_number(word)?;
    needs(!has_node(declared, node), What::Twice)?;
    Ok(node)
}

/// A call.
pub fn call(word: &[u8]) -> Result<Call, What>
    ensures { result ≡ places.call_at word.now }
{
    match Call::read(word) {
        Ok(call) => Ok(call),
        Err(_) => Err(What::Call),
    }
}

/// A call that no declared node has yet.
#[tactic(auto, unfolding(crate::specs::Places::new_call_at))]
pub fn new_call(declared: &[Declaration], word: &[u8]) -> Result<Call, What>
    ensures { result ≡ places.new_call_at declared.now word.now }
{
    let call = call(word)?;
    needs(!has_call(declared, &call), What::Twice)?;
    Ok(call)
}

/// A call to which the node has no way over repeaters yet.
#[tactic(auto, unfolding(crate::specs::Places::new_peer_at))]
pub fn new_peer(vias: &[Via], node: u8, word: &[u8]) -> Result<Call, What>
    ensures { result ≡ places.new_peer_at vias.now node word.now }
{
    let call = call(word)?;
    needs(!has_via(vias, node, &call), What::Twice)?;
    needs(via_count(vias, node) < MAX_VIAS, What::Value)?;
    Ok(call)
}

/// An alias.
pub fn alias(word: &[u8]) -> Result<Alias, What>
    ensures { result ≡ places.alias_at word.now }
{
    match Alias::read(word) {
        Ok(alias) => Ok(alias),
        Err(_) => Err(What::Alias),
    }
}

/// TEXT, which may hold spaces: what stands behind so many words of a line and one space, if that space is there.
#[tactic(auto, unfolding(crate::specs::Places::text_behind))]
pub fn text_behind(line: &[u8], words: usize) -> Option<&[u8]>
    ensures { MatchOption result (places.text_behind words line.now ≡ None)
        (λ text. places.text_behind words line.now ≡ Some text.now) }
{
    if words == 0 {
        after_space(line)
    } else {
        text_behind(past_word(line), words - 1)
    }
}

/// The first so many words, or all where there are fewer.
pub fn first_words<'a, 'b>(words: &'a [&'b [u8]], count: usize) -> &'a [&'b [u8]]
    ensures { texts result.now ≡ take count (texts words.now) }
{
    if count < words.len() {
        &words[..count]
    } else {
        words
    }
}

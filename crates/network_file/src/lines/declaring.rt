//! Lines that declare: `version`, `node`, `set`, `channel`, `via`. Called by `lines` and `live`.
ghost use Rattle.std.specs.Prelude.{◌≡◌, ◌≤◌, ◌+◌, ◌++◌, List, [], length, Ok, Err, IfOk, IsTrue, MatchResult};
ghost use Rattle.ax_address.specs.Callsign.{Callsign};
ghost use Rattle.text_lines.specs.Lines.{texts};
ghost use Rattle.network_file.specs.Lines.{all_kinds};
ghost use Rattle.network_file.specs.Lines.Declaring as lines;
ghost use Rattle.network_file.specs.Lines.Kinds as kinds;

use crate::limits::{MAX_NODES, MAX_VIA_REPEATERS};
use crate::lines::Line;
use crate::lines::nodes::node_kind;
use crate::network::Network;
use crate::places::{alias, call, needs, new_call, new_node, new_peer, node, value};
use crate::plan::channels::{Channel, has_member};
use crate::plan::declarations::Declaration;
use crate::plan::keys::Key;
use crate::plan::settings::{Setting, clashes, set_to};
use crate::plan::vias::Via;
use crate::what::What;
use arrayvec::ArrayVec;
use ax_address::Call;
use std::alloc::{AllocError, Global};

/// The line of a kind that declares, or else of one that doesn't.
pub fn declaring_kind(
    alloc: Global,
    before: &Network,
    line: &[u8],
    word: &[u8],
    words: &[&[u8]],
) -> Result<Result<Line, What>, AllocError>
    ensures { IfOk result (λ said. said ≡ kinds.line_by all_kinds before.now line.now word.now (texts words.now)) }
{
    if word == b"version".as_slice() {
        Ok(in_time(before.is_untouched(), version_line(words)))
    } else if word == b"node".as_slice() {
        Ok(in_time(before.may_declare(), node_line(before, words)))
    } else if word == b"channel".as_slice() {
        Ok(in_time(before.may_declare(), channel_line(before, words)))
    } else if word == b"set".as_slice() {
        Ok(in_time(before.may_declare(), set_line(before, words)))
    } else if word == b"via".as_slice() {
        Ok(in_time(before.may_declare(), via_line(before, words)))
    } else {
        node_kind(alloc, before, line, word, words)
    }
}

/// What a declaring line says, unless it comes too late.
fn in_time(is_in_time: bool, said: Result<Line, What>) -> Result<Line, What>
    ensures { result ≡ kinds.in_time is_in_time said }
{
    if is_in_time { said } else { Err(What::Late) }
}

/// `version V`
fn version_line(words: &[&[u8]]) -> Result<Line, What>
    ensures { result ≡ lines.version_line (texts words.now) }
{
    match words {
        [word] => version(word),
        _ => Err(What::Count),
    }
}

#[tactic(auto, unfolding(crate::specs::Lines::Declaring::version_at))]
fn version(word: &[u8]) -> Result<Line, What>
    ensures { result ≡ lines.version_at word.now }
{
    let version = value(1, 4, word)?;
    Ok(Line::Version(version as u8))
}

/// `node N CALL ALIAS`
fn node_line(before: &Network, words: &[&[u8]]) -> Result<Line, What>
    ensures { result ≡ lines.node_line before.now (texts words.now) }
{
    match words {
        [number, name, nick] => declaration(before, number, name, nick),
        _ => Err(What::Count),
    }
}

#[tactic(auto, unfolding(crate::specs::Lines::Declaring::declaration_at))]
fn declaration(before: &Network, number: &[u8], name: &[u8], nick: &[u8]) -> Result<Line, What>
    ensures { result ≡ lines.declaration_at before.now number.now name.now nick.now }
{
    let node = new_node(before.declared(), number)?;
    let call = new_call(before.declared(), name)?;
    let alias = alias(nick)?;
    Ok(Line::Node(Declaration { node, call, alias }))
}

/// `set N KEY VALUE`
fn set_line(before: &Network, words: &[&[u8]]) -> Result<Line, What>
    ensures { result ≡ lines.set_line before.now (texts words.now) }
{
    match words {
        [number, key, word] => setting(before, number, key, word),
        _ => Err(What::Count),
    }
}

#[tactic(auto, unfolding(crate::specs::Lines::Declaring::setting_at))]
fn setting(before: &Network, number: &[u8], key: &[u8], word: &[u8]) -> Result<Line, What>
    ensures { result ≡ lines.setting_at before.now number.now key.now word.now }
{
    let node = node(before.declared(), number)?;
    let key = Key::read(before.version(), key)?;
    let is_new = set_to(before.settings(), node, key).is_none();
    needs(is_new, What::Twice)?;
    let value = value(key.least(), key.most(), word)?;
    needs(key.takes(before.version(), value), What::Value)?;
    needs(!clashes(before.settings(), node, key, value), What::Value)?;
    Ok(Line::Set(Setting { node, key, value }))
}

/// `channel N N`, and up to fourteen more
#[tactic(auto, unfolding(crate::specs::Lines::Declaring::channel_line))]
fn channel_line(before: &Network, words: &[&[u8]]) -> Result<Line, What>
    ensures { result ≡ lines.channel_line before.now (texts words.now) }
{
    needs(are_members(words), What::Count)?;
    let nodes = members_of(before.declared(), words)?;
    Ok(Line::Channel(Channel { nodes }))
}

/// Two to sixteen words.
fn are_members(words: &[&[u8]]) -> bool
    ensures value { result ≡ lines.are_members (texts words.now) }
    ensures few { IsTrue result → length words.now ≤ 16 }
{
    words.len() >= 2 && words.len() <= MAX_NODES
}

fn members_of(declared: &[Declaration], words: &[&[u8]]) -> Result<ArrayVec<u8, MAX_NODES>, What>
    requires { length words.now ≤ 16 }
    ensures { MatchResult result (λ v. lines.members_at declared.now [] (texts words.now) ≡ Ok v.items)
        (λ e. lines.members_at declared.now [] (texts words.now) ≡ Err e) }
{
    let mut members = ArrayVec::new();
    add_members(declared, &mut members, words)?;
    Ok(members)
}

/// Adds the nodes that the words name, each declared and there once.
fn add_members(
    declared: &[Declaration],
    members: &mut ArrayVec<u8, MAX_NODES>,
    words: &[&[u8]],
) -> Result<(), What>
    requires { length members.old.items + length words.now ≤ 16 }
    ensures { MatchResult result
        (λ _. lines.members_at declared.now members.old.items (texts words.now) ≡ Ok members.new.items)
        (λ e. lines.members_at declared.now members.old.items (texts words.now) ≡ Err e) }
{
    match words {
        [] => Ok(()),
        [first, more @ ..] => {
            let member = node(declared, first)?;
            let is_new = !has_member(members.as_slice(), member);
            needs(is_new, What::Twice)?;
            members.push(member);
            add_members(declared, members, more)?;
            Ok(())
        }
    }
}

/// `via N CALL REPEATER`, or with a second REPEATER
fn via_line(before: &Network, words: &[&[u8]]) -> Result<Line, What>
    ensures { result ≡ lines.via_line before.now (texts words.now) }
{
    match words {
        [number, name, repeaters @ ..] => via(before, number, name, repeaters),
        _ => Err(What::Count),
    }
}

#[tactic(auto, unfolding(crate::specs::Lines::Declaring::via_at))]
fn via(before: &Network, number: &[u8], name: &[u8], words: &[&[u8]]) -> Result<Line, What>
    ensures { result ≡ lines.via_at before.now number.now name.now (texts words.now) }
{
    needs(are_repeaters(words), What::Count)?;
    let node = node(before.declared(), number)?;
    let peer = new_peer(before.vias(), node, name)?;
    let repeaters = repeaters_of(words)?;
    Ok(Line::Via(Via {
        node,
        peer,
        repeaters,
    }))
}

/// One or two words.
fn are_repeaters(words: &[&[u8]]) -> bool
    ensures value { result ≡ lines.are_repeaters (texts words.now) }
    ensures few { IsTrue result → length words.now ≤ 2 }
{
    !words.is_empty() && words.len() <= MAX_VIA_REPEATERS
}

pub fn repeaters_of(words: &[&[u8]]) -> Result<ArrayVec<Call, MAX_VIA_REPEATERS>, What>
    requires { length words.now ≤ 2 }
    ensures { MatchResult result (λ v. lines.calls_at (texts words.now) ≡ Ok v.items)
        (λ e. lines.calls_at (texts words.now) ≡ Err e) }
{
    let mut repeaters = ArrayVec::new();
    add_calls(&mut repeaters, words)?;
    Ok(repeaters)
}

/// Adds the calls that the words are.
fn add_calls(calls: &mut ArrayVec<Call, MAX_VIA_REPEATERS>, words: &[&[u8]]) -> Result<(), What>
    requires { length calls.old.items + length words.now ≤ 2 }
    ensures { MatchResult result
        (λ _. (more : List Callsign) × (lines.calls_at (texts words.now) ≡ Ok more)
        × (calls.new.items ≡ calls.old.items ++ more))
        (λ e. lines.calls_at (texts words.now) ≡ Err e) }
{
    match words {
        [] => Ok(()),
        [first, more @ ..] => {
            let call = call(first)?;
            calls.push(call);
            add_calls(calls, more)?;
            Ok(())
        }
    }
}

//! Octets become broadcasts. Called by `node_core` and `frame_lines`.
ghost use Rattle.std.specs.Prelude.{◌≡◌, ◌≤◌, ◌/◌, ◌%◌, [], ◌∷◌, length, take, IfOk, OnOk, OnErr, IfNone, IsOkAnd, MatchResult, Ok, Err, true};
ghost use Rattle.nodes_broadcast.specs.Nodes.{Broadcast, view, Spells, SpellsEntry, SpellsEntries};
ghost use Rattle.nodes_broadcast.specs.Nodes as reading;
ghost use Rattle.ax_address.specs.Octets.{SpellsNetCall};

use crate::laws;
use crate::nodes::{ENTRY_LEN, HEAD_LEN, Nodes, NodesRefusal, SIGNATURE};
use arrayvec::ArrayVec;
use ax_address::{Alias, Call, Entry, MAX_ENTRIES, read_net_call};

/// The broadcast that the information of a frame spells, or why it spells none: the first octet, then the length, then
/// the calls from the first on.
pub fn read_nodes(info: &[u8]) -> Result<Nodes, NodesRefusal>
    // What is read is spelled so.
    ensures found { IfOk result (λ nodes. Spells (view nodes) info.now) }

    // What is spelled so is read.
    ensures only { (broadcast : Broadcast) → Spells broadcast info.now
        → IsOkAnd result (λ nodes. view nodes ≡ broadcast) }

    // Which refusal it is.
    ensures exact { MatchResult result (λ nodes. reading.nodes_at info.now ≡ Ok (view nodes))
        (λ e. reading.nodes_at info.now ≡ Err e) }
{
    let mut nodes = Nodes::default();
    read_nodes_into(&mut nodes, info)?;
    Ok(nodes)
}

/// Reads the same broadcast into its place. A refusal leaves what stands there as it was.
pub fn read_nodes_into(nodes: &mut Nodes, info: &[u8]) -> Result<(), NodesRefusal>
    ensures found { OnOk result (Spells (view nodes.new) info.now) }
    ensures only { (broadcast : Broadcast) → Spells broadcast info.now
        → IsOkAnd result (λ _. view nodes.new ≡ broadcast) }
    ensures exact { MatchResult result (λ _. reading.nodes_at info.now ≡ Ok (view nodes.new))
        (λ e. reading.nodes_at info.now ≡ Err e) }
    ensures same { OnErr result (nodes.new ≡ nodes.old) }
{
    // By the laws of the spelling none that is spelled is refused.
    laws::nodes_spelling();
    fill(nodes, info)?;
    Ok(())
}

fn fill(nodes: &mut Nodes, info: &[u8]) -> Result<(), NodesRefusal>
    ensures found { OnOk result (Spells (view nodes.new) info.now) }
    ensures exact { MatchResult result (λ _. reading.nodes_at info.now ≡ Ok (view nodes.new))
        (λ e. reading.nodes_at info.now ≡ Err e) }
    ensures same { OnErr result (nodes.new ≡ nodes.old) }
{
    if let Some(refusal) = shape_fault(info) {
        return Err(refusal);
    }
    // The entries are all read before any of them is put in its place.
    let mut entries = ArrayVec::new();
    read_entries(&mut entries, &info[HEAD_LEN..])?;
    nodes.alias = alias_of(&info[1..HEAD_LEN]);
    nodes.entries = entries;
    Ok(())
}

/// What shows that octets are no broadcast before any call of theirs is read.
fn shape_fault(info: &[u8]) -> Option<NodesRefusal>
    ensures value { result ≡ reading.shape_fault info.now }
    ensures shape { IfNone result (reading.HasShape info.now) }
{
    if !is_nodes(info) {
        return Some(NodesRefusal::NotNodes);
    }
    if info.len() < HEAD_LEN || (info.len() - HEAD_LEN) % ENTRY_LEN != 0 {
        return Some(NodesRefusal::BadLength { at: info.len() });
    }
    if info.len() > HEAD_LEN + MAX_ENTRIES * ENTRY_LEN {
        return Some(NodesRefusal::TooMany);
    }
    None
}

fn is_nodes(info: &[u8]) -> bool
    ensures value { result ≡ reading.is_nodes info.now }
    ensures first { result ≡ true → take 1 info.now ≡ 255 ∷ [] }
{
    match info {
        [first, ..] => *first == SIGNATURE,
        [] => false,
    }
}

/// Reads the entries that the octets behind the alias spell straight into their place, where none is yet.
fn read_entries(
    entries: &mut ArrayVec<Entry, MAX_ENTRIES>,
    octets: &[u8],
) -> Result<(), NodesRefusal>
    requires none { entries.old.items ≡ [] }
    requires whole { length octets.now % 21 ≡ 0 }
    requires few { length octets.now ≤ 231 }
    ensures found { OnOk result (SpellsEntries entries.new.items octets.now) }
    ensures few { length entries.new.items ≤ 11 }
    ensures exact { MatchResult result
        (λ _. reading.entries_at (length octets.now / 21) 7 octets.now ≡ Ok entries.new.items)
        (λ e. reading.entries_at (length octets.now / 21) 7 octets.now ≡ Err e) }
{
    let mut rest = octets;
    for nth in 0..octets.len() / ENTRY_LEN {
        let (octets, others) = rest.split_at(ENTRY_LEN);
        entries.push(entry_of(octets, HEAD_LEN + ENTRY_LEN * nth)?);
        rest = others;
    }
    Ok(())
}

/// The entry that its octets spell, which begin at that place of the information.
#[tactic(auto, unfolding(crate::specs::Nodes::entry_at))]
fn entry_of(octets: &[u8], at: usize) -> Result<Entry, NodesRefusal>
    requires whole { length octets.now ≡ 21 }
    requires place { at ≤ 300 }
    ensures found { IfOk result (λ entry. SpellsEntry entry octets.now) }
    ensures exact { result ≡ reading.entry_at at octets.now }
{
    let dest = call_of(&octets[..7], at)?;
    let best = call_of(&octets[13..20], at + 13)?;
    Ok(Entry {
        dest,
        alias: alias_of(&octets[7..13]),
        best,
        quality: octets[20],
    })
}

/// The call that its octets spell, which begin at that place of the information.
fn call_of(octets: &[u8], at: usize) -> Result<Call, NodesRefusal>
    requires whole { length octets.now ≡ 7 }
    requires place { at ≤ 400 }
    ensures found { IfOk result (λ call. SpellsNetCall call octets.now) }
    ensures exact { result ≡ reading.call_at at octets.now }
{
    let mut seven = [0; 7];
    seven.copy_from_slice(octets);
    match read_net_call(&seven) {
        Ok(call) => Ok(call),
        Err(refusal) => Err(NodesRefusal::BadCall {
            at: at + refusal.at(),
        }),
    }
}

fn alias_of(octets: &[u8]) -> Alias
    requires { length octets.now ≡ 6 }
    ensures { result ≡ octets.now }
{
    let mut bytes = [0; 6];
    bytes.copy_from_slice(octets);
    Alias::from_bytes(bytes)
}

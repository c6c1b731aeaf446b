//! Broadcasts become octets. Called by `node_core`.
ghost use Rattle.std.specs.Prelude.{◌≡◌, ◌≤◌, ◌+◌, ◌*◌, ◌++◌, length};
ghost use Rattle.std.specs.List.{AllByRecursion};
ghost use Rattle.nodes_broadcast.specs.Nodes.{Broadcast, view, Spells, IsEntry, nodes_octets, entries_octets, entry_octets};

use crate::laws;
use crate::nodes::{ENTRY_LEN, Nodes, SIGNATURE};
use arrayvec::ArrayVec;
use ax_address::{Alias, Entry, write_net_call};

/// The information of a broadcast: a head of 7 octets and at most eleven entries of 21 have room.
type Info = ArrayVec<u8, 256>;

/// The information of the frame that carries a broadcast. It is long to move, so its caller takes this in.
#[inline(always)]
pub fn write_nodes(nodes: &Nodes) -> ArrayVec<u8, 256>
    ensures exact { result.items ≡ nodes_octets (view nodes.now) }

    // What is written spells the broadcast.
    ensures spelled { Spells (view nodes.now) result.items }
{
    let mut info = Info::new();
    push_nodes(&nodes.alias, nodes.entries.as_slice(), &mut info);
    info
}

/// Puts the same octets behind those that `out` has, where it has room for them: of the broadcast with this alias and these entries. So a
/// frame's information is written where it is to stand, and its entries are lent.
pub fn push_nodes<const CAP: usize>(alias: &Alias, entries: &[Entry], out: &mut ArrayVec<u8, CAP>)
    requires few { length entries.now ≤ 11 }
    requires room { length out.old.items + 7 + 21 * length entries.now ≤ CAP }
    ensures exact { out.new.items ≡ out.old.items
        ++ nodes_octets (record { alias = alias.now; entries = entries.now }) }

    // What is put there spells the broadcast.
    ensures spelled { let b : Broadcast = record { alias = alias.now; entries = entries.now } in
        Spells b (nodes_octets b) }
{
    // By the laws of the spelling the octets that it defines spell the broadcast.
    laws::nodes_spelling();
    push_octets(&[SIGNATURE], out);
    push_octets(&alias.bytes(), out);
    push_entries(entries, out);
}

/// One entry after the other.
fn push_entries<const CAP: usize>(entries: &[Entry], out: &mut ArrayVec<u8, CAP>)
    requires { length out.old.items + 21 * length entries.now ≤ CAP }
    ensures octets { out.new.items ≡ out.old.items ++ entries_octets entries.now }
    ensures entries { AllByRecursion IsEntry entries.now }
{
    for entry in entries {
        push_entry(entry, out);
    }
}

fn push_entry<const CAP: usize>(entry: &Entry, out: &mut ArrayVec<u8, CAP>)
    requires { length out.old.items + 21 ≤ CAP }
    ensures octets { out.new.items ≡ out.old.items ++ entry_octets entry.now }
    ensures len { length out.new.items ≡ length out.old.items + 21 }
    ensures entry { IsEntry entry.now }
{
    push_octets(&octets_of(entry), out);
}

/// The octets of an entry.
fn octets_of(entry: &Entry) -> [u8; ENTRY_LEN]
    ensures octets { result ≡ entry_octets entry.now }
    ensures entry { IsEntry entry.now }
{
    let mut octets = [0; ENTRY_LEN];
    octets[..7].copy_from_slice(&write_net_call(&entry.dest));
    octets[7..13].copy_from_slice(&entry.alias.bytes());
    octets[13..20].copy_from_slice(&write_net_call(&entry.best));
    octets[20] = entry.quality;
    octets
}

fn push_octets<const CAP: usize>(octets: &[u8], out: &mut ArrayVec<u8, CAP>)
    requires { length out.old.items + length octets.now ≤ CAP }
    ensures octets { out.new.items ≡ out.old.items ++ octets.now }
    ensures len { length out.new.items ≡ length out.old.items + length octets.now }
{
    let _ = out.try_extend_from_slice(octets);
}

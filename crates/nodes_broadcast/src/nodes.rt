//! A broadcast, to which call it goes, and why octets are none (NET/ROM, Appendix B). Used by `read` and `write`, and by `node_core`,
//! `network_file` and the crates above that show or pass on broadcasts.
ghost use Rattle.std.specs.Prelude.{◌≡◌};
ghost use Rattle.nodes_broadcast.specs.Nodes as reading;

use arrayvec::ArrayVec;
use ax_address::{Alias, Call, Entry, MAX_ENTRIES};

/// The first octet of each broadcast.
pub(crate) const SIGNATURE: u8 = 0xFF;

/// The first octet and the alias.
pub(crate) const HEAD_LEN: usize = 7;

/// A call, an alias, a call and a quality.
pub(crate) const ENTRY_LEN: usize = 21;

/// What a NODES broadcast says: how its sender names itself, and what it can reach.
///
/// Its default has the default alias and no entries: a place to read one into.
#[derive(Clone, Debug, Default, Drop, PartialEq, Eq)]
pub struct Nodes {
    pub alias: Alias,
    pub entries: ArrayVec<Entry, MAX_ENTRIES>,
}

/// The call to which nodes broadcast.
#[tactic(auto, using(crate::proofs::Names::nodes_is_call))]
pub fn nodes_call() -> Call
    ensures { result ≡ reading.nodes_call }
{
    Call::from_letters(*b"NODES ", 0)
}

/// Why octets are no NODES broadcast. What stands first comes first.
#[derive(Clone, Copy, Debug, PartialEq, Eq)]
pub enum NodesRefusal {
    /// There is no first octet 0xFF.
    NotNodes,
    /// There are `at` octets, which is not 7 and 21 for each entry.
    BadLength { at: usize },
    /// There are more than eleven entries.
    TooMany,
    /// The octet at `at`, from 0, can't stand there in a call.
    BadCall { at: usize },
}

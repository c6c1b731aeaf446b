//! What has happened at a member. The station makes it of what the member's node has told.
ghost use Rattle.std.specs.Prelude.{◌≡◌};
ghost use Rattle.circuit_table.specs.Standing.{event_told};
ghost use Rattle.node_core.specs.Standing.{entry_of};
ghost use Rattle.station_entries.specs.Entries as entries;

use ax_address::Call;
use ax_link::LinkNotice;
use circuit_l4::EndNotice;
use circuit_table::SetEvent;
use node_core::NodeEntry;

/// What has happened at a member.
#[derive(Clone, Copy, Debug, PartialEq, Eq)]
pub enum StationEntry {
    /// This has become of its link with a peer.
    Link {
        member: Call,
        peer: Call,
        notice: LinkNotice,
    },
    /// This has become of the circuit of its end of that number.
    Circuit {
        member: Call,
        id: u64,
        notice: EndNotice,
    },
}

/// What a station tells of an entry of the member of this call: what has become of a link or of a circuit, and of nothing else.
pub fn told_of(member: Call, entry: &NodeEntry) -> Option<StationEntry>
    ensures { result ≡ entries.told_of member (entry_of entry.now) }
{
    match entry {
        NodeEntry::Link(peer, notice) => Some(StationEntry::Link {
            member,
            peer: *peer,
            notice: *notice,
        }),
        NodeEntry::Set(event) => told_of_set(member, event),
        NodeEntry::Overflow { .. } => None,
    }
}

fn told_of_set(member: Call, event: &SetEvent) -> Option<StationEntry>
    ensures { result ≡ entries.told_of_set member (event_told event.now) }
{
    match event {
        SetEvent::Notice { id, notice } => Some(StationEntry::Circuit {
            member,
            id: *id,
            notice: *notice,
        }),
        _ => None,
    }
}

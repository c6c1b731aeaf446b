//! Where a user is, and what he is connected with. Used by `session` and `far`.
ghost use Rattle.std.specs.Prelude.{◌≡◌};
ghost use Rattle.station_sessions.specs.Places as places;

use ax_address::Call;

/// Where a user is, or what he is connected with. A member is named by its place among the members.
#[derive(Clone, Copy, Debug)]
pub enum Place {
    /// The end of a circuit at a member.
    End { member: usize, id: u64 },
    /// The link of a member with a peer.
    Link { member: usize, peer: Call },
    /// A console.
    Console(u8),
}

/// Whether two places are one.
pub(crate) fn is_same(one: &Place, other: &Place) -> bool
    ensures { result ≡ places.is_same one.now other.now }
{
    match one {
        Place::End { member, id } => is_end(*member, *id, other),
        Place::Link { member, peer } => is_link(*member, peer, other),
        Place::Console(console) => is_console(*console, other),
    }
}

fn is_end(at: usize, number: u64, place: &Place) -> bool
    ensures { result ≡ places.is_end at number place.now }
{
    match place {
        Place::End { member, id } => at == *member && number == *id,
        Place::Link { .. } | Place::Console(_) => false,
    }
}

fn is_link(at: usize, call: &Call, place: &Place) -> bool
    ensures { result ≡ places.is_link at call.now place.now }
{
    match place {
        Place::Link { member, peer } => at == *member && *call == *peer,
        Place::End { .. } | Place::Console(_) => false,
    }
}

fn is_console(number: u8, place: &Place) -> bool
    ensures { result ≡ places.is_console number place.now }
{
    match place {
        Place::Console(console) => number == *console,
        Place::End { .. } | Place::Link { .. } => false,
    }
}

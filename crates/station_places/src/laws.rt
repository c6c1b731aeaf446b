//! What the definitions promise by themselves, of all states. Called by whoever serves sessions.
ghost use Rattle.station_places.specs.Laws.{EndsAreGiven, LinksAreEmptied, LinksAreGiven, PiecesAreTaken, TakesFirst, TakesWhatWaits};

/// An end that has room is given just one message, which is the text. It is written, unless the end is being closed or the numbers of its
/// fragments have come to their end.
pub fn ends_are_given()
    ensures { EndsAreGiven }
{}

/// Over a link go pieces, each of 1 to as many octets as a member's pieces have, which put together are the beginning of the text of which
/// it is told that it has gone, in order; and no other text. A piece of at most 256 octets is refused by no link that has room.
pub fn links_are_given()
    ensures pieces { LinksAreGiven }
    ensures taken { PiecesAreTaken }
{}

/// What is taken is the text that waits first; and nothing where none waits.
pub fn takes_first()
    ensures first { TakesFirst }
    ensures waits { TakesWhatWaits }
{}

/// The texts of a link that are dropped are taken until nothing is left to take, however many there are.
pub fn links_are_emptied()
    ensures { LinksAreEmptied }
{
    link_table::laws::payloads();
    circuit_table::laws::telling_ends();
}

//! What the definitions promise by themselves.

ghost use Rattle.station_users.specs.Laws.{Bridged, TurnsAreServed};

/// While a far side stands: what was written to it is exactly what the user's side gave, and what was written to the user is exactly what
/// the far side gave, in order, each octet once, both up to what waits. What `give` and `take_from` of `station_places` write and take ties
/// it to the ends and links.
pub fn bridged()
    ensures { Bridged }
{}

/// So it is at a station: where a far side stands, what is done with a session in its turn is the move of that law.
pub fn turns_are_served()
    ensures { TurnsAreServed }
{}

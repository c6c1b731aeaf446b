//! What the definitions of a log's table come to, in the words of the subject. No code calls them.

ghost use Rattle.route_table.specs.Laws as law;

/// A table has the usable routes, no two of one destination and neighbour, each before those behind it.
pub fn table()
    ensures once { law.NoPairTwice }
    ensures order { law.TableIsInOrder }
    ensures rearranged { law.TableIsRearranged }
{}

/// All routes to a destination are its usable routes in another order, each before those behind it.
pub fn ranking()
    ensures ranked { law.AreRanked }
    ensures rearranged { law.AreRearranged }
{}

/// The destinations rise in call order, and are those of the usable routes.
pub fn destinations()
    ensures rising { law.DestinationsRise }
    ensures exact { law.DestinationsAreExact }
{}

/// An entry is broadcast exactly where it tells of the first route to its destination, and that is locked or has enough
/// rounds left; the destinations of the entries rise in call order.
pub fn broadcasts()
    ensures rising { law.BroadcastRises }
    ensures exact { law.BroadcastIsExact }
{}

//! Routes by quality, and which is the better one (NET/ROM, Appendix B). Called by `entering`, `rows` and `table`.
ghost use Rattle.std.specs.Prelude.{◌≡◌, ◌≤◌, ◌<◌, ◌-◌, length, slice_get, slice_index_or, true};
ghost use Rattle.std.specs.Option.{option_map};
ghost use Rattle.ax_address.specs.Callsign.{call_lt};
ghost use Rattle.route_table.specs.declared.route.Route.{Route};
ghost use Rattle.route_table.specs.Places as places;
ghost use Rattle.route_table.specs.Table as ranks;
ghost use Rattle.route_table.specs.Rows as rows_spec;

use crate::route::Route;
use arrayvec::ArrayVec;
use ax_address::Call;

/// How many routes to a destination are its best ones.
pub(crate) const BEST: usize = 3;

/// Whether one route stands before another in a table: by destination, and to one destination the better first.
pub(crate) fn stands_before(a: &Route, b: &Route) -> bool
    ensures { result ≡ ranks.stands_before a.now b.now }
{
    a.dest.cmp(&b.dest).is_lt() || (a.dest == b.dest && is_before(a, b))
}

fn is_before(a: &Route, b: &Route) -> bool
    ensures { result ≡ ranks.is_before a.now b.now }
{
    b.quality < a.quality || (a.quality == b.quality && a.neighbour.cmp(&b.neighbour).is_lt())
}

/// Where the rows to a destination begin, or would.
pub(crate) fn start_of(rows: &[Route], dest: &Call) -> usize
    requires { places.InRows rows.now }
    ensures place { result ≡ places.start_of dest.now rows.now }
    ensures within { result ≤ length rows.now }
{
    rows.partition_point(|row| row.dest.cmp(dest).is_lt())
}

/// Where the rows to a destination begin, or would. Where the first `from` rows lead lower, those behind them are searched alone.
pub(crate) fn start_near(rows: &[Route], from: usize, dest: &Call) -> usize
    requires { places.InRows rows.now }
    ensures place { result ≡ places.start_of dest.now rows.now }
    ensures within { result ≤ length rows.now }
{
    if leads_lower(rows, from, dest) {
        from + start_soon(&rows[from..], dest)
    } else {
        start_of(rows, dest)
    }
}

/// Whether the rows before that place lead lower: there are so many, and the last of them does.
fn leads_lower(rows: &[Route], at: usize, dest: &Call) -> bool
    ensures within { result ≡ true → at ≤ length rows.now }
    ensures lower { result ≡ true → (d : Route) → 0 < at
        → call_lt (slice_index_or rows.now (at - 1) d).dest dest.now ≡ true }
{
    at == 0 || at <= rows.len() && rows[at - 1].dest.cmp(dest).is_lt()
}

/// How many rows are asked one by one before all are searched.
const FEW: usize = 8;

/// Where the rows to a destination begin, or would: mostly soon, so the first few are asked one by one before all are searched.
fn start_soon(rows: &[Route], dest: &Call) -> usize
    requires { places.InRows rows.now }
    ensures place { result ≡ places.start_of dest.now rows.now }
    ensures within { result ≤ length rows.now }
{
    for at in 0..rows.len().min(FEW) {
        if !rows[at].dest.cmp(dest).is_lt() {
            return at;
        }
    }
    start_of(rows, dest)
}

/// Where a route belongs among rows: often behind all of them, as what a broadcast brings stands in order.
pub(crate) fn place_of(rows: &[Route], route: &Route) -> usize
    requires { places.InRows rows.now }
    ensures place { result ≡ places.place_among route.now rows.now }
    ensures within { result ≤ length rows.now }
{
    if is_after(rows, rows.len(), route) {
        return rows.len();
    }
    rows.partition_point(|row| !stands_before(route, row))
}

/// Whether a route stands behind the row before that place, if there is one.
pub(crate) fn is_after(rows: &[Route], at: usize, route: &Route) -> bool
    requires { at ≤ length rows.now }
    ensures { result ≡ true → (d : Route) → 0 < at
        → ranks.stands_before (slice_index_or rows.now (at - 1) d) route.now ≡ true }
{
    at == 0 || stands_before(&rows[at - 1], route)
}

/// The place of the row with the route's destination and neighbour.
pub(crate) fn place_of_pair(rows: &[Route], route: &Route) -> Option<usize>
    requires { places.InRows rows.now }
    ensures { places.PairAt route.now rows.now result }
{
    pair_from(rows, start_of(rows, &route.dest), route)
}

/// The same, where the rows to its destination begin there.
pub(crate) fn pair_from(rows: &[Route], start: usize, route: &Route) -> Option<usize>
    requires order { places.InRows rows.now }
    requires start { start ≡ places.start_of route.now.dest rows.now }
    ensures { places.PairAt route.now rows.now result }
{
    for at in start..rows.len() {
        let row = &rows[at];
        if row.dest != route.dest {
            return None;
        }
        if row.neighbour == route.neighbour {
            return Some(at);
        }
    }
    None
}

/// The neighbour of the first row to a destination.
pub(crate) fn hop_to(rows: &[Route], dest: &Call) -> Option<Call>
    requires { places.InRows rows.now }
    ensures { result ≡ option_map (λ r. r.neighbour) (slice_get (rows_spec.best_of rows.now dest.now) 0) }
{
    match rows[start_of(rows, dest)..].first() {
        Some(row) => {
            if row.dest == *dest {
                Some(row.neighbour)
            } else {
                None
            }
        }
        None => None,
    }
}

/// The best three of the rows to a destination.
pub(crate) fn best_of(rows: &[Route], dest: &Call) -> ArrayVec<Route, BEST>
    requires { places.InRows rows.now }
    ensures { result.items ≡ rows_spec.best_of rows.now dest.now }
{
    let mut best = ArrayVec::new();
    for row in &rows[start_of(rows, dest)..] {
        if best.is_full() || row.dest != *dest {
            return best;
        }
        best.push(*row);
    }
    best
}

//! The usable routes that a table keeps. Called by `entering` and `table`.
ghost use Rattle.std.specs.Prelude.{◌≡◌, ◌≤◌, ◌<◌, ◌+◌, ◌-◌, ◌∷◌, [], map, filter, length, vec_len, vec_capacity, slice_index_or, true, Some, OnOk, OnErr};
ghost use Rattle.route_table.specs.declared.route.Route.{Route};
ghost use Rattle.route_table.specs.Places as places;
ghost use Rattle.route_table.specs.Table as table;
ghost use Rattle.route_table.specs.Rows as spec;

use crate::ranking::{is_after, pair_from, place_of, place_of_pair, stands_before, start_near};
use crate::reports::reports_of;
use crate::route::{MAX_PAIRS, Route};
use crate::sender::Sender;
use ax_address::{Call, Entry};
use std::alloc::AllocError;

fn is_same_pair(a: &Route, b: &Route) -> bool
    ensures { result ≡ spec.is_same_pair a.now b.now }
{
    a.dest == b.dest && a.neighbour == b.neighbour
}

pub(crate) fn is_good(minq: u8, report: &Route) -> bool
    ensures { result ≡ table.is_good minq report.now }
{
    minq <= report.quality
}

/// Puts a route at its place. There is room for it.
pub(crate) fn enter(rows: &mut Vec<Route>, route: &Route)
    requires order { places.InRows rows.old.items }
    requires room { vec_len rows.old < vec_capacity rows.old }
    ensures items { rows.new.items ≡ table.placed route.now rows.old.items }
    ensures len { vec_len rows.new ≡ vec_len rows.old + 1 }
    ensures capacity { vec_capacity rows.old ≤ vec_capacity rows.new }
{
    let at = place_of(rows, route);
    let _ = rows.insert(at, *route);
}

/// Takes a report in, which is of the pair of the row at that place.
pub(crate) fn change(rows: &mut Vec<Route>, minq: u8, at: usize, report: &Route)
    requires stand { places.Stand rows.old.items }
    requires pair { places.PairAt report.now rows.old.items (Some at) }
    requires room { vec_len rows.old < vec_capacity rows.old }
    ensures items { rows.new.items ≡ spec.with_report minq report.now rows.old.items }
    ensures len { vec_len rows.new ≤ vec_len rows.old + 1 }
    ensures capacity { vec_capacity rows.old ≤ vec_capacity rows.new }
{
    let row = rows[at];
    if row.count.is_none() {
        return;
    }
    if !is_good(minq, report) {
        rows.remove(at);
    } else if fits_at(rows, at, report) {
        rows[at] = *report;
    } else {
        rows.remove(at);
        enter(rows, report);
    }
}

/// Whether a route stands between the rows before and behind the one of its pair, which is at that place: as good a one does.
fn fits_at(rows: &[Route], at: usize, route: &Route) -> bool
    requires order { places.InRows rows.now }
    requires pair { places.PairAt route.now rows.now (Some at) }
    ensures { result ≡ true → places.FitsAt route.now rows.now at }
{
    if rows[at].quality == route.quality {
        return true;
    }
    is_after(rows, at, route) && is_before(rows, at, route)
}

fn is_before(rows: &[Route], at: usize, route: &Route) -> bool
    requires { at < length rows.now }
    ensures { result ≡ true → (d : Route) → at + 1 < length rows.now
        → table.stands_before route.now (slice_index_or rows.now (at + 1) d) ≡ true }
{
    match rows.get(at + 1) {
        Some(next) => stands_before(route, next),
        None => true,
    }
}

/// How many rows there are after these reports, where a table doesn't hold so many.
///
/// Each report is at most a row more, so mostly there is room for all, and nothing is counted.
pub(crate) fn surplus_after(
    rows: &[Route],
    minq: u8,
    sender: &Sender,
    entries: &[Entry],
) -> Option<usize>
    requires stand { places.Stand rows.now }
    requires few { length rows.now ≤ 16384 }
    requires entries { length entries.now ≤ 11 }
    ensures { places.IsSurplus
        (length (spec.after_reports minq (spec.reported sender.now entries.now) rows.now)) result }
{
    if rows.len() + entries.len() < MAX_PAIRS {
        return None;
    }
    counted_surplus(rows, minq, sender, entries)
}

/// The same, counted. It stands apart, so that a broadcast that has room pays nothing for the reports that are counted here.
#[inline(never)]
fn counted_surplus(rows: &[Route], minq: u8, sender: &Sender, entries: &[Entry]) -> Option<usize>
    requires stand { places.Stand rows.now }
    requires few { length rows.now ≤ 16384 }
    requires entries { length entries.now ≤ 11 }
    ensures { places.IsSurplus
        (length (spec.after_reports minq (spec.reported sender.now entries.now) rows.now)) result }
{
    let count = count_after(rows, minq, &reports_of(sender, entries));
    if count > MAX_PAIRS { Some(count) } else { None }
}

/// How many rows there are after these reports.
fn count_after(rows: &[Route], minq: u8, reports: &[Route]) -> usize
    requires stand { places.Stand rows.now }
    requires few { length rows.now ≤ 16384 }
    requires reports { (length reports.now ≤ 12) × places.AreCounted reports.now }
    ensures { result ≡ length (spec.after_reports minq reports.now rows.now) }
{
    let mut count = rows.len();
    let mut start = 0;
    for (at, report) in reports.iter().enumerate() {
        start = start_near(rows, start, &report.dest);
        count = count_with(rows, start, minq, &reports[..at], report, count);
    }
    count
}

/// How many rows there are after a report more, where there were so many before it, and the rows to its destination begin
/// there.
fn count_with(
    rows: &[Route],
    start: usize,
    minq: u8,
    earlier: &[Route],
    report: &Route,
    count: usize,
) -> usize
    requires stand { places.Stand rows.now }
    requires start { start ≡ places.start_of report.now.dest rows.now }
    requires few { count ≤ 32768 }
    requires earlier { places.AreCounted earlier.now }
    requires value { count ≡ length (spec.after_reports minq earlier.now rows.now) }
    ensures value { result ≡ length (spec.with_report minq report.now (spec.after_reports minq earlier.now rows.now)) }
    ensures bound { result ≤ count + 1 }
{
    match pair_from(rows, start, report) {
        Some(at) if rows[at].count.is_none() => count,
        Some(_) => changed(
            count,
            is_held_after(minq, report, earlier, true),
            is_good(minq, report),
        ),
        None => changed(
            count,
            is_held_after(minq, report, earlier, false),
            is_good(minq, report),
        ),
    }
}

/// So many rows, where one of a pair was there or not, and now is there or not.
fn changed(count: usize, was: bool, is: bool) -> usize
    requires few { count ≤ 32768 }
    ensures value { result ≡ spec.changed count was is }
    ensures bound { result ≤ count + 1 }
{
    match (was, is) {
        (true, false) => count.saturating_sub(1),
        (false, true) => count + 1,
        _ => count,
    }
}

/// Whether a row of the route's pair is there after these reports.
fn is_held_after(minq: u8, route: &Route, reports: &[Route], held: bool) -> bool
    ensures { result ≡ spec.is_held_after minq route.now reports.now held }
{
    let mut held = held;
    for report in reports {
        held = is_held_with(minq, route, report, held);
    }
    held
}

/// Whether a row of the route's pair is there after one report.
fn is_held_with(minq: u8, route: &Route, report: &Route, held: bool) -> bool
    ensures { result ≡ spec.is_held_after minq route.now (report.now ∷ []) held }
{
    if is_same_pair(route, report) {
        is_good(minq, report)
    } else {
        held
    }
}

/// How many rows there are after a lock.
pub(crate) fn count_with_lock(rows: &[Route], lock: &Route) -> usize
    requires stand { places.Stand rows.now }
    ensures value { result ≡ length (table.placed lock.now (spec.beside lock.now rows.now)) }
    ensures bound { result ≤ length rows.now + 1 }
{
    match place_of_pair(rows, lock) {
        Some(_) => rows.len(),
        None => rows.len() + 1,
    }
}

/// Puts a lock in the place of what is of its pair. Room is made first, so nothing changes on an `Err`.
pub(crate) fn lock_in(rows: &mut Vec<Route>, lock: &Route) -> Result<(), AllocError>
    requires stand { places.Stand rows.old.items }
    ensures ok { OnOk result (rows.new.items ≡ table.placed lock.now (spec.beside lock.now rows.old.items)) }
    ensures err { OnErr result (rows.new.items ≡ rows.old.items) }
{
    rows.reserve(1)?;
    match place_of_pair(rows, lock) {
        Some(at) => {
            rows.remove(at);
            enter(rows, lock);
        }
        None => enter(rows, lock),
    }
    Ok(())
}

/// Each row that counts is one round older.
pub(crate) fn count_down(rows: &mut Vec<Route>)
    ensures items { rows.new.items ≡ map spec.older rows.old.items }
    ensures len { length rows.new.items ≡ length rows.old.items }
{
    for row in rows.iter_mut() {
        grow_older(row);
    }
}

/// A row that counts is one round older.
fn grow_older(row: &mut Route)
    ensures { row.new ≡ spec.older row.old }
{
    if let Some(count) = row.count {
        row.count = Some(count.saturating_sub(1));
    }
}

/// Drops the rows whose count has run out.
pub(crate) fn drop_ended(rows: &mut Vec<Route>)
    ensures items { rows.new.items ≡ filter (λ r. spec.still_counts r.count) rows.old.items }
    ensures bound { length rows.new.items ≤ length rows.old.items }
{
    rows.retain(|row| still_counts(row));
}

fn still_counts(row: &Route) -> bool
    ensures { result ≡ spec.still_counts row.now.count }
{
    match row.count {
        Some(count) => !(count == 0),
        None => true,
    }
}

/// Drops the rows that the link's failure ends.
pub(crate) fn drop_failed(rows: &mut Vec<Route>, neighbour: &Call)
    ensures items { rows.new.items ≡ filter (spec.outlives neighbour.now) rows.old.items }
    ensures bound { length rows.new.items ≤ length rows.old.items }
{
    rows.retain(|row| outlives(neighbour, row));
}

fn outlives(neighbour: &Call, row: &Route) -> bool
    ensures { result ≡ spec.outlives neighbour.now row.now }
{
    row.count.is_none() || row.neighbour != *neighbour
}

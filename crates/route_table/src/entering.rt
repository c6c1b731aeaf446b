//! A broadcast's reports, taken in: those of pairs that have a row one by one, and all others in one pass. Called by `table`.
ghost use Rattle.std.specs.Prelude.{◌≡◌, ◌≤◌, ◌<◌, ◌+◌, ◌∷◌, ◌++◌, List, take, drop, length, vec_len, vec_capacity, is_none, false, IfSome, IfNone, ◌-◌};
ghost use Rattle.ax_address.specs.declared.entry.Entry.{Entry};
ghost use Rattle.route_table.specs.Places as places;
ghost use Rattle.route_table.specs.Table as ranks;
ghost use Rattle.route_table.specs.Rows as spec;

use crate::ranking::{pair_from, place_of, place_of_pair, start_near};
use crate::reports::{MAX_REPORTS, is_reported, route_over, route_to};
use crate::route::Route;
use crate::rows::{change, enter, is_good};
use crate::sender::Sender;
use arrayvec::ArrayVec;
use ax_address::Entry;

/// Takes in a broadcast, one report after another. There is room for a row of each.
pub(crate) fn take_reports(rows: &mut Vec<Route>, minq: u8, sender: &Sender, entries: &[Entry])
    requires stand { places.Stand rows.old.items }
    requires few { length entries.now ≤ 11 }
    requires room { vec_len rows.old + length entries.now < vec_capacity rows.old }
    ensures items { rows.new.items ≡ spec.after_reports minq (spec.reported sender.now entries.now) rows.old.items }
    ensures stand { places.Stand rows.new.items }
{
    if sender.neighbour == sender.own {
        return;
    }
    take_or_enter(rows, minq, &route_to(sender));
    let known = take_known(rows, minq, sender, entries);
    if known == entries.len() {
        return;
    }
    take_all(rows, minq, sender, &entries[known..]);
}

/// Takes a report in where a row is of its pair, and else enters it, if it is good enough.
fn take_or_enter(rows: &mut Vec<Route>, minq: u8, report: &Route)
    requires stand { places.Stand rows.old.items }
    requires room { vec_len rows.old < vec_capacity rows.old }
    ensures items { rows.new.items ≡ spec.with_report minq report.now rows.old.items }
    ensures stand { places.Stand rows.new.items }
    ensures len { vec_len rows.new ≤ vec_len rows.old + 1 }
    ensures capacity { vec_capacity rows.old ≤ vec_capacity rows.new }
{
    match place_of_pair(rows, report) {
        Some(at) => change(rows, minq, at, report),
        None if is_good(minq, report) => enter(rows, report),
        None => {}
    }
}

/// Takes in what the entries from the first on report, up to one whose report becomes a row of a new pair. It answers how many
/// entries that are: all, as a rule.
fn take_known(rows: &mut Vec<Route>, minq: u8, sender: &Sender, entries: &[Entry]) -> usize
    requires stand { places.Stand rows.old.items }
    requires room { vec_len rows.old + length entries.now ≤ vec_capacity rows.old }
    ensures items { spec.after_reports minq (spec.reported_by sender.now (drop result entries.now)) rows.new.items
        ≡ spec.after_reports minq (spec.reported_by sender.now entries.now) rows.old.items }
    ensures stand { places.Stand rows.new.items }
    ensures within { result ≤ length entries.now }
    ensures room { vec_len rows.new + (length entries.now - result) ≤ vec_capacity rows.new }
{
    let mut near = 0;
    for at in 0..entries.len() {
        match take_if_known(rows, minq, near, sender, &entries[at]) {
            Some(place) => near = place,
            None => return at,
        }
    }
    entries.len()
}

/// Takes in what an entry reports, unless that becomes a row of a new pair. It answers, if so, where the row of the pair is, or
/// where the rows to its destination begin: the next report's begin near there, since broadcasts mostly rise in call order.
fn take_if_known(
    rows: &mut Vec<Route>,
    minq: u8,
    near: usize,
    sender: &Sender,
    entry: &Entry,
) -> Option<usize>
    requires stand { places.Stand rows.old.items }
    requires room { vec_len rows.old < vec_capacity rows.old }
    ensures items { IfSome result (λ _. (later : List Entry)
        → spec.after_reports minq (spec.reported_by sender.now later) rows.new.items
        ≡ spec.after_reports minq (spec.reported_by sender.now (entry.now ∷ later)) rows.old.items) }
    ensures same { IfNone result (rows.new ≡ rows.old) }
    ensures stand { places.Stand rows.new.items }
    ensures len { vec_len rows.new ≤ vec_len rows.old + 1 }
    ensures capacity { vec_capacity rows.old ≤ vec_capacity rows.new }
{
    if !is_reported(sender, entry) {
        return Some(near);
    }
    let report = route_over(sender, entry);
    let start = start_near(rows, near, &report.dest);
    match pair_from(rows, start, &report) {
        Some(at) => {
            change(rows, minq, at, &report);
            Some(at)
        }
        None if is_good(minq, &report) => None,
        None => Some(start),
    }
}

/// Takes in what the entries report.
///
/// A row that enters moves all rows behind it, so the reports of new pairs wait until all can enter at once. It stands apart, so
/// that a broadcast that reports known pairs alone pays nothing for those that could wait.
#[inline(never)]
fn take_all(rows: &mut Vec<Route>, minq: u8, sender: &Sender, entries: &[Entry])
    requires stand { places.Stand rows.old.items }
    requires few { length entries.now ≤ 11 }
    requires room { vec_len rows.old + length entries.now ≤ vec_capacity rows.old }
    ensures items { rows.new.items ≡ spec.after_reports minq (spec.reported_by sender.now entries.now) rows.old.items }
    ensures stand { places.Stand rows.new.items }
{
    let mut waiting = ArrayVec::new();
    take_entries(rows, &mut waiting, minq, sender, entries);
    enter_all(rows, &waiting);
}

/// Takes in what the entries report: where a row is of a report's pair, and else the report is kept among those that wait.
fn take_entries(
    rows: &mut Vec<Route>,
    waiting: &mut ArrayVec<Route, MAX_REPORTS>,
    minq: u8,
    sender: &Sender,
    entries: &[Entry],
)
    requires waiting { places.AreWaiting waiting.old.items rows.old.items }
    requires few { length waiting.old.items + length entries.now ≤ 12 }
    requires room { vec_len rows.old + length waiting.old.items + length entries.now ≤ vec_capacity rows.old }
    ensures items { ranks.all_placed waiting.new.items rows.new.items
        ≡ spec.after_reports minq (spec.reported_by sender.now entries.now)
        (ranks.all_placed waiting.old.items rows.old.items) }
    ensures waiting { places.AreWaiting waiting.new.items rows.new.items }
    ensures room { vec_len rows.new + length waiting.new.items ≤ vec_capacity rows.new }
{
    let mut near = 0;
    for entry in entries {
        near = take_entry(rows, waiting, minq, near, sender, entry);
    }
}

/// Takes in what an entry reports, if it reports a route, and answers as `take_or_keep` does.
fn take_entry(
    rows: &mut Vec<Route>,
    waiting: &mut ArrayVec<Route, MAX_REPORTS>,
    minq: u8,
    near: usize,
    sender: &Sender,
    entry: &Entry,
) -> usize
    requires waiting { places.AreWaiting waiting.old.items rows.old.items }
    requires few { length waiting.old.items < 12 }
    requires room { vec_len rows.old + length waiting.old.items < vec_capacity rows.old }
    ensures items { (later : List Entry)
        → spec.after_reports minq (spec.reported_by sender.now later)
        (ranks.all_placed waiting.new.items rows.new.items)
        ≡ spec.after_reports minq (spec.reported_by sender.now (entry.now ∷ later))
        (ranks.all_placed waiting.old.items rows.old.items) }
    ensures waiting { places.AreWaiting waiting.new.items rows.new.items }
    ensures few { length waiting.new.items ≤ length waiting.old.items + 1 }
    ensures len { vec_len rows.new + length waiting.new.items ≤ vec_len rows.old + length waiting.old.items + 1 }
    ensures capacity { vec_capacity rows.old ≤ vec_capacity rows.new }
{
    if is_reported(sender, entry) {
        take_or_keep(rows, waiting, minq, near, &route_over(sender, entry))
    } else {
        near
    }
}

/// Takes a report in where a row is of its pair, and else keeps it among those that wait. It answers where that row is, or
/// where the rows to its destination begin: the next report's begin near there, since broadcasts mostly rise in call order.
fn take_or_keep(
    rows: &mut Vec<Route>,
    waiting: &mut ArrayVec<Route, MAX_REPORTS>,
    minq: u8,
    near: usize,
    report: &Route,
) -> usize
    requires waiting { places.AreWaiting waiting.old.items rows.old.items }
    requires counted { is_none report.now.count ≡ false }
    requires few { length waiting.old.items < 12 }
    requires room { vec_len rows.old + length waiting.old.items < vec_capacity rows.old }
    ensures items { ranks.all_placed waiting.new.items rows.new.items
        ≡ spec.with_report minq report.now (ranks.all_placed waiting.old.items rows.old.items) }
    ensures waiting { places.AreWaiting waiting.new.items rows.new.items }
    ensures few { length waiting.new.items ≤ length waiting.old.items + 1 }
    ensures len { vec_len rows.new + length waiting.new.items ≤ vec_len rows.old + length waiting.old.items + 1 }
    ensures capacity { vec_capacity rows.old ≤ vec_capacity rows.new }
{
    let start = start_near(rows, near, &report.dest);
    match pair_from(rows, start, report) {
        Some(at) => {
            change(rows, minq, at, report);
            at
        }
        None => {
            keep(waiting, minq, report);
            start
        }
    }
}

/// Keeps a report in the place of what waits of its pair, if it is good enough.
fn keep(waiting: &mut ArrayVec<Route, MAX_REPORTS>, minq: u8, report: &Route)
    requires stand { places.Stand waiting.old.items }
    requires counted { places.AreCounted waiting.old.items }
    requires few { length waiting.old.items < 12 }
    ensures items { waiting.new.items ≡ spec.with_report minq report.now waiting.old.items }
    ensures few { length waiting.new.items ≤ length waiting.old.items + 1 }
{
    drop_pair(waiting, report);
    if is_good(minq, report) {
        let at = place_of(waiting, report);
        waiting.insert(at, *report);
    }
}

/// Drops what waits of the route's pair.
fn drop_pair(waiting: &mut ArrayVec<Route, MAX_REPORTS>, route: &Route)
    requires { places.Stand waiting.old.items }
    ensures items { waiting.new.items ≡ spec.beside route.now waiting.old.items }
    ensures few { length waiting.new.items ≤ length waiting.old.items }
{
    if waiting.is_empty() {
        return;
    }
    let start = start_near(waiting, waiting.len(), &route.dest);
    if let Some(at) = pair_from(waiting, start, route) {
        waiting.remove(at);
    }
}

/// Enters routes among the rows in one pass from the back, in which each row moves at most once. There is room for them.
fn enter_all(rows: &mut Vec<Route>, routes: &[Route])
    requires waiting { places.AreWaiting routes.now rows.old.items }
    requires room { vec_len rows.old + length routes.now ≤ vec_capacity rows.old }
    ensures { rows.new.items ≡ ranks.all_placed routes.now rows.old.items }
{
    let mut end = rows.len();
    let _ = rows.extend_from_slice(routes);
    let rows = rows.as_mut_slice();
    for gap in (0..routes.len()).rev() {
        end = enter_before(rows, end, gap, &routes[gap]);
    }
}

/// Enters a route among the rows before `end`, where a gap of `gap + 1` places begins: the rows behind the route move to the end of
/// the gap, and the route stands before them. It answers where the gap begins now, of `gap` places.
fn enter_before(rows: &mut [Route], end: usize, gap: usize, route: &Route) -> usize
    requires within { end + gap < length rows.old }
    requires order { places.InRows (take end rows.old) }
    ensures place { result ≡ places.place_among route.now (take end rows.old) }
    ensures bound { result ≤ end }
    ensures rows { rows.new ≡ take (result + gap) rows.old ++ route.now
        ∷ (drop result (take end rows.old) ++ drop (end + gap + 1) rows.old) }
{
    let at = place_of(&rows[..end], route);
    rows.copy_within(at..end, at + gap + 1);
    rows[at + gap] = *route;
    at
}

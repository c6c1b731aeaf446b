//! The reports that a broadcast stands for (NET/ROM, Appendix B). Called by `entering` and `rows`.
ghost use Rattle.std.specs.Prelude.{◌≡◌, ◌≤◌, ◌<◌, ◌+◌, ◌++◌, ◌∷◌, ◌||◌, List, not, length};
ghost use Rattle.ax_address.specs.Callsign.{same_call};
ghost use Rattle.ax_address.specs.declared.entry.Entry.{Entry};
ghost use Rattle.route_table.specs.Log as log;
ghost use Rattle.route_table.specs.Rows as spec;

use crate::route::Route;
use crate::sender::Sender;
use arrayvec::ArrayVec;
use ax_address::{Call, Entry, MAX_ENTRIES};

/// The reports of a broadcast: one of the neighbour itself, and one for each entry.
pub(crate) const MAX_REPORTS: usize = 1 + MAX_ENTRIES;

/// The routes that a broadcast reports, each with a whole life before it.
pub(crate) fn reports_of(sender: &Sender, entries: &[Entry]) -> ArrayVec<Route, MAX_REPORTS>
    requires { length entries.now ≤ 11 }
    ensures { result.items ≡ spec.reported sender.now entries.now }
{
    let mut reports = ArrayVec::new();
    if sender.neighbour == sender.own {
        return reports;
    }
    reports.push(route_to(sender));
    for entry in entries {
        push_report(&mut reports, sender, entry);
    }
    reports
}

/// Adds what an entry reports, if it reports a route.
fn push_report(reports: &mut ArrayVec<Route, MAX_REPORTS>, sender: &Sender, entry: &Entry)
    requires { length reports.old.items < 12 }
    ensures told { (later : List Entry)
        → reports.new.items ++ spec.reported_by sender.now later
        ≡ reports.old.items ++ spec.reported_by sender.now (entry.now ∷ later) }
    ensures few { length reports.new.items ≤ length reports.old.items + 1 }
{
    if is_reported(sender, entry) {
        reports.push(route_over(sender, entry));
    }
}

/// The route to the sender itself.
pub(crate) fn route_to(sender: &Sender) -> Route
    ensures { result ≡ spec.route_to sender.now }
{
    Route {
        dest: sender.neighbour,
        alias: sender.alias,
        neighbour: sender.neighbour,
        quality: sender.path_quality,
        count: Some(sender.life),
    }
}

/// Whether an entry reports a route: it is of neither this node nor the sender.
pub(crate) fn is_reported(sender: &Sender, entry: &Entry) -> bool
    ensures { result ≡ not (same_call entry.now.dest sender.now.own || same_call entry.now.dest sender.now.neighbour) }
{
    entry.dest != sender.own && entry.dest != sender.neighbour
}

/// The route that an entry reports.
pub(crate) fn route_over(sender: &Sender, entry: &Entry) -> Route
    ensures { result ≡ spec.route_over sender.now entry.now }
{
    Route {
        dest: entry.dest,
        alias: entry.alias,
        neighbour: sender.neighbour,
        quality: quality_over(&sender.own, sender.path_quality, entry),
        count: Some(sender.life),
    }
}

/// What an entry's destination is worth over the path to the sender.
fn quality_over(own: &Call, path_quality: u8, entry: &Entry) -> u8
    ensures { result ≡ log.quality_over own.now path_quality entry.now }
{
    if entry.best == *own {
        return 0;
    }
    ((entry.quality as u32 * path_quality as u32 + 128) / 256) as u8
}

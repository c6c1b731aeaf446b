//! The entries that a node broadcasts (NET/ROM, Appendix B). Called by `table`.
ghost use Rattle.std.specs.Prelude.{◌≡◌, ◌<◌, ◌≤◌, ◌++◌, List, Some, length, take, drop, filter_map, IfOk, OnOk};
ghost use Rattle.std.specs.List.{cons_option};
ghost use Rattle.ax_address.specs.declared.entry.Entry.{Entry};
ghost use Rattle.arrayvec.specs.ArrayVec.{array_vec_len};
ghost use Rattle.route_table.specs.Table as broadcast;
ghost use Rattle.route_table.specs.Places as places;
ghost use Rattle.route_table.specs.Rows as spec;

use crate::listing::behind;
use crate::route::Route;
use arrayvec::ArrayVec;
use ax_address::{Entry, MAX_ENTRIES};
use std::alloc::{AllocError, Global};

/// The entries that the rows give to broadcast, in call order, from that number on.
pub(crate) fn entries_of(rows: &[Route], least: u8, from: usize) -> ArrayVec<Entry, MAX_ENTRIES>
    requires { places.InRows rows.now }
    ensures { result.items
        ≡ take 11 (drop from (filter_map (spec.entry_from least rows.now) (spec.calls_of rows.now))) }
{
    let mut entries = ArrayVec::new();
    let mut skip = from;
    let mut rest = rows;
    while let Some(first) = rest.first() {
        if entries.is_full() {
            return entries;
        }
        add_entry(&mut entries, &mut skip, entry_of(least, first));
        rest = behind(rest);
    }
    entries
}

/// Adds an entry, where there is one, once none is left to skip.
fn add_entry(entries: &mut ArrayVec<Entry, MAX_ENTRIES>, skip: &mut usize, found: Option<Entry>)
    requires { array_vec_len entries.old < 11 }
    ensures few { length entries.new.items ≤ 11 }
    ensures told { (later : List Entry)
        → entries.new.items ++ drop skip.new later ≡ entries.old.items ++ drop skip.old (cons_option found later) }
{
    let Some(entry) = found else {
        return;
    };
    if *skip > 0 {
        *skip -= 1;
    } else {
        entries.push(entry);
    }
}

/// All entries that the rows give to broadcast, in call order.
pub(crate) fn all_entries_of(
    alloc: Global,
    rows: &[Route],
    least: u8,
) -> Result<Vec<Entry>, AllocError>
    requires { places.InRows rows.now }
    ensures { IfOk result (λ entries. entries.items
        ≡ filter_map (spec.entry_from least rows.now) (spec.calls_of rows.now)) }
{
    let mut entries = Vec::new(alloc);
    let mut rest = rows;
    while let Some(first) = rest.first() {
        push_entry(&mut entries, least, first)?;
        rest = behind(rest);
    }
    Ok(entries)
}

/// Adds what is broadcast of a destination with this first route, if anything is.
fn push_entry(entries: &mut Vec<Entry>, least: u8, first: &Route) -> Result<(), AllocError>
    ensures { OnOk result ((later : List Entry)
        → entries.new.items ++ later
        ≡ entries.old.items ++ cons_option (broadcast.entry_by least first.now.dest (Some first.now)) later) }
{
    if is_fresh(least, first) {
        entries.push(entry_through(first))?;
    }
    Ok(())
}

/// What is broadcast of a destination with this first route, where that is locked or has rounds enough left.
fn entry_of(least: u8, first: &Route) -> Option<Entry>
    ensures { result ≡ broadcast.entry_by least first.now.dest (Some first.now) }
{
    if is_fresh(least, first) {
        Some(entry_through(first))
    } else {
        None
    }
}

/// What a route says of its destination, as it is broadcast.
fn entry_through(route: &Route) -> Entry
    ensures { let r = route.now in
        result ≡ record { dest = r.dest; alias = r.alias; best = r.neighbour; quality = r.quality } }
{
    Entry {
        dest: route.dest,
        alias: route.alias,
        best: route.neighbour,
        quality: route.quality,
    }
}

/// Whether the route is broadcast: it is locked, or has at least that many rounds left.
fn is_fresh(least: u8, route: &Route) -> bool
    ensures { result ≡ broadcast.is_fresh least route.now.count }
{
    match route.count {
        Some(count) => count >= least,
        None => true,
    }
}

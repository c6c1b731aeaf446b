//! The destinations of a table, in call order. Called by `broadcasting` and `table`.
ghost use Rattle.std.specs.Prelude.{◌≡◌, ◌<◌, ◌≤◌, length, IfOk, slice_get, flat_map};
ghost use Rattle.std.specs.List.{prefix_len};
ghost use Rattle.route_table.specs.Places as places;
ghost use Rattle.route_table.specs.Rows as spec;
ghost use Rattle.route_table.specs.Table as table;

use crate::ranking::BEST;
use crate::route::Route;
use ax_address::Call;
use std::alloc::{AllocError, Global};

/// How many rows from the front on lead to the destination.
fn run_to(rows: &[Route], dest: &Call) -> usize
    ensures run { result ≡ prefix_len (table.is_to dest.now) rows.now }
    ensures within { result ≤ length rows.now }
{
    for (at, row) in rows.iter().enumerate() {
        if row.dest != *dest {
            return at;
        }
    }
    rows.len()
}

/// The rows behind those that lead where the first one does.
pub(crate) fn behind(rows: &[Route]) -> &[Route]
    ensures rest { result.now ≡ spec.behind rows.now }
    ensures shorter { 1 ≤ length rows.now → length result.now < length rows.now }
{
    match rows {
        [] => rows,
        [first, others @ ..] => &others[run_to(others, &first.dest)..],
    }
}

/// The best three of the rows from the front on that lead where the first one does.
fn best_of_first(rows: &[Route]) -> &[Route]
    ensures { result.now ≡ spec.best_of_first rows.now }
{
    match rows.first() {
        Some(first) => {
            let few = &rows[..rows.len().min(BEST)];
            &rows[..run_to(few, &first.dest)]
        }
        None => rows,
    }
}

/// The destinations of rows in order, each once.
pub(crate) fn destinations_of(alloc: Global, rows: &[Route]) -> Result<Vec<Call>, AllocError>
    ensures { IfOk result (λ calls. calls.items ≡ spec.calls_of rows.now) }
{
    let mut calls = Vec::new(alloc);
    let mut rest = rows;
    while let Some(first) = rest.first() {
        calls.push(first.dest)?;
        rest = behind(rest);
    }
    Ok(calls)
}

/// The destination of that number, in call order.
pub(crate) fn destination_of(rows: &[Route], nth: usize) -> Option<Call>
    ensures { result ≡ slice_get (spec.calls_of rows.now) nth }
{
    let mut skip = nth;
    let mut rest = rows;
    while let Some(first) = rest.first() {
        if skip == 0 {
            return Some(first.dest);
        }
        skip -= 1;
        rest = behind(rest);
    }
    None
}

/// The best three rows of each destination.
pub(crate) fn best_of_each(alloc: Global, rows: &[Route]) -> Result<Vec<Route>, AllocError>
    requires { places.InRows rows.now }
    ensures { IfOk result (λ best. best.items ≡ flat_map (spec.best_of rows.now) (spec.calls_of rows.now)) }
{
    let mut best = Vec::new(alloc);
    let mut rest = rows;
    while !rest.is_empty() {
        best.extend_from_slice(best_of_first(rest))?;
        rest = behind(rest);
    }
    Ok(best)
}

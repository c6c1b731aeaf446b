//! The lines of a table. Called by `reports`.
ghost use Rattle.std.specs.Prelude.{◌≡◌, ◌++◌, ◌+◌, ◌≤◌, flat_map, length, codes, string_bytes, [], OnOk, IfOk};
ghost use Rattle.std.specs.Fmt.{decimal};
ghost use Rattle.ax_address.specs.Alias as aliases;
ghost use Rattle.ax_address.specs.Callsign as calls;
ghost use Rattle.net_report.specs.Reports as texts;

use arrayvec::ArrayString;
use net_model::Table;
use radio_base::{NoMemory, TextOut, push_decimal};
use route_table::Route;
use std::alloc::{AllocError, Global};

/// Room for the line of a route.
type Line = ArrayString<80>;

/// A node's table, and its routes.
pub(crate) fn write_table(alloc: Global, table: &Table, text: &mut TextOut) -> Result<(), NoMemory>
    ensures { OnOk result (text.new ≡ text.old ++ texts.table_text table.now) }
{
    let line = table_line(alloc, table)?;
    text.text(line.as_str())?;
    write_routes(table.routes(), text)?;
    Ok(())
}

fn write_routes(routes: &[Route], text: &mut TextOut) -> Result<(), NoMemory>
    ensures { OnOk result (text.new ≡ text.old ++ flat_map texts.route_line routes.now) }
{
    for route in routes {
        let line = route_line(route);
        text.text(line.as_str())?;
    }
    Ok(())
}

/// `table N CALL ALIAS`
fn table_line(alloc: Global, table: &Table) -> Result<String, AllocError>
    ensures { IfOk result (λ s. string_bytes s ≡ texts.table_line table.now) }
{
    let node = table.node();
    let call = table.call().show();
    let alias = table.alias().show();
    let call = call.as_str();
    let alias = alias.as_str();
    format!(in alloc; "table {node} {call} {alias}\n")
}

/// `route DEST ALIAS NEIGHBOUR QUALITY COUNT`
fn route_line(route: &Route) -> Line
    ensures { result.bytes ≡ texts.route_line route.now }
{
    let mut line = Line::new();
    push_dest(route, &mut line);
    push_neighbour(route, &mut line);
    push_worth(route, &mut line);
    line
}

fn push_dest(route: &Route, line: &mut Line)
    requires { line.old.bytes ≡ [] }
    ensures text { line.new.bytes ≡ codes "route " ++ (calls.shown route.now.dest ++ codes " ") }
    ensures len { length line.new.bytes ≤ 16 }
{
    line.push_str("route ");
    route.dest.append_to(line);
    line.push(' ');
}

fn push_neighbour(route: &Route, line: &mut Line)
    requires { length line.old.bytes ≤ 16 }
    ensures text { line.new.bytes ≡ line.old.bytes
        ++ (aliases.shown route.now.alias ++ (codes " " ++ (calls.shown route.now.neighbour ++ codes " "))) }
    ensures len { length line.new.bytes ≤ 33 }
{
    line.push_str(route.alias.show().as_str());
    line.push(' ');
    route.neighbour.append_to(line);
    line.push(' ');
}

fn push_worth(route: &Route, line: &mut Line)
    requires { length line.old.bytes ≤ 33 }
    ensures text { line.new.bytes ≡ line.old.bytes
        ++ (decimal route.now.quality ++ (codes " " ++ (texts.count_text route.now.count ++ codes "\n"))) }
{
    push_decimal(route.quality as usize, line);
    line.push(' ');
    push_count(route.count, line);
    line.push('\n');
}

fn push_count(count: Option<u8>, line: &mut Line)
    requires { length line.old.bytes + 20 ≤ 80 }
    ensures text { line.new.bytes ≡ line.old.bytes ++ texts.count_text count }
    ensures len { length line.new.bytes ≤ length line.old.bytes + 20 }
{
    match count {
        Some(count) => push_decimal(count as usize, line),
        None => line.push_str("locked"),
    }
}

//! The line of a file on which a fault stands. Called by `refusal`, since `toml` tells no places of what it has read.
ghost use Rattle.std.specs.Prelude.{◌≡◌, ◌≤◌, ◌<◌, ◌+◌, length, take, slice_index, ◌^◌, Some, option_map, IfOk};
ghost use Rattle.toml.specs.Data.{as_array, as_table};
ghost use Rattle.toml.specs.View.{view, table_view};
ghost use Rattle.station_file.specs.Lines as lines;

use crate::fault::Fault;
use crate::file_key::FileKey;
use crate::section::Section;
use crate::tables::{find, value_at};
use crate::why::Why;
use radio_base::NoMemory;
use std::alloc::Global;
use toml::{Table, Value};

/// How far the lines were looked through.
#[derive(Clone, Copy, Debug)]
struct Placing {
    /// How many were.
    lines: usize,
    /// The line that may be the one looked for.
    line: usize,
    /// It is.
    found: bool,
}

/// The line on which the key stands of which a fault is told, or its table where the table lacks the key: all lines before it, read alone,
/// are a document that lacks that, and the next lines with which they are a document again have it.
#[tactic(auto, unfolding(crate::specs::Lines::line_of))]
pub fn line_of(alloc: Global, text: &[u8], fault: &Fault) -> Result<usize, NoMemory>
    ensures { IfOk result (λ line. line ≡ lines.line_of text.now fault.now) }
{
    let mut placing = Placing {
        lines: 0,
        line: 1,
        found: false,
    };
    for at in 0..text.len() {
        placing = with_byte(alloc, text, at, placing, fault)?;
    }
    Ok(placing.line)
}

/// The same with one byte more, the one at that place.
fn with_byte(
    alloc: Global,
    text: &[u8],
    at: usize,
    placing: Placing,
    fault: &Fault,
) -> Result<Placing, NoMemory>
    requires at { at < length text.now }
    requires lines { placing.lines ≤ at }
    ensures value { IfOk result (λ p. p ≡ lines.with_byte fault.now text.now at placing (slice_index text.now at)) }
    ensures lines { IfOk result (λ p. p.lines ≤ at + 1) }
{
    if placing.found || text[at] != b'\n' {
        return Ok(placing);
    }
    let has_place = document_has(alloc, &text[..at + 1], fault)?;
    Ok(with_line(placing, has_place))
}

/// The same with one line more, behind which the text is a document that has the key, or lacks it, or none.
fn with_line(placing: Placing, has_place: Option<bool>) -> Placing
    requires { placing.lines < 2 ^ 63 }
    ensures value { result ≡ lines.with_answer placing has_place }
    ensures lines { result.lines ≡ placing.lines + 1 }
{
    let lines = placing.lines + 1;
    match has_place {
        None => Placing { lines, ..placing },
        Some(true) => Placing {
            lines,
            line: placing.line,
            found: true,
        },
        Some(false) => Placing {
            lines,
            line: lines + 1,
            found: false,
        },
    }
}

/// Whether the document has it, where the text is one.
#[tactic(auto, using(crate::proofs::Documents::read_document, crate::proofs::Documents::refused_document))]
fn document_has(alloc: Global, text: &[u8], fault: &Fault) -> Result<Option<bool>, NoMemory>
    ensures { IfOk result (λ has. has ≡ option_map (lines.has_place fault.now) (lines.document text.now)) }
{
    match toml::table_from_slice(alloc, text) {
        Ok(table) => Ok(Some(has_place(&table, fault))),
        Err(error) => {
            if error.is_memory() {
                Err(NoMemory)
            } else {
                Ok(None)
            }
        }
    }
}

fn has_place(table: &Table, fault: &Fault) -> bool
    ensures { result ≡ lines.has_place fault.now (table_view table.now) }
{
    match section_in(table, fault.section) {
        Some(table) => table_has(table, fault),
        None => false,
    }
}

fn table_has(table: &Table, fault: &Fault) -> bool
    ensures { result ≡ lines.table_has fault.now (Some (table_view table.now)) }
{
    is_missing(fault.why) || find(table, fault.key.as_str()).is_some()
}

fn is_missing(why: Why) -> bool
    ensures { result ≡ lines.is_missing why }
{
    match why {
        Why::Missing => true,
        _ => false,
    }
}

/// The table of the section.
fn section_in(table: &Table, section: Section) -> Option<&Table>
    ensures { option_map (λ t. table_view t.now) result ≡ lines.section_in section (table_view table.now) }
{
    match section {
        Section::Station => Some(table),
        Section::Port(number) => table_in(number, value_at(table, FileKey::Port)),
        Section::Node(number) => table_in(number, value_at(table, FileKey::Node)),
        Section::Mail => table_of(value_at(table, FileKey::Mail)),
        Section::Beacon(number) => table_in(number, value_at(table, FileKey::Beacon)),
    }
}

/// The table that it is.
fn table_of(value: Option<&Value>) -> Option<&Table>
    ensures { option_map (λ t. table_view t.now) result ≡ lines.and_then as_table (option_map (λ v. view v.now) value.entry) }
{
    match value {
        Some(value) => value.as_table(),
        None => None,
    }
}

/// The table of that number, from 1, of a list.
fn table_in(number: u8, list: Option<&Value>) -> Option<&Table>
    ensures { option_map (λ t. table_view t.now) result ≡ lines.table_in number (option_map (λ v. view v.now) list.entry) }
{
    match list {
        Some(list) => table_of(item_of(number, list)),
        None => None,
    }
}

/// The item of that number, from 1.
fn item_of(number: u8, list: &Value) -> Option<&Value>
    ensures { option_map (λ v. view v.now) result ≡ lines.and_then (lines.nth number) (as_array (view list.now)) }
{
    if number == 0 {
        return None;
    }
    list.get(number as usize - 1)
}

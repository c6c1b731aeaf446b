//! What the bytes of a file say, or why the file is refused. Called by `station_check`.
ghost use Rattle.std.specs.Prelude.{◌≡◌, ◌≤◌, length, Some, MatchResult};
ghost use Rattle.toml.specs.Errors.{IsWithin};
ghost use Rattle.toml.specs.View.{table_view};
ghost use Rattle.station_file.specs.Files as files;
ghost use Rattle.station_file.specs.Lines.{line_of};

use crate::fault::{Fault, Stop};
use crate::limits::MAX_FILE;
use crate::lines::line_of;
use crate::station::StationFile;
use radio_base::NoMemory;
use std::alloc::Global;
use toml::Table;
use toml::de::Error;

/// Why the file of a station is refused.
#[derive(Debug, Drop)]
pub enum Refusal {
    /// It has more than 65,536 bytes.
    TooLong { bytes: usize },
    /// It is no TOML, as the error says of this line.
    NotToml { line: usize, error: Error },
    /// Something is wrong with a key.
    Fault { line: usize, fault: Fault },
    NoMemory,
}

/// What the bytes of a file say of a station.
#[tactic(auto, using(crate::proofs::Documents::read_document, crate::proofs::Documents::refused_document))]
pub fn read_station(alloc: Global, bytes: &[u8]) -> Result<StationFile, Refusal>
    ensures { MatchResult result (λ f. files.station_at bytes.now ≡ files.says f)
        (λ e. files.ReadAs bytes.now e (files.station_at bytes.now)) }
{
    if bytes.len() > MAX_FILE {
        return Err(Refusal::TooLong { bytes: bytes.len() });
    }
    match toml::table_from_slice(alloc, bytes) {
        Ok(table) => read_table(alloc, bytes, &table),
        Err(error) => {
            if error.is_memory() {
                Err(Refusal::NoMemory)
            } else {
                Err(not_toml(bytes, error))
            }
        }
    }
}

fn read_table(alloc: Global, bytes: &[u8], table: &Table) -> Result<StationFile, Refusal>
    ensures { MatchResult result (λ f. files.station_in bytes.now (Some (table_view table.now)) ≡ files.says f)
        (λ e. files.ReadAs bytes.now e (files.station_in bytes.now (Some (table_view table.now)))) }
{
    match StationFile::read(alloc, table) {
        Ok(station) => Ok(station),
        Err(Stop::NoMemory) => Err(Refusal::NoMemory),
        Err(Stop::Refused(fault)) => Err(refusal_of(alloc, bytes, fault)),
    }
}

/// The refusal that tells the fault, with its line.
fn refusal_of(alloc: Global, bytes: &[u8], fault: Fault) -> Refusal
    ensures { files.ReadAs bytes.now result (files.refused (line_of bytes.now fault) fault) }
{
    match line_of(alloc, bytes, &fault) {
        Ok(line) => Refusal::Fault { line, fault },
        Err(NoMemory) => Refusal::NoMemory,
    }
}

/// The refusal of what is no TOML.
fn not_toml(bytes: &[u8], error: Error) -> Refusal
    requires { IsWithin bytes.now error }
    ensures { files.ReadAs bytes.now result files.not_toml }
{
    match error.span() {
        Some(span) => Refusal::NotToml {
            line: line_at(bytes, span.start),
            error,
        },
        None => Refusal::NoMemory,
    }
}

/// The number of the line of that byte.
fn line_at(bytes: &[u8], at: usize) -> usize
    requires { at ≤ length bytes.now }
    ensures { result ≡ files.line_at bytes.now at }
{
    bytes[..at].iter().filter(|b| **b == b'\n').count() + 1
}

//! What is told of a refused file. Who reads the file says its name. Called by `station_check`.
ghost use Rattle.std.specs.Prelude.{◌≡◌, ℕ, List, IfOk, string_bytes};
ghost use Rattle.station_file.specs.Told as told;

use crate::fault::Fault;
use crate::refusal::Refusal;
use radio_base::NoMemory;
use std::alloc::Global;
use toml::de::Error;

/// A line that tells of the refusal, as `station.toml: line 12: node.alias: 7 bytes, at most 6`. Want of memory has none.
pub fn refusal_text(alloc: Global, name: &str, refusal: &Refusal) -> Result<String, NoMemory>
    ensures { IfOk result (λ s. told.TellsRefusal name.now refusal.now (string_bytes s)) }
{
    match refusal {
        Refusal::TooLong { bytes } => too_long_text(alloc, name, *bytes),
        Refusal::NotToml { line, error } => error_text(alloc, name, *line, error),
        Refusal::Fault { line, fault } => fault_text(alloc, name, *line, fault),
        Refusal::NoMemory => Err(NoMemory),
    }
}

fn too_long_text(alloc: Global, name: &str, bytes: usize) -> Result<String, NoMemory>
    ensures { IfOk result (λ s. string_bytes s ≡ told.too_long_told name.now bytes) }
{
    let bytes = bytes as u64;
    Ok(format!(in alloc; "{name}: {bytes} bytes, at most 65536\n")?)
}

fn error_text(alloc: Global, name: &str, line: usize, error: &Error) -> Result<String, NoMemory>
    ensures { IfOk result (λ s. (message : List ℕ) × (string_bytes s ≡ told.error_told name.now line message)) }
{
    let line = line as u64;
    let message = error.message();
    Ok(format!(in alloc; "{name}: line {line}: {message}\n")?)
}

fn fault_text(alloc: Global, name: &str, line: usize, fault: &Fault) -> Result<String, NoMemory>
    ensures { IfOk result (λ s. string_bytes s ≡ told.fault_told name.now line fault.now) }
{
    let line = line as u64;
    let table = fault.section.prefix();
    let key = fault.key.as_str();
    let why = fault.why;
    Ok(format!(in alloc; "{name}: line {line}: {table}{key}: {why}\n")?)
}

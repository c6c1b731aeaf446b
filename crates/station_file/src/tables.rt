//! What a table has at a key, and that it has no others. Called by `lines` and all files here that read a table.
ghost use Rattle.std.specs.Prelude.{◌≡◌, option_map, Ok, MatchResult};
ghost use Rattle.toml.specs.Data.{get_member};
ghost use Rattle.toml.specs.View.{view, table_view};
ghost use Rattle.station_file.specs.Tables as tables;

use crate::fault::{Stop, refuse};
use crate::file_key::FileKey;
use crate::section::Section;
use crate::why::Why;
use std::alloc::Global;
use toml::{Table, Value};

/// What the table has at the key of that word.
pub fn find<'t>(table: &'t Table, word: &str) -> Option<&'t Value>
    ensures { option_map (λ v. view v.now) result ≡ get_member word.now (table_view table.now) }
{
    table.get(word)
}

/// What the table has at the key.
pub fn value_at(table: &Table, key: FileKey) -> Option<&Value>
    ensures { option_map (λ v. view v.now) result ≡ tables.value_at key (table_view table.now) }
{
    find(table, key.word())
}

/// Refuses the first key of the table, in the order of their bytes, that no table of its kind has.
pub fn know_keys(alloc: Global, section: Section, table: &Table) -> Result<(), Stop>
    ensures { MatchResult result (λ _. tables.known_keys section (table_view table.now) ≡ Ok tt)
        (λ e. tables.TellsOf e (tables.known_keys section (table_view table.now))) }
{
    for (key, _) in table.iter() {
        if !section.knows(key.as_bytes()) {
            return Err(refuse(alloc, section, key.as_str(), Why::NoSuchKey));
        }
    }
    Ok(())
}

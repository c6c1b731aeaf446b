//! The post of a file. Called by `station`, after its other members.
ghost use Rattle.std.specs.Prelude.{◌≡◌, ◌≤◌, length, option_map, Ok, MatchResult};
ghost use Rattle.toml.specs.View.{view, table_view};
ghost use Rattle.station_file.specs.Stations as stations;
ghost use Rattle.station_file.specs.Tables.{TellsOf};
ghost use Rattle.station_file.specs.Values as values;

use crate::fault::{Stop, at, text_at};
use crate::file_key::FileKey;
use crate::file_text::FileText;
use crate::limits::{DAY_SECONDS, MAX_MAIL_FILE, MAX_MEMBERS};
use crate::nodes::{Member, new_alias, new_call};
use crate::section::Section;
use crate::tables::{know_keys, value_at};
use crate::values::{needs, number, table, text};
use crate::why::Why;
use ax_address::{Alias, Call};
use std::alloc::Global;
use toml::{Table, Value};

/// The member that keeps mail, as a file declares it.
#[derive(Debug, Drop)]
pub struct Post {
    pub call: Call,
    pub alias: Alias,
    /// The file that keeps the mail.
    pub file: FileText,
    /// How many seconds after a try mail is tried again.
    pub every: u32,
}

/// The post, where the file has one.
pub fn read_post(alloc: Global, station: &Table, members: &[Member]) -> Result<Option<Post>, Stop>
    requires { length members.now ≤ 8 }
    ensures { MatchResult result (λ p. stations.post_at members.now (table_view station.now) ≡ Ok p)
        (λ e. TellsOf e (stations.post_at members.now (table_view station.now))) }
{
    match value_at(station, FileKey::Mail) {
        None => Ok(None),
        Some(value) => {
            let post = post_in(alloc, members, value)?;
            Ok(Some(post))
        }
    }
}

#[tactic(auto, unfolding(crate::specs::Stations::post_in))]
fn post_in(alloc: Global, members: &[Member], value: &Value) -> Result<Post, Stop>
    requires { length members.now ≤ 8 }
    ensures { MatchResult result (λ p. stations.post_in members.now (view value.now) ≡ Ok p)
        (λ e. TellsOf e (stations.post_in members.now (view value.now))) }
{
    let table = at(
        alloc,
        Section::Station,
        FileKey::Mail,
        post_table(members, value),
    )?;
    let post = post_of(alloc, members, table)?;
    Ok(post)
}

/// The post is the last of at most eight members.
#[tactic(auto, unfolding(crate::specs::Stations::post_table))]
fn post_table<'t>(members: &[Member], value: &'t Value) -> Result<&'t Table, Why>
    requires { length members.now ≤ 8 }
    ensures { values.seen_table result ≡ stations.post_table members.now (view value.now) }
{
    let table = table(value)?;
    let count = members.len() + 1;
    let most = MAX_MEMBERS;
    needs(members.len() < most, Why::TooMany { count, most })?;
    Ok(table)
}

#[tactic(auto, unfolding(crate::specs::Stations::post_of))]
fn post_of(alloc: Global, members: &[Member], table: &Table) -> Result<Post, Stop>
    ensures { MatchResult result (λ p. stations.post_of members.now (table_view table.now) ≡ Ok p)
        (λ e. TellsOf e (stations.post_of members.now (table_view table.now))) }
{
    let section = Section::Mail;
    know_keys(alloc, section, table)?;
    let call = at(alloc, section, FileKey::Call, new_call(members, table))?;
    let alias = at(alloc, section, FileKey::Alias, new_alias(members, table))?;
    let file = text(value_at(table, FileKey::File), 1, MAX_MAIL_FILE);
    let file = text_at(alloc, section, FileKey::File, file)?;
    let every = number(value_at(table, FileKey::Every), 1, DAY_SECONDS, 600);
    let every = at(alloc, section, FileKey::Every, every)?;
    Ok(Post {
        call,
        alias,
        file,
        every,
    })
}

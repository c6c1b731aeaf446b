//! The values of keys, by the rules of their kinds. Called by all files here that read a table or a list.
ghost use Rattle.std.specs.Prelude.{◌≡◌, ◌≤◌, length, map, option_map, IfOk};
ghost use Rattle.toml.specs.Data.{as_str};
ghost use Rattle.toml.specs.View.{view};
ghost use Rattle.station_file.specs.Values as values;
ghost use Rattle.station_file.specs.Values.{seen};

use crate::why::Why;
use ax_address::{Alias, AliasRefusal, Call};
use toml::{Table, Value};

/// What is wrong, where the test fails.
pub fn needs(holds: bool, why: Why) -> Result<(), Why>
    ensures { result ≡ values.needs holds why }
{
    if holds { Ok(()) } else { Err(why) }
}

/// A text of at least and at most so many bytes, which has to be there.
pub fn text(value: Option<&Value>, least: usize, most: usize) -> Result<&str, Why>
    ensures value { seen result ≡ values.text least most (option_map (λ v. view v.now) value.entry) }
    ensures short { IfOk result (λ s. length s.now ≤ most) }
{
    match value {
        None => Err(Why::Missing),
        Some(value) => text_of(value, least, most),
    }
}

/// A text of at most so many bytes, or none.
pub fn text_or_none(value: Option<&Value>, most: usize) -> Result<&str, Why>
    ensures { seen result ≡ values.text_or_none most (option_map (λ v. view v.now) value.entry) }
{
    match value {
        None => Ok(""),
        Some(value) => text_of(value, 0, most),
    }
}

fn text_of(value: &Value, least: usize, most: usize) -> Result<&str, Why>
    ensures value { seen result ≡ values.text_of least most (as_str (view value.now)) }
    ensures short { IfOk result (λ s. length s.now ≤ most) }
{
    match value.as_str() {
        Some(text) => sized(text, least, most),
        None => Err(Why::NotText),
    }
}

fn sized(text: &str, least: usize, most: usize) -> Result<&str, Why>
    ensures value { seen result ≡ values.sized least most text.now }
    ensures short { IfOk result (λ s. length s.now ≤ most) }
{
    let bytes = text.len();
    if bytes < least {
        Err(Why::TooShort { bytes, least })
    } else if bytes > most {
        Err(Why::TooLong { bytes, most })
    } else {
        Ok(text)
    }
}

/// A whole number in a range, or the default.
pub fn number(value: Option<&Value>, least: u32, most: u32, default: u32) -> Result<u32, Why>
    ensures value { result ≡ values.number least most default (option_map (λ v. view v.now) value.entry) }
    ensures in_range { least ≤ default → default ≤ most → IfOk result (λ n. (least ≤ n) × (n ≤ most)) }
{
    match value {
        None => Ok(default),
        Some(value) => number_of(value, least, most),
    }
}

/// A whole number in a range, which has to be there.
pub fn needed_number(value: Option<&Value>, least: u32, most: u32) -> Result<u32, Why>
    ensures { result ≡ values.needed_number least most (option_map (λ v. view v.now) value.entry) }
{
    match value {
        None => Err(Why::Missing),
        Some(value) => number_of(value, least, most),
    }
}

/// A whole number in a range.
pub fn number_of(value: &Value, least: u32, most: u32) -> Result<u32, Why>
    ensures value { result ≡ values.number_of least most (view value.now) }
    ensures in_range { IfOk result (λ n. (least ≤ n) × (n ≤ most)) }
{
    match value.as_integer() {
        Some(value) => in_range(value, least, most),
        None => Err(Why::NotNumber),
    }
}

fn in_range(value: i64, least: u32, most: u32) -> Result<u32, Why>
    ensures value { result ≡ values.in_range least most value }
    ensures in_range { IfOk result (λ n. (least ≤ n) × (n ≤ most)) }
{
    if value < least as i64 || value > most as i64 {
        Err(Why::OutOfRange { value, least, most })
    } else {
        Ok(value as u32)
    }
}

/// `true` or `false`, or the default.
pub fn flag(value: Option<&Value>, default: bool) -> Result<bool, Why>
    ensures { result ≡ values.flag default (option_map (λ v. view v.now) value.entry) }
{
    match value {
        None => Ok(default),
        Some(value) => flag_of(value.as_bool()),
    }
}

fn flag_of(value: Option<bool>) -> Result<bool, Why>
    ensures { result ≡ values.flag_of value }
{
    value.ok_or(Why::NotFlag)
}

/// A call, which has to be there.
pub fn call(value: Option<&Value>) -> Result<Call, Why>
    ensures { result ≡ values.call (option_map (λ v. view v.now) value.entry) }
{
    match value {
        None => Err(Why::Missing),
        Some(value) => call_of(value),
    }
}

fn call_of(value: &Value) -> Result<Call, Why>
    ensures { result ≡ values.call_of (as_str (view value.now)) }
{
    match value.as_str() {
        Some(text) => call_in(text),
        None => Err(Why::NotText),
    }
}

fn call_in(text: &str) -> Result<Call, Why>
    ensures { result ≡ values.call_in text.now }
{
    match Call::read(text.as_bytes()) {
        Ok(call) => Ok(call),
        Err(_) => Err(Why::NoCall),
    }
}

/// An alias, which has to be there.
pub fn alias(value: Option<&Value>) -> Result<Alias, Why>
    ensures { result ≡ values.alias (option_map (λ v. view v.now) value.entry) }
{
    match value {
        None => Err(Why::Missing),
        Some(value) => alias_of(value),
    }
}

fn alias_of(value: &Value) -> Result<Alias, Why>
    ensures { result ≡ values.alias_of (as_str (view value.now)) }
{
    match value.as_str() {
        Some(text) => alias_in(text),
        None => Err(Why::NotText),
    }
}

fn alias_in(text: &str) -> Result<Alias, Why>
    ensures { result ≡ values.alias_in text.now }
{
    match Alias::read(text.as_bytes()) {
        Ok(alias) => Ok(alias),
        Err(AliasRefusal::Empty) => Err(Why::TooShort { bytes: 0, least: 1 }),
        Err(AliasRefusal::TooLong) => Err(Why::TooLong {
            bytes: text.len(),
            most: 6,
        }),
        Err(AliasRefusal::BadChar { .. }) => Err(Why::NoAlias),
    }
}

/// A list of at most so many items, or none.
pub fn list(value: Option<&Value>, most: usize) -> Result<&[Value], Why>
    ensures value { values.seen_items result ≡ values.list most (option_map (λ v. view v.now) value.entry) }
    ensures few { IfOk result (λ items. length items.now ≤ most) }
{
    match value {
        None => Ok(&[]),
        Some(value) => list_of(value, most),
    }
}

#[tactic(auto, using(crate::proofs::Lists::items_in_of))]
fn list_of(value: &Value, most: usize) -> Result<&[Value], Why>
    ensures value { values.seen_items result ≡ values.list_of most (values.items_of (view value.now)) }
    ensures few { IfOk result (λ items. length items.now ≤ most) }
{
    match value.as_array() {
        Some(items) => few(items, most),
        None => Err(Why::NotList),
    }
}

fn few(items: &[Value], most: usize) -> Result<&[Value], Why>
    ensures value { values.seen_items result ≡ values.few most (map view items.now) }
    ensures few { IfOk result (λ items. length items.now ≤ most) }
{
    let count = items.len();
    if count > most {
        Err(Why::TooMany { count, most })
    } else {
        Ok(items)
    }
}

/// A table.
pub fn table(value: &Value) -> Result<&Table, Why>
    ensures { values.seen_table result ≡ values.table (view value.now) }
{
    match value.as_table() {
        Some(table) => Ok(table),
        None => Err(Why::NotTable),
    }
}

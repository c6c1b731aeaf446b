//! Rows are read as records. Called by `log` and `opening`.
ghost use Rattle.std.specs.Prelude.{◌≡◌, ◌≤◌, ◌<◌, ◌+◌, [], length, None, slice_index_or, IfOk, IfErr, IfSome};
ghost use Rattle.std.specs.Option.{option_copied};
ghost use Rattle.sqlite.specs.Value.{owned};
ghost use Rattle.sqlite.specs.Order.{column};
ghost use Rattle.sqlite_log.specs.Reading as rows;
ghost use Rattle.sqlite_log.specs.Reading.{AreReadAs, IsSpoiltAt};

use ax_address::Call;
use mail_records::{LetterText, LogFailed, MAX_TEXT, Record};
use sqlite::Row;
use sqlite_value::value::ValueRef;
use std::alloc::{AllocError, Global};

/// The records that rows are read as, whose numbers are 1, 2 and so on.
pub(crate) fn records_in(alloc: Global, found: &[Row]) -> Result<Vec<Record>, LogFailed>
    ensures read { IfOk result (λ records. AreReadAs 1 found.now records.items) }
    ensures spoilt { IfErr result (IsSpoiltAt found.now) }
{
    let mut records = Vec::new(alloc);
    let mut place = 0u64;
    for row in found {
        place += 1;
        match record_at(alloc, row, place)? {
            Some(entry) => records.push(entry)?,
            None => return Err(LogFailed::Spoilt { place }),
        }
    }
    Ok(records)
}

/// The record that a row is read as, where it has this number.
#[tactic(auto, unfolding(crate::specs::Reading::record_at))]
fn record_at(alloc: Global, row: &Row, number: u64) -> Result<Option<Record>, AllocError>
    ensures { IfOk result (λ entry. entry ≡ rows.record_at number row.now) }
{
    let Some(found) = number_in(value_at(row, 0)) else {
        return Ok(None);
    };
    let Some(kind) = kind_in(value_at(row, 1)) else {
        return Ok(None);
    };
    if found == number {
        of_kind(alloc, row, kind)
    } else {
        Ok(None)
    }
}

fn of_kind(alloc: Global, row: &Row, kind: &[u8]) -> Result<Option<Record>, AllocError>
    ensures { IfOk result (λ entry. entry ≡ rows.of_kind row.now kind.now) }
{
    if kind == b"posted".as_slice() {
        posted_in(alloc, row)
    } else if kind == b"settled".as_slice() {
        Ok(settled_in(row))
    } else if kind == b"stored".as_slice() {
        stored_in(alloc, row)
    } else if kind == b"local".as_slice() {
        local_in(alloc, row)
    } else if kind == b"read".as_slice() {
        Ok(read_in(row))
    } else if kind == b"killed".as_slice() {
        Ok(killed_in(row))
    } else {
        Ok(None)
    }
}

fn posted_in(alloc: Global, row: &Row) -> Result<Option<Record>, AllocError>
    ensures { IfOk result (λ entry. entry ≡ rows.posted_in row.now) }
{
    let Some(number) = number_in(value_at(row, 3)) else {
        return Ok(None);
    };
    let Some(user) = call_in(value_at(row, 4)) else {
        return Ok(None);
    };
    let Some(dest) = call_in(value_at(row, 5)) else {
        return Ok(None);
    };
    let Some(text) = text_in(alloc, value_at(row, 6))? else {
        return Ok(None);
    };
    Ok(Some(Record::Posted {
        number,
        user,
        dest,
        text,
    }))
}

fn settled_in(row: &Row) -> Option<Record>
    ensures { result ≡ rows.settled_in row.now }
{
    let number = number_in(value_at(row, 3))?;
    Some(Record::Settled { number })
}

fn stored_in(alloc: Global, row: &Row) -> Result<Option<Record>, AllocError>
    ensures { IfOk result (λ entry. entry ≡ rows.stored_in row.now) }
{
    let Some(origin) = call_in(value_at(row, 2)) else {
        return Ok(None);
    };
    let Some(number) = number_in(value_at(row, 3)) else {
        return Ok(None);
    };
    let Some(user) = call_in(value_at(row, 4)) else {
        return Ok(None);
    };
    let Some(text) = text_in(alloc, value_at(row, 6))? else {
        return Ok(None);
    };
    Ok(Some(Record::Stored {
        origin,
        number,
        user,
        text,
    }))
}

fn local_in(alloc: Global, row: &Row) -> Result<Option<Record>, AllocError>
    ensures { IfOk result (λ entry. entry ≡ rows.local_in row.now) }
{
    let Some(user) = call_in(value_at(row, 4)) else {
        return Ok(None);
    };
    let Some(text) = text_in(alloc, value_at(row, 6))? else {
        return Ok(None);
    };
    Ok(Some(Record::Local { user, text }))
}

fn read_in(row: &Row) -> Option<Record>
    ensures { result ≡ rows.read_in row.now }
{
    let letter = number_in(value_at(row, 3))?;
    Some(Record::Read { letter })
}

fn killed_in(row: &Row) -> Option<Record>
    ensures { result ≡ rows.killed_in row.now }
{
    let letter = number_in(value_at(row, 3))?;
    Some(Record::Killed { letter })
}

fn value_at(row: &Row, at: usize) -> ValueRef<'_>
    ensures { owned result ≡ column row.now at }
{
    match row.get_ref(at) {
        Ok(value) => value,
        Err(_) => ValueRef::Null,
    }
}

fn number_in(value: ValueRef<'_>) -> Option<u64>
    ensures { result ≡ rows.number_in (owned value.entry) }
{
    match value {
        ValueRef::Int(n) => u64::try_from(n).ok(),
        _ => None,
    }
}

fn call_in(value: ValueRef<'_>) -> Option<Call>
    ensures { result ≡ rows.call_in (owned value.entry) }
{
    match value {
        ValueRef::Text(text) => Call::read(text).ok(),
        _ => None,
    }
}

fn text_in(alloc: Global, value: ValueRef<'_>) -> Result<Option<LetterText>, AllocError>
    ensures { IfOk result (λ text. text ≡ rows.text_in (owned value.entry)) }
{
    match value {
        ValueRef::Blob(octets) => {
            if octets.len() <= MAX_TEXT {
                let text = LetterText::from_slice(alloc, octets)?;
                Ok(Some(text))
            } else {
                Ok(None)
            }
        }
        _ => Ok(None),
    }
}

fn kind_in(value: ValueRef<'_>) -> Option<&[u8]>
    ensures { option_copied result ≡ rows.kind_in (owned value.entry) }
{
    match value {
        ValueRef::Text(kind) => Some(kind),
        _ => None,
    }
}

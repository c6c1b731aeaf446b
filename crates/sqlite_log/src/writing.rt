//! A record is written. Called by `log`.
ghost use Rattle.std.specs.Prelude.{◌≡◌, ◌∷◌, [], ◌≤◌, ◌^◌, pos, length, codes};
ghost use Rattle.ax_address.specs.Callsign.{IsCallsign, shown};
ghost use Rattle.mail_records.specs.Records.{IsNumbered, IsWhole};
ghost use Rattle.sqlite.specs.State.{HasCleanDisk, Survives, CommitsBy};
ghost use Rattle.sqlite.specs.Held.{state};
ghost use Rattle.sqlite.specs.declared.types.Value.TheVariants.{Null, Int, Text as Words, Blob as Octets};
ghost use Rattle.sqlite_log.specs.Table.{insert_text, values_of};
ghost use Rattle.sqlite_log.specs.Reading.{IsReadable};
ghost use Rattle.sqlite_log.specs.Held.{Inserted, Wrote};

use crate::statements::insert;
use ax_address::Call;
use ax_address::laws::call_texts;
use mail_records::{LogFailed, Record};
use sqlite::{Alter, Connection};
use sqlite_value::value::ValueRef;

/// Writes a record.
pub(crate) fn write<S: Alter>(conn: &mut Connection<S>, entry: &Record) -> Result<(), LogFailed>
    requires numbered { IsNumbered entry.now }
    ensures ran { HasCleanDisk (state S.Store conn.new) → Wrote entry.now (state S.Store conn.old) (state S.Store conn.new) result }
    ensures whole { IsWhole entry.now }
    ensures readable { IsReadable entry.now }
    ensures survives { Survives (state S.Store conn.old) (state S.Store conn.new) (CommitsBy insert_text (values_of entry.now)
        (state S.Store conn.old)) }
{
    call_texts();
    match entry {
        Record::Posted {
            number,
            user,
            dest,
            text,
        } => {
            is_call(user);
            is_call(dest);
            let user = user.show();
            let dest = dest.show();
            insert_posted(
                conn,
                *number,
                user.as_bytes(),
                dest.as_bytes(),
                text.as_slice(),
            )
        }
        Record::Settled { number } => insert_number(conn, b"settled", *number),
        Record::Stored {
            origin,
            number,
            user,
            text,
        } => {
            is_call(origin);
            is_call(user);
            let origin = origin.show();
            let user = user.show();
            insert_stored(
                conn,
                origin.as_bytes(),
                *number,
                user.as_bytes(),
                text.as_slice(),
            )
        }
        Record::Local { user, text } => {
            is_call(user);
            let user = user.show();
            insert_local(conn, user.as_bytes(), text.as_slice())
        }
        Record::Read { letter } => insert_number(conn, b"read", *letter),
        Record::Killed { letter } => insert_number(conn, b"killed", *letter),
    }
}

/// What holds of every call.
fn is_call(call: &Call)
    ensures { IsCallsign call.now.letters call.now.ssid }
{
    let _ = call.ssid();
}

fn insert_posted<'a, S: Alter>(
    conn: &mut Connection<S>,
    number: u64,
    user: &'a [u8],
    dest: &'a [u8],
    text: &'a [u8],
) -> Result<(), LogFailed>
    requires { number ≤ 2 ^ 62 }
    ensures ran { HasCleanDisk (state S.Store conn.new) →
        Inserted (Words (codes "posted") ∷ Null ∷ Int (pos number) ∷ Words user.now ∷ Words dest.now ∷ Octets text.now ∷ [])
        (state S.Store conn.old) (state S.Store conn.new) result }
    ensures survives { Survives (state S.Store conn.old) (state S.Store conn.new)
        (CommitsBy insert_text (Words (codes "posted") ∷ Null ∷ Int (pos number) ∷ Words user.now ∷ Words dest.now ∷ Octets text.now ∷
        []) (state S.Store conn.old)) }
{
    insert(
        conn,
        &[
            ValueRef::Text(b"posted"),
            ValueRef::Null,
            ValueRef::Int(number as i64),
            ValueRef::Text(user),
            ValueRef::Text(dest),
            ValueRef::Blob(text),
        ],
    )
}

fn insert_stored<'a, S: Alter>(
    conn: &mut Connection<S>,
    origin: &'a [u8],
    number: u64,
    user: &'a [u8],
    text: &'a [u8],
) -> Result<(), LogFailed>
    requires { number ≤ 2 ^ 62 }
    ensures ran { HasCleanDisk (state S.Store conn.new) →
        Inserted (Words (codes "stored") ∷ Words origin.now ∷ Int (pos number) ∷ Words user.now ∷ Null ∷ Octets text.now ∷ [])
        (state S.Store conn.old) (state S.Store conn.new) result }
    ensures survives { Survives (state S.Store conn.old) (state S.Store conn.new)
        (CommitsBy insert_text (Words (codes "stored") ∷ Words origin.now ∷ Int (pos number) ∷ Words user.now ∷ Null ∷ Octets text.now ∷
        []) (state S.Store conn.old)) }
{
    insert(
        conn,
        &[
            ValueRef::Text(b"stored"),
            ValueRef::Text(origin),
            ValueRef::Int(number as i64),
            ValueRef::Text(user),
            ValueRef::Null,
            ValueRef::Blob(text),
        ],
    )
}

fn insert_local<'a, S: Alter>(
    conn: &mut Connection<S>,
    user: &'a [u8],
    text: &'a [u8],
) -> Result<(), LogFailed>
    ensures ran { HasCleanDisk (state S.Store conn.new) →
        Inserted (Words (codes "local") ∷ Null ∷ Null ∷ Words user.now ∷ Null ∷ Octets text.now ∷ [])
        (state S.Store conn.old) (state S.Store conn.new) result }
    ensures survives { Survives (state S.Store conn.old) (state S.Store conn.new)
        (CommitsBy insert_text (Words (codes "local") ∷ Null ∷ Null ∷ Words user.now ∷ Null ∷ Octets text.now ∷
        []) (state S.Store conn.old)) }
{
    insert(
        conn,
        &[
            ValueRef::Text(b"local"),
            ValueRef::Null,
            ValueRef::Null,
            ValueRef::Text(user),
            ValueRef::Null,
            ValueRef::Blob(text),
        ],
    )
}

/// Writes a record of this kind that has a number alone.
fn insert_number<'a, S: Alter>(
    conn: &mut Connection<S>,
    kind: &'a [u8],
    number: u64,
) -> Result<(), LogFailed>
    requires { number ≤ 2 ^ 62 }
    ensures ran { HasCleanDisk (state S.Store conn.new) → Inserted (Words kind.now ∷ Null ∷ Int (pos number) ∷ Null ∷ Null ∷ Null ∷ [])
        (state S.Store conn.old) (state S.Store conn.new) result }
    ensures survives { Survives (state S.Store conn.old) (state S.Store conn.new)
        (CommitsBy insert_text (Words kind.now ∷ Null ∷ Int (pos number) ∷ Null ∷ Null ∷ Null ∷ []) (state S.Store conn.old)) }
{
    insert(
        conn,
        &[
            ValueRef::Text(kind),
            ValueRef::Null,
            ValueRef::Int(number as i64),
            ValueRef::Null,
            ValueRef::Null,
            ValueRef::Null,
        ],
    )
}

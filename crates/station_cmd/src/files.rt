//! Files of stations, as they are read from disk. Called by the commands.
ghost use Rattle.std.specs.Prelude.{◌≡◌, ◌≤◌, length, string_bytes, IfErr, IfOk, OnOk};
ghost use Rattle.cmd_streams.specs.Told.{SaysTo};
ghost use Rattle.station_file.specs.Files.{says, station_at};
ghost use Rattle.station_cmd.specs.Files as files;

use cmd_streams::{ReadRefusal, Reading, Status, read_file as read_whole, say};
use radio_base::Sink;
use station_file::{Refusal, StationFile, read_station, refusal_text};
use std::alloc::{AllocError, Global};
use std::fs;
use std::rt::Files;

/// The bytes of a file, at most 1,048,576. Where they aren't read, that is noted under the file's name without its folders, and the status
/// says how the program ends.
pub fn read_bytes<R: Files + AllocGlobal, N: Sink>(
    rt: &R,
    path: &str,
    notes: &mut N,
) -> Result<Vec<u8>, Status>
    ensures few { IfOk result (λ bytes. length bytes.items ≤ 1048576) }
    ensures same { OnOk result (notes.new ≡ notes.old) }
    ensures err { IfErr result (λ status. files.IsUnread path.now status (notes.new ≡ notes.old)
        (SaysTo N.Sink notes.old notes.new)) }
{
    let Ok(file) = fs::open(rt, path) else {
        return Err(note_unread(rt.alloc(), path, ReadRefusal::Fault, notes));
    };
    match read_whole(rt.alloc(), &mut Reading::new(file)) {
        Ok(bytes) => Ok(bytes),
        Err(why) => Err(note_unread(rt.alloc(), path, why, notes)),
    }
}

/// Notes why a file wasn't read.
fn note_unread<N: Sink>(alloc: Global, path: &str, why: ReadRefusal, notes: &mut N) -> Status
    ensures { files.IsUnread path.now result (notes.new ≡ notes.old) (SaysTo N.Sink notes.old notes.new) }
{
    match why {
        ReadRefusal::Fault => match unread_note(alloc, name_in(path)) {
            Ok(note) => {
                say(notes, note.as_str());
                Status::ReadFault
            }
            Err(_) => Status::NoMemory,
        },
        ReadRefusal::TooLong => match too_long_note(alloc, name_in(path)) {
            Ok(note) => {
                say(notes, note.as_str());
                Status::TooLong
            }
            Err(_) => Status::NoMemory,
        },
        ReadRefusal::NoMemory => Status::NoMemory,
    }
}

fn unread_note(alloc: Global, name: &str) -> Result<String, AllocError>
    ensures { IfOk result (λ s. string_bytes s ≡ files.unread_note name.now) }
{
    format!(in alloc; "{name}: it can't be read\n")
}

fn too_long_note(alloc: Global, name: &str) -> Result<String, AllocError>
    ensures { IfOk result (λ s. string_bytes s ≡ files.too_long_note name.now) }
{
    format!(in alloc; "{name}: too long\n")
}

/// The station of a file. Where there is none, the reason is noted under the file's name without its folders, and the status says how the
/// program ends.
pub fn read_file<R: Files + AllocGlobal, N: Sink>(
    rt: &R,
    path: &str,
    notes: &mut N,
) -> Result<StationFile, Status>
    ensures read { IfOk result (λ file. files.IsFileOf file) }
    ensures same { OnOk result (notes.new ≡ notes.old) }
    ensures err { IfErr result (λ status. files.HasNoStation path.now status (notes.new ≡ notes.old)
        (SaysTo N.Sink notes.old notes.new)) }
{
    let bytes = read_bytes(rt, path, notes)?;
    station_of(rt.alloc(), path, &bytes, notes)
}

/// The station that the bytes of a file say.
fn station_of<N: Sink>(
    alloc: Global,
    path: &str,
    bytes: &[u8],
    notes: &mut N,
) -> Result<StationFile, Status>
    ensures read { IfOk result (λ file. station_at bytes.now ≡ says file) }
    ensures same { OnOk result (notes.new ≡ notes.old) }
    ensures err { IfErr result (λ status. files.IsRefused path.now bytes.now status (notes.new ≡ notes.old)
        (SaysTo N.Sink notes.old notes.new)) }
{
    match read_station(alloc, bytes) {
        Ok(file) => Ok(file),
        Err(refusal) => Err(refuse(alloc, path, &refusal, notes)),
    }
}

/// Notes why a file is refused.
fn refuse<N: Sink>(alloc: Global, path: &str, refusal: &Refusal, notes: &mut N) -> Status
    ensures { files.IsNotedAs path.now refusal.now result (notes.new ≡ notes.old) (SaysTo N.Sink notes.old notes.new) }
{
    match refusal_text(alloc, name_in(path), refusal) {
        Ok(text) => {
            say(notes, &text);
            Status::BadFile
        }
        Err(_) => Status::NoMemory,
    }
}

/// The name of a file without its folders.
pub(crate) fn name_in(path: &str) -> &str
    ensures { result.now ≡ files.name_in path.now }
{
    match path.split_once('/') {
        Some((_, rest)) => name_in(rest),
        None => path,
    }
}

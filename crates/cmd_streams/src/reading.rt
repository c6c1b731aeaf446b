//! A file is read to its end, and a source over any reader. Called by `program`, and by `tool_cmd`, `node_cmd` and `look_cmd`.
ghost use Rattle.std.specs.Prelude.{◌≡◌, ◌++◌, List, ℕ, length, OnOk, IfOk, IfErr, None};
ghost use Rattle.std.specs.Io.KnownBytes.{Consumes, IsAtEnd};
ghost use Rattle.cmd_streams.specs.Reading.{ReadsAll, WhyUnread, WhyNoMore};

use crate::refusals::ReadRefusal;
use radio_base::{Failed, Source};
use std::alloc::Global;
use std::io::Read;

/// The most bytes that a file may have.
const MAX_FILE: usize = 1_048_576;

/// The most bytes that are read at a time.
const READ_SIZE: usize = 4096;

/// A source over any reader. It tells of the bytes still to come what the reader tells, and nothing of the sizes of its reads. An error of
/// the reader is a fault, and no end.
#[derive(Drop)]
pub struct Reading<R: Read + Drop> {
    reader: R,
    faults: u64,
}

impl<R: Read + Drop> Reading<R> {
    pub fn new(reader: R) -> Self
        ensures reader { result.reader ≡ reader }
        ensures faults { result.faults ≡ 0 }
    {
        Reading { reader, faults: 0 }
    }

    /// How many reads have failed.
    pub fn faults(&self) -> u64
        ensures { result ≡ self.now.faults }
    {
        self.faults
    }
}

impl<R: Read + Drop> Source for Reading<R> {
    ghost left = { λ s. R.remaining s.reader };

    ghost reads = { λ _. None };

    ghost faults = { λ s. s.faults };

    fn read(&mut self, buf: &mut [u8]) -> Result<usize, Failed> {
        match self.reader.read(buf) {
            Ok(count) => Ok(count),
            Err(_) => {
                self.faults = self.faults.saturating_add(1);
                Err(Failed)
            }
        }
    }
}

/// All bytes of the source. Byte 1,048,577 is too long.
pub fn read_file<S: Source>(alloc: Global, source: &mut S) -> Result<Vec<u8>, ReadRefusal>
    ensures all { IfOk result (λ v. ReadsAll (S.left source.old) (S.left source.new) v.items) }
    ensures same { OnOk result (S.faults source.new ≡ S.faults source.old) }
    ensures err { IfErr result (λ e. WhyUnread (S.left source.old) (S.left source.new)
        (S.faults source.old) (S.faults source.new) e) }
{
    let mut bytes = Vec::new(alloc);
    while bytes.len() <= MAX_FILE {
        let count = read_more(source, &mut bytes)?;
        if count == 0 {
            return Ok(bytes);
        }
    }
    Err(ReadRefusal::TooLong)
}

/// Adds the bytes of one read, and answers with how many these are: none at the end alone.
fn read_more<S: Source>(source: &mut S, bytes: &mut Vec<u8>) -> Result<usize, ReadRefusal>
    ensures more { IfOk result (λ n. (more : List ℕ) × (bytes.new.items ≡ bytes.old.items ++ more) × (length more ≡ n)
        × Consumes (S.left source.old) (S.left source.new) more) }
    ensures end { IfOk result (λ n. n ≡ 0 → IsAtEnd (S.left source.new)) }
    ensures same { OnOk result (S.faults source.new ≡ S.faults source.old) }
    ensures err { IfErr result (λ e. WhyNoMore (S.left source.old) (S.left source.new)
        (S.faults source.old) (S.faults source.new) e) }
{
    let mut buf = [0u8; READ_SIZE];
    let count = source.read(&mut buf)?;
    bytes.extend_from_slice(&buf[..count])?;
    Ok(count)
}

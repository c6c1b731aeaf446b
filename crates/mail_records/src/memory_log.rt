//! A log in memory. Called by stations that are tried without a disk, and by tests.
ghost use Rattle.std.specs.Prelude.{◌≡◌, ◌++◌, [], ◌∷◌, IfOk, OnOk, OnErr};
ghost use Rattle.std.proofs.Common.{sym, ◌∙◌};

use crate::log::Log;
use crate::log_failed::LogFailed;
use crate::record::Record;
use std::alloc::{AllocError, Global};

/// When a log in memory fails, as a disk may.
#[derive(Clone, Copy, Debug)]
pub struct Failure {
    /// How many more records it takes before.
    pub after: u64,
    /// The record at which it fails is found by an opening.
    pub is_found: bool,
}

/// A log in memory, which may be told to fail. Once it has failed it takes nothing more, until it is opened again.
#[derive(Drop)]
pub struct MemoryLog {
    alloc: Global,
    records: Vec<Record>,
    failure: Option<Failure>,
    is_shut: bool,
}

impl MemoryLog {
    ghost use Rattle.mail_records.specs.Memory.{memory_records, memory_failure, IsMemoryOpen};

    /// A log with no records, which fails where it is told to.
    pub fn new(alloc: Global, failure: Option<Failure>) -> MemoryLog
        ensures empty { memory_records result ≡ [] }
        ensures is_open { IsMemoryOpen result }
        ensures fails { memory_failure result ≡ failure }
    {
        MemoryLog {
            alloc,
            records: Vec::new(alloc),
            failure,
            is_shut: false,
        }
    }

    /// Opens it again: it has the records that are found, and fails where it is told to.
    pub fn opened_again(self, failure: Option<Failure>) -> MemoryLog
        ensures same { memory_records result ≡ memory_records self }
        ensures is_open { IsMemoryOpen result }
        ensures fails { memory_failure result ≡ failure }
    {
        MemoryLog {
            alloc: self.alloc,
            records: self.records,
            failure,
            is_shut: false,
        }
    }

    /// The records that an opening finds.
    pub fn as_slice(&self) -> &[Record]
        ensures { result.now ≡ memory_records self.now }
    {
        &self.records
    }
}

/// Puts a copy of a record behind all others.
fn add(alloc: Global, records: &mut Vec<Record>, entry: &Record) -> Result<(), AllocError>
    ensures ok { OnOk result (records.new.items ≡ records.old.items ++ entry.now ∷ []) }
    ensures err { OnErr result (records.new.items ≡ records.old.items) }
{
    let copy = entry.copy(alloc)?;
    records.push(copy)?;
    Ok(())
}

/// The same records once more.
fn copies(alloc: Global, records: &[Record]) -> Result<Vec<Record>, AllocError>
    ensures { IfOk result (λ copies. copies.items ≡ records.now) }
{
    let mut copies = Vec::new(alloc);
    for entry in records {
        add(alloc, &mut copies, entry)?;
    }
    Ok(copies)
}

impl Log for MemoryLog {
    ghost use Rattle.mail_records.specs.Memory.{HoldsInMemory, IsMemoryOpen, memory_records, memory_faults};

    ghost holds = { HoldsInMemory };

    ghost may_find = { λ log found. found ≡ memory_records log };

    ghost is_honest = { λ _. Unit {0} };

    ghost is_open = { IsMemoryOpen };

    ghost faults = { memory_faults };

    fn append(&mut self, entry: &Record) -> Result<(), LogFailed> {
        if self.is_shut {
            return Err(LogFailed::Disk);
        }
        match &mut self.failure {
            Some(Failure { after: 0, is_found }) => {
                if *is_found {
                    add(self.alloc, &mut self.records, entry)?;
                }
                self.is_shut = true;
                Err(LogFailed::Disk)
            }
            Some(Failure { after, .. }) => {
                add(self.alloc, &mut self.records, entry)?;
                *after -= 1;
                Ok(())
            }
            None => {
                add(self.alloc, &mut self.records, entry)?;
                Ok(())
            }
        }
    }

    fn records(&mut self, alloc: Global) -> Result<Vec<Record>, LogFailed> {
        Ok(copies(alloc, &self.records)?)
    }

    ghost settled = { λ log kept found held left. left ∙ sym held.records };
}

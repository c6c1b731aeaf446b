//! One of the two ways in which any call may fail for want of something outside: of a read or a write. Used by `mem_sink`, `mem_source`,
//! `sink` and `source`, and by `cmd_streams`.
use std::error::Error;
use std::fmt;

/// A read or a write failed.
#[derive(Clone, Copy, Debug, PartialEq, Eq, Hash)]
pub struct Failed;

impl fmt::Display for Failed {
    fn fmt<W: fmt::Write>(&self, f: &mut fmt::Formatter<W>) -> fmt::Result {
        f.write_str("a read or a write failed")
    }
}

impl Error for Failed {}

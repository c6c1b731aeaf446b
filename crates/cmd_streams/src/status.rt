//! How a run ends, and its exit status. Called by `items`, `program`, `refusals` and `streams`, and by `tool_cmd`, `node_cmd` and
//! `look_cmd`.
ghost use Rattle.std.specs.Prelude.{◌≡◌};
ghost use Rattle.cmd_streams.specs.Statuses.{exit_status};

/// How a command ended.
#[derive(Clone, Copy, Debug, PartialEq, Eq)]
pub enum Status {
    /// All was done and written, and nothing came back too late.
    Done,
    /// The words are no command's.
    Usage,
    /// A line of the file is bad.
    BadFile,
    /// A read failed.
    ReadFault,
    /// A write failed.
    WriteFault,
    /// The input is longer than is taken.
    TooLong,
    /// All was done and written, and a datagram or a circuit pair came back too late.
    TooLate,
    /// Memory ran out.
    NoMemory,
}

impl Status {
    /// The exit status.
    pub fn code(self) -> u8
        ensures { result ≡ exit_status self }
    {
        match self {
            Status::Done => 0,
            Status::Usage => 2,
            Status::BadFile => 3,
            Status::ReadFault => 4,
            Status::WriteFault => 5,
            Status::TooLong => 6,
            Status::TooLate => 7,
            Status::NoMemory => 8,
        }
    }
}

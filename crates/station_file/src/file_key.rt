//! The keys of a file. Used by `section`, `tables`, `fault` and all files here that read a table.
ghost use Rattle.std.specs.Prelude.{◌≡◌};
ghost use Rattle.station_file.specs.Keys as keys;

use network_file::Key;

/// A key of a station's file, in whichever table it stands.
#[derive(Clone, Copy, Debug, PartialEq, Eq)]
pub enum FileKey {
    Name,
    Info,
    Status,
    Idle,
    Deny,
    Port,
    Node,
    Mail,
    Beacon,
    Hub,
    Tnc,
    TxDelay,
    Persist,
    SlotTime,
    TxTail,
    Call,
    Alias,
    Ports,
    Users,
    Digipeat,
    First,
    T2,
    Paclen,
    /// A key of a `set` line of network files.
    Setting(Key),
    Via,
    Qualities,
    Locks,
    File,
    Every,
    From,
    To,
    Text,
}

impl FileKey {
    /// The word by which a file names the key.
    pub fn word(self) -> &'static str
        ensures { result.now ≡ keys.word_of self }
    {
        match self {
            FileKey::Name => "name",
            FileKey::Info => "info",
            FileKey::Status => "status",
            FileKey::Idle => "idle",
            FileKey::Deny => "deny",
            FileKey::Port => "port",
            FileKey::Node => "node",
            FileKey::Mail => "mail",
            FileKey::Beacon => "beacon",
            FileKey::Hub => "hub",
            FileKey::Tnc => "tnc",
            FileKey::TxDelay => "txdelay",
            FileKey::Persist => "persist",
            FileKey::SlotTime => "slottime",
            FileKey::TxTail => "txtail",
            FileKey::Call => "call",
            FileKey::Alias => "alias",
            FileKey::Ports => "ports",
            FileKey::Users => "users",
            FileKey::Digipeat => "digipeat",
            FileKey::First => "first",
            FileKey::T2 => "t2",
            FileKey::Paclen => "paclen",
            FileKey::Setting(key) => key.word(),
            FileKey::Via => "via",
            FileKey::Qualities => "qualities",
            FileKey::Locks => "locks",
            FileKey::File => "file",
            FileKey::Every => "every",
            FileKey::From => "from",
            FileKey::To => "to",
            FileKey::Text => "text",
        }
    }
}

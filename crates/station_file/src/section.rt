//! The tables of a file, and the keys that each may have. Used by `tables`, `lines`, `fault` and all files here that read a table.
ghost use Rattle.std.specs.Prelude.{◌≡◌, length};
ghost use Rattle.station_file.specs.Keys as keys;

use crate::file_key::FileKey;
use network_file::Key;

/// The table in which a key stands.
#[derive(Clone, Copy, Debug, PartialEq, Eq)]
pub enum Section {
    /// What stands before all tables.
    Station,
    /// The `[[port]]` of that number, from 1.
    Port(u8),
    /// The `[[node]]` of that number, from 1.
    Node(u8),
    /// `[mail]`.
    Mail,
    /// The `[[beacon]]` of that number, from 1.
    Beacon(u8),
}

impl Section {
    /// What stands before the name of a key of the table where it is told.
    pub fn prefix(self) -> &'static str
        ensures { result.now ≡ keys.prefix_of self }
    {
        match self {
            Section::Station => "",
            Section::Port(_) => "port.",
            Section::Node(_) => "node.",
            Section::Mail => "mail.",
            Section::Beacon(_) => "beacon.",
        }
    }

    /// The table has a key of that name.
    pub fn knows(self, word: &[u8]) -> bool
        ensures { result ≡ keys.knows self word.now }
    {
        match self {
            Section::Station => names_one(&STATION_KEYS, word),
            Section::Port(_) => names_one(&PORT_KEYS, word),
            Section::Node(_) => names_one(&NODE_KEYS, word) || is_setting(word),
            Section::Mail => names_one(&MAIL_KEYS, word),
            Section::Beacon(_) => names_one(&BEACON_KEYS, word),
        }
    }
}

const STATION_KEYS: [FileKey; 10] = [
    FileKey::Name,
    FileKey::Info,
    FileKey::Status,
    FileKey::Idle,
    FileKey::Deny,
    FileKey::Port,
    FileKey::Node,
    FileKey::Mail,
    FileKey::Beacon,
    FileKey::Hub,
];

const PORT_KEYS: [FileKey; 6] = [
    FileKey::Name,
    FileKey::Tnc,
    FileKey::TxDelay,
    FileKey::Persist,
    FileKey::SlotTime,
    FileKey::TxTail,
];

const NODE_KEYS: [FileKey; 11] = [
    FileKey::Call,
    FileKey::Alias,
    FileKey::Ports,
    FileKey::Users,
    FileKey::Digipeat,
    FileKey::First,
    FileKey::T2,
    FileKey::Paclen,
    FileKey::Via,
    FileKey::Qualities,
    FileKey::Locks,
];

const MAIL_KEYS: [FileKey; 4] = [FileKey::Call, FileKey::Alias, FileKey::File, FileKey::Every];

const BEACON_KEYS: [FileKey; 5] = [
    FileKey::Port,
    FileKey::From,
    FileKey::To,
    FileKey::Text,
    FileKey::Every,
];

const SETTING_KEYS: [Key; 18] = [
    Key::Window,
    Key::Timeout,
    Key::Retries,
    Key::Busy,
    Key::Inactive,
    Key::TimeToLive,
    Key::Life,
    Key::Least,
    Key::MinimumQuality,
    Key::PathQuality,
    Key::Links,
    Key::Modulo,
    Key::LinkWindow,
    Key::SelectiveReject,
    Key::T1,
    Key::T3,
    Key::LinkRetries,
    Key::Interval,
];

/// The keys of a `set` line that a node of a station has: all but `prompt` and `mail`, since its users are the station's.
#[tactic(auto, unfolding(crate::specs::Keys::setting_keys))]
pub fn setting_keys() -> &'static [Key]
    ensures keys { result.now ≡ keys.setting_keys }
    ensures few { length result.now ≡ 18 }
{
    &SETTING_KEYS
}

fn names_one(list: &[FileKey], word: &[u8]) -> bool
    ensures { result ≡ keys.names_one list.now word.now }
{
    list.iter().any(|key| key.word().as_bytes() == word)
}

fn is_setting(word: &[u8]) -> bool
    ensures { result ≡ keys.is_setting word.now }
{
    setting_keys()
        .iter()
        .any(|key| key.word().as_bytes() == word)
}

//! The keys of `set` lines. Used by `declaring`, `live` and `settings`, by `node_settings` and `station_file`, and by the crates of replays
//! and traces.
ghost use Rattle.std.specs.Prelude.{◌≡◌};
ghost use Rattle.network_file.specs.Keys as keys;

use crate::what::What;

/// What a `set` line may set of a node. Times are in milliseconds.
#[derive(Clone, Copy, Debug, PartialEq, Eq)]
pub enum Key {
    /// `window`: how many fragments of a circuit may be sent and not acknowledged.
    Window,
    /// `timeout`: how long an end of a circuit waits for an acknowledgement.
    Timeout,
    /// `retries`: how often an end of a circuit tries again.
    Retries,
    /// `busy`: how long an end of a circuit holds back where its partner chokes.
    Busy,
    /// `inactive`: how long an end of a circuit stands on which nothing happens.
    Inactive,
    /// `ttl`: over how many hops a datagram goes at most.
    TimeToLive,
    /// `life`: how many rounds a report lives.
    Life,
    /// `least`: how many rounds a broadcast route has left at least.
    Least,
    /// `minq`: the least quality of a usable report.
    MinimumQuality,
    /// `quality`: the quality of the path to each neighbour.
    PathQuality,
    /// `links`: 1 where datagrams go over links, 0 where they go in UI frames.
    Links,
    /// `modulo`: the modulus of the links that the node sets up, 8 or 128.
    Modulo,
    /// `lwindow`: how many I frames of a link may be sent and not acknowledged (k); 0 is 4 at modulo 8 and 32 at modulo 128.
    LinkWindow,
    /// `srej`: 1 where a link asks for single frames again.
    SelectiveReject,
    /// `t1`: how long a link waits for an acknowledgement (T1).
    T1,
    /// `t3`: how long a link stands on which nothing comes before it asks (T3).
    T3,
    /// `lretries`: how often a link tries again (N2).
    LinkRetries,
    /// `prompt`: 1 where users are served at a prompt.
    Prompt,
    /// `interval`: how long a node waits between its rounds; 0 for none of its own.
    Interval,
    /// `mail`: 1 where the node keeps mail for users, at a node without a prompt.
    Mail,
}

/// All keys.
const KEYS: [Key; 20] = [
    Key::Window,
    Key::Timeout,
    Key::Retries,
    Key::Busy,
    Key::Inactive,
    Key::TimeToLive,
    Key::Life,
    Key::Least,
    Key::MinimumQuality,
    Key::PathQuality,
    Key::Links,
    Key::Modulo,
    Key::LinkWindow,
    Key::SelectiveReject,
    Key::T1,
    Key::T3,
    Key::LinkRetries,
    Key::Prompt,
    Key::Interval,
    Key::Mail,
];

/// The word of a key, its least and its largest value, and the one where no line sets it.
#[derive(Clone, Copy)]
struct KeyRow {
    word: &'static str,
    least: u32,
    most: u32,
    default: u32,
}

impl Key {
    /// The key that the word names in files of that version: `mail` is none before version 4.
    #[tactic(auto, unfolding(crate::specs::Keys::key_at))]
    pub fn read(version: u8, word: &[u8]) -> Result<Key, What>
        ensures { result ≡ keys.key_at version word.now }
    {
        match first_of(&KEYS, word) {
            Some(key) => {
                if key.is_known(version) {
                    Ok(key)
                } else {
                    Err(What::Key)
                }
            }
            None => Err(What::Key),
        }
    }

    /// Files of that version have the key.
    fn is_known(self, version: u8) -> bool
        ensures { result ≡ keys.is_known version self }
    {
        match self {
            Key::Mail => version >= 4,
            _ => true,
        }
    }

    /// The word by which files name the key.
    pub fn word(self) -> &'static str
        ensures { result.now ≡ keys.word_of self }
    {
        self.row().word
    }

    /// The least value that the key allows.
    pub fn least(self) -> u32
        ensures { result ≡ keys.least_of self }
    {
        self.row().least
    }

    /// The largest value that the key allows.
    pub fn most(self) -> u32
        ensures { result ≡ keys.most_of self }
    {
        self.row().most
    }

    /// The value where no line sets one.
    pub fn default_value(self) -> u32
        ensures { result ≡ keys.default_of self }
    {
        self.row().default
    }

    /// A file of that version may set the key to a value in its range: before version 3 a window is at most 64, and a modulus is
    /// 8 or 128.
    pub fn takes(self, version: u8, value: u32) -> bool
        ensures { result ≡ keys.takes version self value }
    {
        match self {
            Key::Window => version >= 3 || value <= 64,
            Key::Modulo => value == 8 || value == 128,
            _ => true,
        }
    }

    fn row(self) -> KeyRow
        ensures word { result.word.now ≡ (keys.row_of self).word }
        ensures least { result.least ≡ (keys.row_of self).least }
        ensures most { result.most ≡ (keys.row_of self).most }
        ensures default { result.default ≡ (keys.row_of self).default }
    {
        match self {
            Key::Window => row("window", 1, 127, 4),
            Key::Timeout => row("timeout", 1, 86_400_000, 60_000),
            Key::Retries => row("retries", 1, 255, 3),
            Key::Busy => row("busy", 1, 86_400_000, 180_000),
            Key::Inactive => row("inactive", 1, 86_400_000, 900_000),
            Key::TimeToLive => row("ttl", 1, 255, 25),
            Key::Life => row("life", 1, 255, 6),
            Key::Least => row("least", 1, 255, 5),
            Key::MinimumQuality => row("minq", 1, 255, 1),
            Key::PathQuality => row("quality", 0, 255, 192),
            Key::Links => row("links", 0, 1, 1),
            Key::Modulo => row("modulo", 8, 128, 8),
            Key::LinkWindow => row("lwindow", 0, 127, 0),
            Key::SelectiveReject => row("srej", 0, 1, 0),
            Key::T1 => row("t1", 1, 86_400_000, 3_000),
            Key::T3 => row("t3", 1, 86_400_000, 300_000),
            Key::LinkRetries => row("lretries", 1, 255, 10),
            Key::Prompt => row("prompt", 0, 1, 0),
            Key::Interval => row("interval", 0, 86_400_000, 0),
            Key::Mail => row("mail", 0, 1, 0),
        }
    }
}

fn row(word: &'static str, least: u32, most: u32, default: u32) -> KeyRow
    ensures word { result.word.now ≡ word.now }
    ensures least { result.least ≡ least }
    ensures most { result.most ≡ most }
    ensures default { result.default ≡ default }
{
    KeyRow {
        word,
        least,
        most,
        default,
    }
}

/// The first of these keys that the word names.
fn first_of(list: &[Key], word: &[u8]) -> Option<Key>
    ensures { result ≡ keys.first_of word.now list.now }
{
    match list {
        [] => None,
        [key, others @ ..] => {
            if key.word().as_bytes() == word {
                Some(*key)
            } else {
                first_of(others, word)
            }
        }
    }
}

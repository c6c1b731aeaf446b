//! What is held of a stream between two items. Called by `deframer` and `enframing`.
ghost use Rattle.std.specs.Prelude.{◌≡◌, ◌≢◌, ◌≤◌, ◌<◌, ◌++◌, ◌∷◌, [], length, take};
ghost use Rattle.std.specs.List.{AllByRecursion};
ghost use Rattle.kiss_framing.specs.Stream.{pending_of};
ghost use Rattle.kiss_framing.specs.Stepping.{held_at, items_at, step, after_fend, after_plain, after_escape, grown, IsPlain, Leads, EndsNext, EndsAt};

use crate::{FEND, FESC, LONGEST, TFEND, TFESC};
use arrayvec::ArrayVec;
use memchr::memchr2;

/// How many bytes are searched at a time for the next `FEND` or `FESC`: one is often near, and a search of more bytes
/// takes longer to begin.
const NEAR: usize = 128;

/// Where the next byte of the stream stands.
#[derive(Clone, Copy, Debug, PartialEq, Eq)]
pub(crate) enum Place {
    /// Behind a `FEND`, or at the start. What `bytes` has was handed out, and is no longer held.
    Between,
    /// In a piece.
    Within,
    /// In a piece, behind a `FESC`.
    Escaped,
    /// In a piece that is too long, of which nothing is held.
    Skipping,
}

/// What a byte ends.
#[derive(Clone, Copy, Debug, PartialEq, Eq)]
pub(crate) enum Ends {
    Nothing,
    /// The piece: it stands whole in `bytes`.
    Piece,
    /// The room for the piece.
    Room,
}

/// The unescaped bytes of the piece that is coming.
#[derive(Drop)]
pub(crate) struct Piece {
    pub(crate) bytes: ArrayVec<u8, LONGEST>,
    pub(crate) place: Place,
    ghost fits: { length bytes.items ≤ 1024 },
}

impl Piece {
    pub(crate) fn new() -> Piece
        ensures bytes { result.bytes.items ≡ [] }
        ensures place { result.place ≡ Place.Between }
    {
        Piece {
            bytes: ArrayVec::new(),
            place: Place::Between,
        }
    }

    /// How many bytes are held.
    pub(crate) fn len(&self) -> usize
        ensures value { result ≡ pending_of (held_at self.now.place self.now.bytes.items) }
        ensures within { result ≤ 1024 }
    {
        match self.place {
            Place::Within | Place::Escaped => self.bytes.len(),
            Place::Between | Place::Skipping => 0,
        }
    }

    /// Takes in bytes of the stream up to the first that ends something, or all of them where none does.
    pub(crate) fn take_in_some(&mut self, bytes: &[u8]) -> (usize, Ends)
        ensures { EndsAt (held_at self.old.place self.old.bytes.items) bytes.now result.0 result.1
            (held_at self.new.place self.new.bytes.items) self.new.bytes.items }
    {
        let mut taken = 0;
        while taken < bytes.len() {
            let (count, ends) = self.take_in_next(&bytes[taken..]);
            taken += count;
            match ends {
                Ends::Nothing => {}
                _ => return (taken, ends),
            }
        }
        (taken, Ends::Nothing)
    }

    /// Takes in bytes that stand for themselves, and the byte behind them.
    fn take_in_next(&mut self, bytes: &[u8]) -> (usize, Ends)
        ensures ends { EndsNext (held_at self.old.place self.old.bytes.items) bytes.now result.0 result.1
            (held_at self.new.place self.new.bytes.items) self.new.bytes.items }
        ensures within { result.0 ≤ length bytes.now }
        ensures moves { 0 < length bytes.now → 0 < result.0 }
    {
        let run = self.take_in_run(bytes);
        match bytes.get(run) {
            None => (run, Ends::Nothing),
            Some(byte) => (run + 1, self.take_in(*byte)),
        }
    }

    /// Takes in bytes of the piece that stand for themselves, as many as there is room for, or drops them where it is
    /// too long.
    fn take_in_run(&mut self, bytes: &[u8]) -> usize
        ensures count { result ≤ length bytes.now }
        ensures led { Leads (held_at self.old.place self.old.bytes.items) (take result bytes.now)
            (held_at self.new.place self.new.bytes.items) }
    {
        match self.place {
            Place::Within => self.hold_run(plain_run(bytes)),
            Place::Skipping => plain_run(bytes).len(),
            Place::Between | Place::Escaped => 0,
        }
    }

    /// Holds as many of these bytes as there is room for.
    fn hold_run(&mut self, run: &[u8]) -> usize
        requires within { self.old.place ≡ Place.Within }
        requires plain { AllByRecursion IsPlain run.now }
        ensures count { result ≤ length run.now }
        ensures led { Leads (held_at self.old.place self.old.bytes.items) (take result run.now)
            (held_at self.new.place self.new.bytes.items) }
    {
        let count = run.len().min(self.bytes.remaining_capacity());
        let _ = self.bytes.try_extend_from_slice(&run[..count]);
        count
    }

    /// Takes in the next byte of the stream.
    pub(crate) fn take_in(&mut self, byte: u8) -> Ends
        ensures some { result ≢ Ends.Nothing → items_at result self.new.bytes.items ≢ [] }
        ensures stepped { (held_at self.new.place self.new.bytes.items, items_at result self.new.bytes.items)
            ≡ step (held_at self.old.place self.old.bytes.items) byte }
    {
        if byte == FEND {
            return self.end();
        }
        match self.place {
            Place::Between => {
                self.bytes.clear();
                self.take_plain(byte)
            }
            Place::Within => self.take_plain(byte),
            Place::Escaped => self.take_escaped(byte),
            Place::Skipping => Ends::Nothing,
        }
    }

    fn end(&mut self) -> Ends
        ensures some { result ≢ Ends.Nothing → items_at result self.new.bytes.items ≢ [] }
        ensures stepped { (held_at self.new.place self.new.bytes.items, items_at result self.new.bytes.items)
            ≡ after_fend (held_at self.old.place self.old.bytes.items) }
    {
        let ends = match self.place {
            Place::Within | Place::Escaped if !self.bytes.is_empty() => Ends::Piece,
            _ => Ends::Nothing,
        };
        self.place = Place::Between;
        ends
    }

    /// Takes in a byte that no `FESC` stands before.
    fn take_plain(&mut self, byte: u8) -> Ends
        ensures some { result ≢ Ends.Nothing → items_at result self.new.bytes.items ≢ [] }
        ensures stepped { (held_at self.new.place self.new.bytes.items, items_at result self.new.bytes.items)
            ≡ after_plain self.old.bytes.items byte }
    {
        if byte == FESC {
            self.place = Place::Escaped;
            Ends::Nothing
        } else {
            self.hold(byte)
        }
    }

    /// Takes in the byte behind a `FESC`.
    fn take_escaped(&mut self, byte: u8) -> Ends
        ensures some { result ≢ Ends.Nothing → items_at result self.new.bytes.items ≢ [] }
        ensures stepped { (held_at self.new.place self.new.bytes.items, items_at result self.new.bytes.items)
            ≡ after_escape self.old.bytes.items byte }
    {
        match byte {
            TFEND => self.hold(FEND),
            TFESC => self.hold(FESC),
            _ => {
                self.place = Place::Within;
                Ends::Nothing
            }
        }
    }

    /// Holds one more byte, or drops the piece where it has no room.
    fn hold(&mut self, byte: u8) -> Ends
        ensures some { result ≢ Ends.Nothing → items_at result self.new.bytes.items ≢ [] }
        ensures stepped { (held_at self.new.place self.new.bytes.items, items_at result self.new.bytes.items)
            ≡ grown (self.old.bytes.items ++ byte ∷ []) }
    {
        match self.bytes.try_push(byte) {
            Ok(()) => {
                self.place = Place::Within;
                Ends::Nothing
            }
            Err(_) => {
                self.place = Place::Skipping;
                Ends::Room
            }
        }
    }
}

/// Bytes before the first `FEND` or `FESC`. Where it stands first, no search begins.
pub(crate) fn plain_run(bytes: &[u8]) -> &[u8]
    ensures front { result.now ≡ take (length result.now) bytes.now }
    ensures within { length result.now ≤ length bytes.now }
    ensures plain { AllByRecursion IsPlain result.now }
{
    match bytes {
        [FEND | FESC, ..] => &[],
        _ => near_run(bytes),
    }
}

/// The bytes before the first `FEND` or `FESC` of those that are searched at a time.
fn near_run(bytes: &[u8]) -> &[u8]
    ensures front { result.now ≡ take (length result.now) bytes.now }
    ensures within { length result.now ≤ length bytes.now }
    ensures plain { AllByRecursion IsPlain result.now }
{
    let near = &bytes[..bytes.len().min(NEAR)];
    match memchr2(FEND, FESC, near) {
        Some(at) => &near[..at],
        None => near,
    }
}

//! A KISS stream becomes frames. Called by `node_core` and `cmd_streams`.
ghost use Rattle.std.specs.Prelude.{◌≡◌, ℕ, ◌≤◌, List, [], ◌∷◌, ◌++◌, ◌<◌, length, take, IfSome, IfNone};
ghost use Rattle.kiss_framing.specs.Stream.{items, given_by_byte, frame_of as frame_in, StandsFor, kept, pending_of};
ghost use Rattle.kiss_framing.specs.Stepping.{items_at};
ghost use Rattle.kiss_framing.specs.Feeding.{TakesIn, IsQuietBefore, IsSmall, handed_out};

use crate::item::KissItem;
use crate::piece::{Ends, Piece};
use std::marker::Model;

/// Takes the items out of a stream, by single bytes or as many as there are. However the stream is cut, they are the
/// same.
#[derive(Drop)]
pub struct Deframer {
    piece: Piece,
}

impl Model for Deframer {
    ghost use Rattle.std.specs.Prelude.{◌≡◌, ◌≤◌, length};
    ghost use Rattle.kiss_framing.specs.Stream.{HeldPiece, kept};
    ghost use Rattle.kiss_framing.specs.Stepping.{held_at};

    ghost Value = { HeldPiece };

    ghost view = { λ d. held_at d.piece.place d.piece.bytes.items };

    // Its buffer has no more than it keeps, what was handed out among it.
    ghost invariant = { λ d. length d.piece.bytes.items ≤ kept (held_at d.piece.place d.piece.bytes.items) };
}

impl Deframer {
    ghost use Rattle.std.specs.Borrow.{sem};

    /// A deframer that was fed nothing yet.
    pub fn new() -> Deframer
        ensures { StandsFor result [] }
    {
        Deframer {
            piece: Piece::new(),
        }
    }

    /// The number of unescaped bytes that are held of the piece that is coming: 0 behind a `FEND`, and in a piece that was too long.
    pub fn pending(&self) -> usize
        ensures value { result ≡ pending_of self.now }
        ensures within { result ≤ kept self.now }
    {
        self.piece.len()
    }

    /// Takes in the next byte of the stream, and hands out the item that it completes, if any.
    pub fn feed(&mut self, byte: u8) -> Option<KissItem<'_>>
        ensures* goes_on { sem 𝓛 (TakesIn self.entry (byte ∷ [])) }
        ensures adds { (stream : List ℕ) → StandsFor self.old stream
            → items (stream ++ byte ∷ []) ≡ items stream ++ handed_out result }
        ensures exact { (stream : List ℕ) → StandsFor self.old stream → handed_out result ≡ given_by_byte stream byte }
        ensures small { IfSome result IsSmall }
    {
        let ends = self.piece.take_in(byte);
        item_of(&self.piece, ends)
    }

    /// Takes in bytes of the stream up to the first that completes an item, or all of them where none does: how many
    /// it took in, and the item.
    pub fn feed_until_item(&mut self, bytes: &[u8]) -> (usize, Option<KissItem<'_>>)
        ensures* goes_on { sem 𝓛 (TakesIn self.entry (take result.0 bytes.now)) }
        ensures adds { (stream : List ℕ) → StandsFor self.old stream
            → items (stream ++ take result.0 bytes.now) ≡ items stream ++ handed_out result.1 }

        // No byte before the last gives an item, and where none gives one all are taken in.
        ensures first { (stream : List ℕ) → StandsFor self.old stream → IsQuietBefore result.0 stream bytes.now }
        ensures all { IfNone result.1 (result.0 ≡ length bytes.now) }
        ensures within { result.0 ≤ length bytes.now }
        ensures moves { 0 < length bytes.now → 0 < result.0 }
        ensures small { IfSome result.1 IsSmall }
    {
        let (count, ends) = self.piece.take_in_some(bytes);
        (count, item_of(&self.piece, ends))
    }
}

/// The item of what has ended.
fn item_of(piece: &Piece, ends: Ends) -> Option<KissItem<'_>>
    ensures item { handed_out result ≡ items_at ends piece.now.bytes.items }
    ensures small { IfSome result IsSmall }
{
    match ends {
        Ends::Nothing => None,
        Ends::Room => Some(KissItem::TooLong),
        Ends::Piece => frame_of(piece.bytes.as_slice()),
    }
}

/// The frame of these unescaped bytes: none where there are none.
fn frame_of(bytes: &[u8]) -> Option<KissItem<'_>>
    ensures frame { handed_out result ≡ frame_in bytes.now }
    ensures small { length bytes.now ≤ 1024 → IfSome result IsSmall }
{
    match bytes {
        [] => None,
        [head, payload @ ..] => Some(KissItem::Frame {
            port: *head / 16,
            command: *head % 16,
            payload,
        }),
    }
}

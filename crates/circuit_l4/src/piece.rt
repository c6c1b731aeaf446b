//! A fragment with its flag. Called by `arrivals`, `incoming` and `outgoing`.
ghost use Rattle.std.specs.Prelude.{◌≡◌, ◌≤◌, length};

use arrayvec::ArrayVec;

/// A fragment of a message.
#[derive(Drop)]
pub struct Piece {
    pub text: ArrayVec<u8, 236>,
    /// Whether the message goes on.
    pub more: bool,
}

/// A fragment of these bytes.
pub(crate) fn piece_of(bytes: &[u8], more: bool) -> Piece
    requires { length bytes.now ≤ 236 }
    ensures { result ≡ record { text = record { items = bytes.now }; more = more } }
{
    let mut text = ArrayVec::new();
    let _ = text.try_extend_from_slice(bytes);
    Piece { text, more }
}

/// A fragment of the same bytes.
pub(crate) fn copy_of(piece: &Piece) -> Piece
    ensures same { result ≡ piece.now }
    ensures small { length result.text.items ≤ 236 }
{
    piece_of(piece.text.as_slice(), piece.more)
}

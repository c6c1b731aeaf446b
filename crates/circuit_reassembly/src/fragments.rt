//! Messages are cut into fragments. Called by `circuit_l4`.
ghost use Rattle.std.specs.Prelude.{◌≡◌, ◌<◌, ◌≤◌, ℕ, List, length, slice_get, IfSome, MatchOption, Some, None};
ghost use Rattle.circuit_reassembly.specs.Fragments.{fragments_of, fragment_at, fragments_in};

use crate::FRAGMENT;

/// The `nth` fragment of the message, counted from 0, and whether more follow; `None` where it has no more.
pub fn fragment(message: &[u8], nth: usize) -> Option<(&[u8], bool)>
    ensures exact { MatchOption result (slice_get (fragments_of message.now) nth ≡ None)
        (λ x. slice_get (fragments_of message.now) nth ≡ Some (x.0.now, x.1)) }
    ensures most { IfSome result (λ x. length x.0.now ≤ 236) }
{
    if nth < fragment_count(message.len()) {
        Some(piece_at(message, nth))
    } else {
        None
    }
}

/// How many fragments a message of `len` bytes has.
pub fn fragment_count(len: usize) -> usize
    ensures value { result ≡ fragments_in len }
    ensures counted { (message : List ℕ) → length message ≡ len → result ≡ length (fragments_of message) }
{
    len.div_ceil(FRAGMENT)
}

fn piece_at(message: &[u8], nth: usize) -> (&[u8], bool)
    requires { nth < fragments_in (length message.now) }
    ensures exact { (result.0.now, result.1) ≡ fragment_at message.now nth }
    ensures most { length result.0.now ≤ 236 }
{
    let rest = &message[nth * FRAGMENT..];
    (&rest[..FRAGMENT.min(rest.len())], rest.len() > FRAGMENT)
}

//! A text that is sent, as a script lends it. Made by `line`; used by `act` and `turn`.
ghost use Rattle.std.specs.Prelude.{◌≡◌, ◌≤◌, length};

use radio_base::{Payload, TEXT_PID};
use std::marker::Model;

/// A payload of no layer 3, as a script lends its text.
#[derive(Debug, Drop)]
pub struct SentText<'a> {
    text: &'a [u8],
}

impl<'a> Model for SentText<'a> {
    ghost use Rattle.std.specs.Prelude.{◌≤◌, length};
    ghost use Rattle.radio_base.specs.declared.payload.Payload.{Payload};

    ghost Value = { Payload };

    ghost view = { λ t. record { pid = 240; info = record { items = t.text.now } } };

    ghost invariant = { λ t. length t.text.now ≤ 256 };
}

impl<'a> SentText<'a> {
    ghost use Rattle.std.specs.Prelude.{◌≡◌, ◌≤◌, length};

    /// The text of at most 256 bytes as a payload.
    pub(crate) fn new(text: &'a [u8]) -> SentText<'a>
        requires { length text.now ≤ 256 }
        ensures { result ≡ record { pid = 240; info = record { items = text.now } } }
    {
        SentText { text }
    }

    /// The payload, with a copy of the text.
    pub fn payload(&self) -> Payload
        ensures { result ≡ self.now }
    {
        Payload::of(TEXT_PID, self.text)
    }
}

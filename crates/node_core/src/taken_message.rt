//! A message that was taken from an end. Called by `acting`, `acts` and `hosting`.
ghost use Rattle.std.specs.Prelude.{◌≡◌};

use radio_base::NoMemory;
use std::alloc::Global;
use std::marker::Model;

/// A message that was taken from an end.
#[derive(Debug, Drop)]
pub struct TakenMessage {
    bytes: Vec<u8>,
}

impl Model for TakenMessage {
    ghost use Rattle.std.specs.Prelude.{ℕ, List};

    ghost Value = { List ℕ };

    ghost view = { λ m. m.bytes.items };
}

impl TakenMessage {
    ghost use Rattle.std.specs.Prelude.{◌≡◌, IfOk};

    /// A message of these bytes.
    pub(crate) fn new(alloc: Global, bytes: &[u8]) -> Result<TakenMessage, NoMemory>
        ensures { IfOk result (λ message. message ≡ bytes.now) }
    {
        Ok(TakenMessage {
            bytes: bytes.to_vec(alloc)?,
        })
    }

    /// Its bytes.
    pub fn as_slice(&self) -> &[u8]
        ensures { result.now ≡ self.now }
    {
        &self.bytes
    }

    /// Its bytes, without a copy.
    pub fn into_vec(self) -> Vec<u8>
        ensures { result.items ≡ self }
    {
        self.bytes
    }
}

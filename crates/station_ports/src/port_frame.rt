//! A frame that goes on a port. Called by `held_back` and `readdressed`.
ghost use Rattle.std.specs.Prelude.{◌≡◌, IfOk};

use radio_base::NoMemory;
use std::alloc::Global;
use std::marker::Model;

/// The octets of a frame.
#[derive(Debug, Drop)]
pub struct FrameOctets {
    octets: Vec<u8>,
}

impl Model for FrameOctets {
    ghost use Rattle.std.specs.Prelude.{ℕ, List};

    ghost Value = { List ℕ };

    ghost view = { λ f. f.octets.items };
}

impl FrameOctets {
    /// The same octets.
    pub fn from_slice(alloc: Global, octets: &[u8]) -> Result<FrameOctets, NoMemory>
        ensures { IfOk result (λ frame. frame ≡ octets.now) }
    {
        Ok(FrameOctets {
            octets: octets.to_vec(alloc)?,
        })
    }

    /// These octets.
    pub(crate) fn from_vec(octets: Vec<u8>) -> FrameOctets
        ensures { result ≡ octets.items }
    {
        FrameOctets { octets }
    }

    /// The octets.
    pub fn as_slice(&self) -> &[u8]
        ensures { result.now ≡ self.now }
    {
        &self.octets
    }
}

/// A frame that goes on a port.
#[derive(Debug, Drop)]
pub struct PortFrame {
    /// From 0.
    pub port: u8,
    pub octets: FrameOctets,
    /// Whether its sequence numbers count modulo 128, for who shows it.
    pub is_extended: bool,
}

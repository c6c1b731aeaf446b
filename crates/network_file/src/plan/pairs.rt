//! The pair that a node gives first after a restart. Called by `instructions`, `live` and `nodes`, and by the replay and `node_cmd`.
use std::marker::Model;

/// The index and the identifier of a pair, each from 1 to 255.
#[derive(Clone, Copy, Debug, PartialEq, Eq)]
pub struct FirstPair {
    index: u8,
    ident: u8,
}

impl Model for FirstPair {
    ghost use Rattle.std.specs.Prelude.{◌≤◌};
    ghost use Rattle.network_file.specs.Pairs.{PairNumbers};

    ghost Value = { PairNumbers };

    ghost view = { λ p. record { index = p.index; ident = p.ident } };

    ghost invariant = { λ p. (1 ≤ p.index) × (1 ≤ p.ident) };

    ghost inverse = { λ d. record { index = d.index; ident = d.ident } };
}

impl FirstPair {
    ghost use Rattle.std.specs.Prelude.{◌≡◌, ◌≤◌};

    pub(crate) fn new(index: u8, ident: u8) -> FirstPair
        requires index { 1 ≤ index }
        requires ident { 1 ≤ ident }
        ensures { result ≡ record { index = index; ident = ident } }
    {
        FirstPair { index, ident }
    }

    /// From 1 to 255.
    pub fn index(&self) -> u8
        ensures value { result ≡ self.now.index }
        ensures least { 1 ≤ result }
    {
        self.index
    }

    /// From 1 to 255.
    pub fn ident(&self) -> u8
        ensures value { result ≡ self.now.ident }
        ensures least { 1 ≤ result }
    {
        self.ident
    }
}

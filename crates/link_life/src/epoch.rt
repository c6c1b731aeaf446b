//! What an end went through between two resets. Called by `book` and `epoch_lines`.
ghost use Rattle.std.specs.Prelude.{◌≡◌};
ghost use Rattle.link_life.specs.Standing as standing;

use ax_link::LinkFacts;

/// What an end went through from its opening or a reset to its next reset or until it went Down.
#[derive(Clone, Copy)]
pub struct Epoch {
    /// How many payloads it was given.
    pub given: u64,
    /// How many it got.
    pub got: u64,
    /// How many of its own it counts as acknowledged.
    pub acked: u64,
    /// The epoch of the other end that sent the first frame of account which it took.
    pub partner: Option<u64>,
}

/// An epoch that isn't over: its counts are those of the link.
#[derive(Clone, Copy)]
pub struct Lasting {
    pub partner: Option<u64>,
}

/// An epoch by the counts of its link.
pub fn epoch_of(facts: &LinkFacts, lasting: Lasting) -> Epoch
    ensures { result ≡ standing.epoch_kept facts.now lasting }
{
    Epoch {
        given: facts.acked.saturating_add(facts.held as u64),
        got: facts.got,
        acked: facts.acked,
        partner: lasting.partner,
    }
}

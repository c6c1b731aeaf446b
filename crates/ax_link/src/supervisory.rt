//! What an RR, RNR or REJ says (AX.25 2.2, section 4.3.2). Called by `arrivals`.
ghost use Rattle.std.specs.Prelude.{◌≡◌, ◌&&◌, not};

/// An RR, RNR or REJ, but for its N(R).
#[derive(Clone, Copy)]
pub(crate) struct Supervisory {
    /// Whether it is a command; else it is a response.
    pub(crate) command: bool,
    /// The other station is busy: an RNR.
    pub(crate) busy: bool,
    /// All that isn't acknowledged is asked for: a REJ.
    pub(crate) reject: bool,
    pub(crate) pf: bool,
}

impl Supervisory {
    /// A command with the poll bit asks for an answer.
    pub(crate) fn polls(self) -> bool
        ensures { result ≡ (self.command && self.pf) }
    {
        self.command && self.pf
    }

    /// A response with the final bit is the answer to a poll.
    pub(crate) fn is_final(self) -> bool
        ensures { result ≡ (not self.command && self.pf) }
    {
        !self.command && self.pf
    }
}

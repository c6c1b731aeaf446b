//! What a session notes of its far side. Called by the crates that run a station.
ghost use Rattle.std.specs.Prelude.{◌≡◌, ◌≤◌, OnOk, length};
ghost use Rattle.station_sessions.specs.Noting as noting;

use crate::{Session, Stage};
use radio_base::NoMemory;

impl Session {
    /// The far side was closed from here.
    pub fn note_closed(&mut self)
        ensures { self.new ≡ noting.closed self.old }
    {
        match &mut self.stage {
            Stage::AtPrompt => {}
            Stage::Trying(far) => far.closed = true,
            Stage::With(far) => far.closed = true,
        }
    }

    /// The far side that stands has ended; it has failed, if that is so.
    pub fn note_ended(&mut self, failed: bool)
        ensures { self.new ≡ noting.ended failed self.old }
    {
        match &mut self.stage {
            Stage::AtPrompt | Stage::Trying(_) => {}
            Stage::With(far) => far.failed = far.failed || failed,
        }
    }

    /// The link that stands has ended: it has failed, if that is so, and where something of it waited.
    pub fn note_lost(&mut self, failed: bool)
        ensures { self.new ≡ noting.lost failed self.old }
    {
        match &mut self.stage {
            Stage::AtPrompt | Stage::Trying(_) => {}
            Stage::With(far) => far.failed = failed || far.waited,
        }
    }

    /// Before the next input comes: whether a text from the far side waits, where a piece to it doesn't.
    pub fn note_waits(&mut self, text: bool)
        ensures { self.new ≡ noting.waits text self.old }
    {
        match &mut self.stage {
            Stage::AtPrompt => {}
            Stage::Trying(far) => far.waited = text || !far.unsent.is_empty(),
            Stage::With(far) => far.waited = text || !far.unsent.is_empty(),
        }
    }

    /// What is left of a text waits for room at the far side.
    pub fn far_waits_with(&mut self, text: &[u8]) -> Result<(), NoMemory>
        ensures { OnOk result (self.new ≡ noting.far_waits_with text.now self.old) }
    {
        match &mut self.stage {
            Stage::AtPrompt => Ok(()),
            Stage::Trying(far) => far.unsent.set(text),
            Stage::With(far) => far.unsent.set(text),
        }
    }

    /// So many bytes of that have gone.
    pub fn far_went(&mut self, count: usize)
        requires { noting.MayGo count self.old.stage }
        ensures { self.new ≡ noting.far_went count self.old }
    {
        match &mut self.stage {
            Stage::AtPrompt => {}
            Stage::Trying(far) => far.unsent.went(count),
            Stage::With(far) => far.unsent.went(count),
        }
    }
}

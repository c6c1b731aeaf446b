//! A station on a stream, as who takes it in. Called by `runs`.
use radio_base::{Moment, NoMemory, TextOut};
use station_live::LiveStation;
use station_streams::Teller;

/// A station that lives on the reads of a stream.
#[derive(Drop)]
pub(crate) struct Living {
    pub(crate) live: LiveStation,
}

impl Teller for Living {
    ghost use Rattle.std.specs.Prelude.{false};
    ghost use Rattle.station_run.specs.Living.{LivesThrough, LivesToEnd};

    ghost took = { LivesThrough };

    ghost ended = { LivesToEnd };

    ghost over = { λ _. false };

    fn take(
        &mut self,
        bytes: &[u8],
        now: Moment,
        answer: &mut TextOut,
        told: &mut TextOut,
    ) -> Result<(), NoMemory> {
        self.live.take(bytes, now, answer, told)?;
        Ok(())
    }

    fn is_over(&self) -> bool {
        false
    }

    fn end(&mut self, _answer: &mut TextOut, _told: &mut TextOut) -> Result<(), NoMemory> {
        Ok(())
    }
}

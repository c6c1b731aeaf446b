//! A carrier in memory. Called by tests, and by what `bench/` drives.
ghost use Rattle.std.specs.Prelude.{◌≡◌, ◌<◌, [], ◌∷◌, slice_get, IfOk, OnOk, OnErr, refl};
ghost use Rattle.l3_datagram.specs.PlainCarriers.{Plain, Made, brought, fetched, lost_of, offer_answer};
ghost use Rattle.l3_datagram.specs.Datagrams.{Offer};
ghost use Rattle.l3_datagram.specs.PlainRuns.{more_made};

use crate::datagram::copy_of;
use crate::{Carrier, Datagram, Offered};
use ax_address::Call;
use radio_base::{Moment, NoMemory};
use std::alloc::Global;
use std::collections::VecDeque;
use std::marker::Model;

/// How many datagrams a `PlainCarrier` holds until they are fetched (this project's profile).
pub const MAX_OFFERED: usize = 1024;

/// A carrier in memory: what is offered to it waits until it is fetched, and what is brought to it comes up. It loses no
/// neighbour.
#[derive(Drop)]
pub struct PlainCarrier {
    waiting: VecDeque<(Call, Datagram)>,
    offered: VecDeque<(Call, Datagram)>,
}

impl Model for PlainCarrier {
    ghost use Rattle.l3_datagram.specs.PlainCarriers.{Plain};

    ghost Value = { Plain };

    ghost view = { λ c. record { waiting = c.waiting.items; offered = c.offered.items } };
}

impl PlainCarrier {
    /// A carrier in which nothing waits.
    pub fn new(alloc: Global) -> PlainCarrier
        ensures { result ≡ record { waiting = []; offered = [] } }
    {
        PlainCarrier {
            waiting: VecDeque::new(alloc),
            offered: VecDeque::new(alloc),
        }
    }

    /// A datagram came from a neighbour.
    pub fn bring(&mut self, from: &Call, datagram: &Datagram) -> Result<(), NoMemory>
        ensures ok { OnOk result (self.new ≡ brought self.old from.now datagram.now) }
        ensures err { OnErr result (self.new ≡ self.old) }
    {
        self.waiting.push_back((*from, copy_of(datagram)))?;
        Ok(())
    }

    /// The first datagram that was offered and not yet fetched, with the neighbour to which it goes.
    pub fn fetch(&mut self) -> Option<(Call, Datagram)>
        ensures answer { result ≡ slice_get self.old.offered 0 }
        ensures rest { self.new ≡ fetched self.old }
    {
        self.offered.pop_front()
    }
}

impl Carrier for PlainCarrier {
    ghost waiting = { λ c. c.waiting };

    ghost lost = { lost_of };

    ghost made = { Made };

    fn offer(&mut self, to: &Call, datagram: &Datagram, now: Moment) -> Result<Offered, NoMemory>
        ensures answer { IfOk result (λ answer. answer ≡ offer_answer self.old) }
        ensures err { OnErr result (self.new ≡ self.old) }

        // What each carrier says.
        ensures made { IfOk result (λ answer. Made self.old (Offer to.now datagram.now now.0 answer ∷ []) self.new) }
        ensures waiting { self.new.waiting ≡ self.old.waiting }
        ensures lost { lost_of self.new ≡ lost_of self.old }
    {
        if self.offered.len() >= MAX_OFFERED {
            return Ok(Offered::Dropped);
        }
        self.offered.push_back((*to, copy_of(datagram)))?;
        Ok(Offered::Taken)
    }

    fn collect(&mut self) -> Option<(Call, Datagram)> {
        self.waiting.pop_front()
    }

    fn failed(&mut self) -> Option<Call> {
        None
    }

    fn is_idle(&self) -> bool {
        self.waiting.is_empty()
    }

    ghost none_made = { λ _. refl };

    ghost more_made = { more_made };
}

//! The mails that are queued are offered at the ends of an agent. Called by `mailing`.
ghost use Rattle.std.specs.Prelude.{◌≡◌, ◌&&◌, ◌+◌, ◌∷◌, ℕ, List, IfOk, IfErr, nat_lt};
ghost use Rattle.ax_address.specs.Callsign.{same_call};
ghost use Rattle.net_world.specs.Agents as agents;
ghost use Rattle.net_model.specs.Mailing as mailing;
ghost use Rattle.net_world.specs.Running.{Runs, Stops, course};

use crate::world::World;
use ax_address::Call;
use net_model::{Event, LineAt, Offer, ReplayRefusal, queued_at, queued_count, wire_at};

impl World<'_> {
    /// Offers what is queued at the ends of the node at a place, by number.
    pub(crate) fn offer_at_ends(&mut self, here: LineAt) -> Result<(), ReplayRefusal>
        ensures { Runs (course self.old) (course self.new) (mailing.offer_part here.line here.node here.at) result }
    {
        let ids = self.held_ids(here.at)?;
        for id in ids.as_slice() {
            self.offer_all(here, *id)?;
        }
        Ok(())
    }

    /// Offers the mails that are queued for the node of an end's partner, by number, up to the first refused write. Only an end
    /// that the node requested and that is up is offered any, and each mail once.
    fn offer_all(&mut self, here: LineAt, id: u64) -> Result<(), ReplayRefusal>
        ensures { Runs (course self.old) (course self.new) (mailing.offer_all here.line here.node here.at id) result }
    {
        match self.dest_of(here.at, id) {
            Some(dest) => {
                let last = self.ends.offered(here.node, id);
                self.offer_above(here, id, &dest, last)
            }
            None => Ok(()),
        }
    }

    /// Offers the mails that are queued for the node `dest` and have numbers above `last` at an end, up to the first refused write.
    fn offer_above(
        &mut self,
        here: LineAt,
        id: u64,
        dest: &Call,
        last: u64,
    ) -> Result<(), ReplayRefusal>
        ensures { Runs (course self.old) (course self.new)
            (agents.offer_from here.line here.node here.at id dest.now last 0) result }
    {
        let count = queued_count(&self.members, here.at);
        for nth in 0..count {
            let is_refused = self.offer_nth(here, id, dest, last, nth)?;
            if is_refused {
                return Ok(());
            }
        }
        Ok(())
    }

    /// Offers the nth queued mail at an end, where it is for the node `dest` and has a number above `last`. It answers whether the
    /// write was refused.
    fn offer_nth(
        &mut self,
        here: LineAt,
        id: u64,
        dest: &Call,
        last: u64,
        nth: usize,
    ) -> Result<bool, ReplayRefusal>
        ensures ok { IfOk result (λ refused. agents.Offers (course self.old) (course self.new)
            (agents.offer_from here.line here.node here.at id dest.now last nth)
            (agents.offer_from here.line here.node here.at id dest.now last (nth + 1)) refused) }
        ensures err { IfErr result (λ e. Stops (course self.old) e
            (agents.offer_from here.line here.node here.at id dest.now last nth)) }
    {
        match queued_at(&self.members, here.at, nth) {
            Some((number, to)) => {
                if is_due(number, &to, dest, last) {
                    self.offer(here, id, number)
                } else {
                    Ok(false)
                }
            }
            None => Ok(false),
        }
    }

    /// Offers the queued mail of that number at an end. It answers whether the write was refused.
    fn offer(&mut self, here: LineAt, id: u64, number: u64) -> Result<bool, ReplayRefusal>
        ensures ok { IfOk result (λ refused. (numbers : List ℕ)
            → agents.Offers (course self.old) (course self.new)
            (mailing.offer here.line here.node here.at id (number ∷ numbers))
            (mailing.offer here.line here.node here.at id numbers) refused) }
        ensures err { IfErr result (λ e. (numbers : List ℕ)
            → Stops (course self.old) e (mailing.offer here.line here.node here.at id (number ∷ numbers))) }
    {
        let message = wire_at(&self.members, here.at, number);
        let is_written = self.write_if_taken(here, id, message.as_slice())?;
        if !is_written {
            return Ok(true);
        }
        let offer = Box::new(self.alloc, Offer { id, number })?;
        let node = here.node;
        self.tell(here.line, Event::Offered { node, offer })?;
        Ok(false)
    }
}

/// Whether a queued mail is for the node `dest`, and has a number above `last`.
fn is_due(number: u64, to: &Call, dest: &Call, last: u64) -> bool
    ensures { result ≡ (same_call to.now dest.now && nat_lt last number) }
{
    *to == *dest && number > last
}

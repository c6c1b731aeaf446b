//! What is kept of an end beside its link. Called by `end`, `settle` and `turn`.
ghost use Rattle.std.specs.Prelude.{◌≡◌, ◌++◌, [], None, Some, OnOk};
ghost use Rattle.link_life.specs.Ends as ends;
ghost use Rattle.link_life.specs.Standing as standing;

use crate::epoch::{Epoch, Lasting, epoch_of};
use crate::flight::Flight;
use ax_frame::Control;
use ax_link::{LinkFacts, LinkNotice};
use radio_base::NoMemory;
use std::alloc::Global;
use std::collections::VecDeque;

/// What is kept of an end beside its link.
#[derive(Drop)]
pub struct Book {
    /// The epochs that are over, in their order.
    pub over: Vec<Epoch>,
    /// The epoch that lasts, if there is one.
    pub lasting: Option<Lasting>,
    /// When the link went Down last.
    pub down_since: Option<u64>,
    /// What is under way to the end, the oldest first.
    pub coming: VecDeque<Flight>,
}

impl Book {
    ghost use Rattle.std.specs.Prelude.{◌≡◌, ◌++◌, [], OnOk, None};
    ghost use Rattle.link_life.specs.Standing as standing;

    pub fn new(alloc: Global) -> Book
        ensures over { result.over.items ≡ [] }
        ensures lasting { result.lasting ≡ None }
        ensures down { result.down_since ≡ None }
        ensures coming { result.coming.items ≡ [] }
    {
        Book {
            over: Vec::new(alloc),
            lasting: None,
            down_since: None,
            coming: VecDeque::new(alloc),
        }
    }

    /// The number of the epoch that lasts: 0 where none does.
    pub fn number(&self) -> u64
        ensures { result ≡ standing.number_kept self.now }
    {
        match self.lasting {
            Some(_) => self.over.len() as u64 + 1,
            None => 0,
        }
    }

    /// The epoch that lasts is over, if there is one.
    pub fn end_epoch(&mut self, facts: &LinkFacts) -> Result<(), NoMemory>
        ensures over { OnOk result (self.new.over.items
            ≡ self.old.over.items ++ standing.over_kept facts.now self.old.lasting) }
        ensures lasting { OnOk result (self.new.lasting ≡ None) }
        ensures down { OnOk result (self.new.down_since ≡ self.old.down_since) }
        ensures coming { OnOk result (self.new.coming.items ≡ self.old.coming.items) }
    {
        if let Some(lasting) = self.lasting {
            self.over.push(epoch_of(facts, lasting))?;
            self.lasting = None;
        }
        Ok(())
    }

    /// What a notice means for the epochs. These were the facts of the link before the call that gave it.
    pub fn heed(&mut self, notice: LinkNotice, before: &LinkFacts) -> Result<(), NoMemory>
        ensures over { OnOk result (self.new.over.items ≡ standing.over_after (Some notice) before.now self.old) }
        ensures lasting { OnOk result (self.new.lasting ≡ standing.lasting_after (Some notice) self.old.lasting) }
        ensures down { OnOk result (self.new.down_since ≡ self.old.down_since) }
        ensures coming { OnOk result (self.new.coming.items ≡ self.old.coming.items) }
    {
        if begins(notice) {
            self.end_epoch(before)?;
            self.lasting = Some(Lasting { partner: None });
        }
        Ok(())
    }

    /// A frame of account comes to the end while it is Up. The first that an epoch takes is from its partner.
    pub fn hear(&mut self, epoch: u64)
        ensures over { self.new.over.items ≡ self.old.over.items }
        ensures lasting { self.new.lasting ≡ standing.lasting_with epoch self.old.lasting }
        ensures down { self.new.down_since ≡ self.old.down_since }
        ensures coming { self.new.coming.items ≡ self.old.coming.items }
    {
        if let Some(lasting) = self.lasting {
            if lasting.partner.is_none() {
                self.lasting = Some(Lasting {
                    partner: Some(epoch),
                });
            }
        }
    }
}

/// Whether an epoch begins with this notice.
fn begins(notice: LinkNotice) -> bool
    ensures { result ≡ ends.begins notice }
{
    matches!(notice, LinkNotice::Opened | LinkNotice::Reset)
}

/// Whether a frame has numbers.
pub fn is_of_account(control: &Control) -> bool
    ensures { result ≡ standing.account_at control.now }
{
    matches!(
        control,
        Control::I { .. }
            | Control::Rr { .. }
            | Control::Rnr { .. }
            | Control::Rej { .. }
            | Control::Srej { .. }
    )
}

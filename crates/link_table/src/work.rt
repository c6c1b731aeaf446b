//! What comes of a step of a link: its frames are put out, its notices are told, and what it brought is taken.
//! Called by `entry`, `held_links`, `sends` and `texts`.
ghost use Rattle.std.specs.Prelude.{◌≡◌, ◌≤◌, ◌++◌, ◌∷◌, [], ℕ, List, None, Some, map, OnOk, slice_get, is_some, length};
ghost use Rattle.radio_base.specs.declared.payload.Payload.{Payload};
ghost use Rattle.std.specs.Option.{option_to_list};
ghost use Rattle.ax_link.specs.Standing.{IsDrained};
ghost use Rattle.ax_segment.specs.Joining.{join_step, IsWithin};
ghost use Rattle.link_table.specs.Standing.{HandsUp};
ghost use Rattle.link_table.specs.Works as works;

use crate::entry::LinkEntry;
use crate::pending::{Pending, Waiting};
use ax_address::Call;
use ax_link::LinkNotice;
use ax_segment::Joiner;
use l3_datagram::Datagram;
use radio_base::{Moment, NETROM_PID, NoMemory, Payload, SEGMENT_PID};

/// More payloads than an inbox and the places for early ones hold.
const MOST_TAKEN: usize = 192;

impl LinkEntry {
    ghost use Rattle.link_table.specs.Standing.{EntryGoes, Lifted, held_of, size_of};

    /// What comes of a step of the link.
    pub(crate) fn lift(&mut self, pending: &mut Pending) -> Result<(), NoMemory>
        ensures { OnOk result (Lifted self.old self.new pending.old pending.new) }
    {
        self.link.emit(&self.route, &mut pending.frames)?;
        self.tell(pending)?;
        Ok(())
    }

    /// Tells the notice of the link. A Reset empties the joiner.
    fn tell(&mut self, pending: &mut Pending) -> Result<(), NoMemory>
        ensures route { OnOk result (self.new.route ≡ self.old.route) }
        ensures size { OnOk result (size_of self.new.link ≡ size_of self.old.link) }
        ensures link { OnOk result (held_of self.new.link ≡ record (held_of self.old.link) { notice = None }) }
        ensures joiner { OnOk result (self.new.joiner
            ≡ works.joiner_after (option_to_list (held_of self.old.link).notice) self.old.joiner) }
        ensures called { OnOk result (self.new.called ≡ self.old.called) }
        ensures waiting { OnOk result (pending.new.waiting.items ≡ pending.old.waiting.items) }
        ensures lost { OnOk result (pending.new.lost.items
            ≡ pending.old.lost.items
            ++ works.lost_by self.old.route.peer (option_to_list (held_of self.old.link).notice)) }
        ensures notices { OnOk result (pending.new.notices.items
            ≡ pending.old.notices.items
            ++ map (λ n. (self.old.route.peer, n)) (option_to_list (held_of self.old.link).notice)) }
        ensures frames { OnOk result (pending.new.frames.items ≡ pending.old.frames.items) }
    {
        if let Some(notice) = self.link.notice() {
            if matches!(notice, LinkNotice::Reset) {
                self.joiner.clear();
            }
            note(notice, &self.route.peer, pending)?;
        }
        Ok(())
    }

    /// Takes the oldest payload. It is handed up from where it stands, so that it isn't moved before.
    fn take_one(&mut self, pending: &mut Pending, now: Moment) -> Result<(), NoMemory>
        requires drained { IsDrained (held_of self.old.link) }
        ensures drained { OnOk result (IsDrained (held_of self.new.link)) }
        ensures goes { (p : Payload) → slice_get (held_of self.old.link).inbox 0 ≡ Some p →
            OnOk result (EntryGoes (works.take_payload self.old.route.own now.0 p)
            self.old self.new pending.old pending.new) }
    {
        match self.link.first() {
            None => Ok(()),
            Some(payload) => {
                hand_up(payload, &self.route.peer, &mut self.joiner, pending)?;
                let _ = self.link.take(now);
                self.lift(pending)?;
                Ok(())
            }
        }
    }

    /// Whether a payload may be taken at once: one waits, and the oldest is no text.
    fn goes_up(&self) -> bool
        ensures { result ≡ is_some (works.unless_text self.now.joiner (slice_get (held_of self.now.link).inbox 0)) }
    {
        match self.link.first() {
            Some(payload) => {
                if self.is_text(payload) {
                    return false;
                }
                true
            }
            None => false,
        }
    }

    /// Takes payload by payload, as long as one is there that is no text.
    pub(crate) fn settle(&mut self, pending: &mut Pending, now: Moment) -> Result<(), NoMemory>
        requires drained { IsDrained (held_of self.old.link) }
        ensures drained { OnOk result (IsDrained (held_of self.new.link)) }
        ensures goes { OnOk result (EntryGoes
            (works.settle works.most_taken self.old.route.own now.0) self.old self.new pending.old pending.new) }
    {
        for turn in 0..MOST_TAKEN {
            if !self.goes_up() {
                return Ok(());
            }
            self.take_one(pending, now)?;
        }
        Ok(())
    }
}

/// Notes what has become of the link with a peer. Where it has failed or was refused, the peer is lost.
pub(crate) fn note(notice: LinkNotice, peer: &Call, pending: &mut Pending) -> Result<(), NoMemory>
    ensures waiting { OnOk result (pending.new.waiting.items ≡ pending.old.waiting.items) }
    ensures lost { OnOk result (pending.new.lost.items
        ≡ pending.old.lost.items ++ works.lost_by peer.now (notice ∷ [])) }
    ensures notices { OnOk result (pending.new.notices.items ≡ pending.old.notices.items ++ (peer.now, notice) ∷ []) }
    ensures frames { OnOk result (pending.new.frames.items ≡ pending.old.frames.items) }
{
    if matches!(notice, LinkNotice::Failed | LinkNotice::Refused) {
        pending.lost.push_back(*peer)?;
    }
    pending.notices.push_back((*peer, notice))?;
    Ok(())
}

/// A payload of the link with a peer: a datagram comes up, a segment goes to the joiner, and all else is dropped.
fn hand_up(
    payload: &Payload,
    peer: &Call,
    joiner: &mut Joiner,
    pending: &mut Pending,
) -> Result<(), NoMemory>
    ensures { OnOk result (HandsUp payload.now peer.now joiner.old joiner.new pending.old pending.new) }
{
    if payload.pid == NETROM_PID {
        bring(peer, payload.info.as_slice(), &mut pending.waiting)?;
    } else if payload.pid == SEGMENT_PID {
        join(joiner, payload.info.as_slice())?;
    }
    Ok(())
}

/// A datagram of these octets has come from a peer. They are put where they stand, so that they are copied once.
pub(crate) fn bring(peer: &Call, octets: &[u8], waiting: &mut Waiting) -> Result<(), NoMemory>
    requires { length octets.now ≤ 256 }
    ensures { OnOk result (waiting.new.items ≡ waiting.old.items ++ (peer.now, record { items = octets.now }) ∷ []) }
{
    let mut came = (*peer, Datagram::new());
    let _ = came.1.try_extend_from_slice(octets);
    waiting.push_back(came)?;
    Ok(())
}

/// Hands a segment to the joiner.
fn join(joiner: &mut Joiner, segment: &[u8]) -> Result<(), NoMemory>
    requires { length segment.now ≤ 256 }
    ensures joiner { OnOk result (joiner.new ≡ (join_step joiner.old segment.now).0) }
    ensures within { OnOk result (IsWithin joiner.old → IsWithin joiner.new) }
{
    let _ = joiner.push(segment)?;
    Ok(())
}

//! Sending a text over the link with a peer. Called by `table`.
ghost use Rattle.std.specs.Prelude.{◌≡◌, ◌≤◌, OnOk, length};
ghost use Rattle.link_table.specs.Calls.{at_link};
ghost use Rattle.link_table.specs.Texts.{most_text, send_text_of};

use crate::TextRefusal;
use crate::held_links::HeldLinks;
use ax_address::Call;
use radio_base::{Moment, NoMemory};

impl HeldLinks {
    ghost use Rattle.link_table.specs.Standing.{CoreGoes, Rests, answer_at};

    /// Why a text isn't sent over the link with a peer, if it isn't.
    pub(crate) fn text_answer(&self, peer: &Call, text: &[u8]) -> Result<(), TextRefusal>
        ensures { result ≡ answer_at peer.now text.now self.now.links.entries }
    {
        match self.links.get(peer) {
            Some(entry) => entry.text_answer(text),
            None => Err(TextRefusal::NoLink),
        }
    }

    /// Sends a text over the link with a peer.
    pub(crate) fn send_text(
        &mut self,
        peer: &Call,
        text: &[u8],
        now: Moment,
    ) -> Result<(), NoMemory>
        requires rests { Rests self.old }
        requires few { length text.now ≤ most_text }
        ensures rests { OnOk result (Rests self.new) }
        ensures goes { OnOk result (CoreGoes
            (λ t. at_link peer.now (send_text_of t.own text.now now.0) t) self.old self.new) }
    {
        let down = match self.links.get_mut(peer) {
            Some(entry) => {
                entry.send_text(&mut self.pending, text, now)?;
                entry.is_down()
            }
            None => return Ok(()),
        };
        self.drop_if_down(peer, down);
        Ok(())
    }
}

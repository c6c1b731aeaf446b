//! How texts go to places: to a link in pieces, of which it takes those for which it has room. Called by all that serve sessions.
ghost use Rattle.std.specs.Prelude.{◌≡◌, ◌≤◌, ◌↔◌, length, take, is_ok, IfOk, IsErr, IsErrOf, IsTrue, OnErr, OnOk};
ghost use Rattle.node_core.specs.Standing.{IsAnswer};
ghost use Rattle.node_core.specs.declared.acts.ActRefusal.TheVariants as refusals;
ghost use Rattle.station_places.specs.Giving as giving;
ghost use Rattle.station_places.specs.Sides.{SidesGo, SidesStand, SidesState};

use crate::Sides;
use ax_address::Call;
use node_core::{ActDone, ActRefusal, UserAct};
use radio_base::{Moment, NoMemory};
use station_sessions::Place;

impl Sides {
    /// Gives a text to a place that has room for it: to an end as one message, to a console whole, to a link in pieces. How many of its
    /// bytes have gone: at a link others may have to wait.
    pub fn give(&mut self, place: &Place, text: &[u8], now: Moment) -> Result<usize, NoMemory>
        ensures goes { OnOk result (SidesGo (giving.give place.now text.now now) self.old self.new) }
        ensures count { IfOk result (λ count. (s : SidesState) → SidesStand self.old s
            → count ≡ giving.given place.now text.now now s) }
        ensures within { IfOk result (λ count. count ≤ length text.now) }
        ensures err { OnErr result (self.new.outs ≡ self.old.outs) }
    {
        match place {
            Place::End { member, id } => {
                let write = UserAct::Write {
                    id: *id,
                    message: text,
                };
                self.act(*member, &write, now)?;
                Ok(text.len())
            }
            Place::Link { member, peer } => self.send_pieces(*member, peer, text, now),
            Place::Console(console) => {
                self.outs.put(*console, text)?;
                Ok(text.len())
            }
        }
    }

    /// Sends pieces of a text over a link as long as it has room. How many bytes went.
    fn send_pieces(
        &mut self,
        member: usize,
        peer: &Call,
        text: &[u8],
        now: Moment,
    ) -> Result<usize, NoMemory>
        ensures goes { OnOk result (SidesGo (λ s. (giving.send_pieces now member peer.now text.now s).after) self.old self.new) }
        ensures count { IfOk result (λ count. (s : SidesState) → SidesStand self.old s
            → count ≡ giving.octets_of (giving.send_pieces now member peer.now text.now s).pieces) }
        ensures within { IfOk result (λ count. count ≤ length text.now) }
        ensures outs { self.new.outs ≡ self.old.outs }
    {
        let most = self.paclen(member);
        let mut sent = 0;
        while sent < text.len() {
            if self.link_room(member, peer) == 0 {
                return Ok(sent);
            }
            let piece = first_piece(&text[sent..], most);
            if self.send(member, peer, piece, now)? {
                sent += piece.len();
            } else {
                return Ok(sent);
            }
        }
        Ok(sent)
    }

    /// The most bytes of a piece at a link of a member: at least 1.
    fn paclen(&self, member: usize) -> usize
        ensures size { (s : SidesState) → SidesStand self.now s → result ≡ giving.paclen member s }
        ensures some { 1 ≤ result }
    {
        match self.members.rules(member) {
            Some(rules) => (rules.paclen as usize).max(1),
            None => 1,
        }
    }

    /// Sends a piece. Whether the link has taken it.
    fn send(
        &mut self,
        member: usize,
        peer: &Call,
        text: &[u8],
        now: Moment,
    ) -> Result<bool, NoMemory>
        ensures goes { OnOk result (SidesGo (giving.send now member peer.now text.now) self.old self.new) }
        ensures taken { IfOk result (λ taken. (s : SidesState) → SidesStand self.old s
            → taken ≡ giving.has_taken now member peer.now text.now s) }
        ensures outs { self.new.outs ≡ self.old.outs }
    {
        let send = UserAct::SendText { to: *peer, text };
        is_done(self.members.act(member, &send, now))
    }
}

/// The first bytes of a text, so many at most.
fn first_piece(text: &[u8], most: usize) -> &[u8]
    ensures { result.now ≡ take most text.now }
{
    &text[..text.len().min(most)]
}

/// Whether an act was done, where memory didn't run out.
fn is_done(outcome: Result<ActDone, ActRefusal>) -> Result<bool, NoMemory>
    ensures answer { OnOk result (IsAnswer outcome) }
    ensures done { IfOk result (λ done. done ≡ is_ok outcome) }
    ensures memory { IsErr result ↔ IsErrOf outcome refusals.NoMemory }
{
    match outcome {
        Ok(_) => Ok(true),
        Err(ActRefusal::NoMemory) => Err(NoMemory),
        Err(_) => Ok(false),
    }
}

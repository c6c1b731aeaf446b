//! What whoever serves the users of a node does at its links. Called by `acting`.
ghost use Rattle.node_core.specs.Acts as acts;

use crate::station::Station;
use crate::{ActDone, ActRefusal, TakenMessage};
use ax_address::{Call, Path};
use l3_datagram::Message;
use radio_base::Moment;

impl Station {
    ghost use Rattle.node_core.specs.Going.{Acts};

    /// Takes the first text at the link with a peer.
    pub(crate) fn take_hosted(&mut self, peer: &Call, now: Moment) -> Result<ActDone, ActRefusal>
        ensures { Acts (acts.take_text now.0 peer.now) self.old self.new result }
    {
        let mut text = Message::new();
        let links = self.set.router_mut().carrier_mut();
        let waited = links.take_text(peer, &mut text, now)?;
        if waited {
            let taken = TakenMessage::new(self.alloc, text.as_slice())?;
            Ok(ActDone::Took(taken))
        } else {
            Err(ActRefusal::Nothing)
        }
    }

    /// Sends a text over the link with a peer.
    pub(crate) fn send_hosted(
        &mut self,
        to: &Call,
        text: &[u8],
        now: Moment,
    ) -> Result<ActDone, ActRefusal>
        ensures { Acts (acts.send_text now.0 to.now text.now) self.old self.new result }
    {
        let links = self.set.router_mut().carrier_mut();
        links.send_text(to, text, now)?;
        Ok(ActDone::Done)
    }

    /// Sets a link up where none stands, over these repeaters.
    pub(crate) fn open_hosted(
        &mut self,
        to: &Call,
        path: &Path,
        now: Moment,
    ) -> Result<ActDone, ActRefusal>
        ensures { Acts (acts.open_link now.0 to.now path.now) self.old self.new result }
    {
        let links = self.set.router_mut().carrier_mut();
        links.open(to, path, now)?;
        Ok(ActDone::Done)
    }

    /// Releases the link with a peer once all is acknowledged.
    pub(crate) fn close_hosted(&mut self, peer: &Call, now: Moment) -> Result<ActDone, ActRefusal>
        ensures { Acts (acts.close_link now.0 peer.now) self.old self.new result }
    {
        let links = self.set.router_mut().carrier_mut();
        links.close(peer, now)?;
        Ok(ActDone::Done)
    }
}

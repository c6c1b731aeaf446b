//! What follows an input: the notices of the links are entered, the circuits are pumped, the users are served; and again while any of these
//! did something. Called by `acting`, `feeding` and `rounds`.
ghost use Rattle.std.specs.Prelude.{◌≡◌, ◌<◌, IfOk, IfSome, OnOk, length, slice_get};
ghost use Rattle.link_table.specs.Calls as calls;
ghost use Rattle.node_core.specs.Inputs as inputs;
ghost use Rattle.node_model.specs.Links as links;
ghost use Rattle.node_model.specs.Pumping as pumping;
ghost use Rattle.node_model.specs.Serving as settling;
ghost use Rattle.node_model.specs.States as states;
ghost use Rattle.node_model.specs.States.{State};

use crate::station::Station;
use crate::{NodeEntry, laws};
use ax_address::Call;
use ax_link::LinkNotice;
use l3_datagram::Message;
use radio_base::{Moment, NoMemory};

impl Station {
    ghost use Rattle.node_core.specs.Going.{Did, StandsForSome, StandsTold, StationGoes, Turns};
    ghost use Rattle.node_core.specs.Standing.{Holds, IsDrained, IsTold};

    /// All that follows an input.
    pub(crate) fn settle(&mut self, now: Moment) -> Result<(), NoMemory>
        requires { StandsForSome self.old }
        ensures goes { OnOk result (StationGoes (inputs.after_input now.0) self.old self.new) }
        ensures drained { OnOk result (IsDrained self.new) }
    {
        laws::parts();
        if !self.turn(now)? {
            return Ok(());
        }
        while self.turn(now)? {}
        Ok(())
    }

    /// Each of the three parts once. Whether any of them did something. Most turns have nothing to do, so each part looks first,
    /// where it is called, and takes a call only where there is something.
    #[inline(always)]
    fn turn(&mut self, now: Moment) -> Result<bool, NoMemory>
        requires { StandsForSome self.old }
        ensures did { IfOk result (Did (λ n. (settling.turn now.0 n).did) self.old) }
        ensures goes { OnOk result (StationGoes (λ n. (settling.turn now.0 n).after) self.old self.new) }
        ensures drained { OnOk result (IsDrained self.new) }
    {
        let noticed = self.enter_notices()?;
        let told = self.pump(now)?;
        let served = self.serve_users(now)?;
        Ok(noticed | told | served)
    }

    /// Enters what happened at the links. Whether anything did.
    #[inline(always)]
    fn enter_notices(&mut self) -> Result<bool, NoMemory>
        ensures did { IfOk result (Did (λ n. settling.has_some n.links.pending.notices) self.old) }
        ensures goes { OnOk result (StationGoes settling.enter_notices self.old self.new) }
    {
        if !self.set.router().carrier().has_notices() {
            return Ok(false);
        }
        let noticed = self.enter_each()?;
        Ok(noticed)
    }

    #[inline(never)]
    fn enter_each(&mut self) -> Result<bool, NoMemory>
        ensures did { IfOk result (Did (λ n. settling.has_some n.links.pending.notices) self.old) }
        ensures goes { OnOk result (StationGoes settling.enter_notices self.old self.new) }
    {
        let before = self.entries.len();
        while let Some(told) = self.next_notice() {
            self.hear_link(&told.0, told.1);
            self.entries.push_back(NodeEntry::Link(told.0, told.1))?;
        }
        Ok(before < self.entries.len())
    }

    /// The next notice of its links.
    fn next_notice(&mut self) -> Option<(Call, LinkNotice)>
        ensures answer { (n : State) → Holds self.old n → result ≡ slice_get n.links.pending.notices 0 }
        ensures goes { StationGoes (states.at_links calls.notice) self.old self.new }
        ensures left { IfSome result (λ _.
            length self.new.set.router.carrier.notices < length self.old.set.router.carrier.notices) }
        ensures same { self.new ≡ record self.old { set = self.new.set } }
    {
        self.set.router_mut().carrier_mut().notice()
    }

    /// Pumps the circuits until they tell nothing more. Whether they told anything.
    pub(crate) fn pump(&mut self, now: Moment) -> Result<bool, NoMemory>
        ensures did { IfOk result (Did (λ n. settling.has_told n (pumping.pump now.0 n)) self.old) }
        ensures goes { OnOk result (StationGoes (pumping.pump now.0) self.old self.new) }
        ensures told { OnOk result ((n : State) → IsTold (pumping.pump now.0 n)) }
        ensures drained { OnOk result (IsDrained self.new) }
    {
        laws::parts();
        // So it mostly is, and then no room is made for what could be told.
        if self.set.is_idle() {
            return Ok(false);
        }
        let told = self.pump_on(now)?;
        Ok(told)
    }

    #[inline(never)]
    fn pump_on(&mut self, now: Moment) -> Result<bool, NoMemory>
        ensures did { IfOk result (Did (λ n. settling.has_told n (pumping.pump now.0 n)) self.old) }
        ensures goes { OnOk result (StationGoes (pumping.pump now.0) self.old self.new) }
        ensures told { OnOk result ((n : State) → IsTold (pumping.pump now.0 n)) }
        ensures drained { OnOk result (IsDrained self.new) }
    {
        laws::parts();
        let before = self.entries.len();
        while !self.set.is_idle() {
            match self.set.pump(now) {
                Ok(Some(event)) => {
                    self.hear_circuits(&event)?;
                    self.entries.push_back(NodeEntry::Set(event))?;
                }
                Ok(None) => return Ok(before < self.entries.len()),
                Err(NoMemory) => return Err(NoMemory),
            }
        }
        Ok(before < self.entries.len())
    }

    /// Serves the users at the prompt; where none are served, the texts of links are dropped. Whether there was anything.
    #[inline(always)]
    fn serve_users(&mut self, now: Moment) -> Result<bool, NoMemory>
        requires { StandsTold self.old }
        ensures { IfOk result (Turns (settling.serve_users now.0) self.old self.new) }
    {
        laws::parts();
        // So it mostly is.
        if self.sessions.is_empty() && self.first_text().is_none() {
            return Ok(false);
        }
        let served = self.serve_some(now)?;
        Ok(served)
    }

    #[inline(never)]
    fn serve_some(&mut self, now: Moment) -> Result<bool, NoMemory>
        requires { StandsTold self.old }
        ensures { IfOk result (Turns (settling.serve_users now.0) self.old self.new) }
    {
        if self.prompt {
            self.serve_sessions(now)
        } else {
            let dropped = self.drop_texts(now)?;
            Ok(dropped)
        }
    }

    /// Takes each text that waits at a link and drops it, link by link, since nobody reads it. Whether any waited.
    fn drop_texts(&mut self, now: Moment) -> Result<bool, NoMemory>
        requires { StandsForSome self.old }
        ensures did { IfOk result (Did (λ n. (settling.drop_text now.0 n).did) self.old) }
        ensures goes { OnOk result (StationGoes (settling.drop_texts now.0) self.old self.new) }
        ensures drained { OnOk result (IsDrained self.old → IsDrained self.new) }
    {
        laws::parts();
        if !self.drop_text(now)? {
            return Ok(false);
        }
        while self.drop_text(now)? {}
        Ok(true)
    }

    /// Takes the first text that waits at a link and drops it. Whether one waited. Where users are hosted it stays.
    fn drop_text(&mut self, now: Moment) -> Result<bool, NoMemory>
        ensures did { IfOk result (Did (λ n. (settling.drop_text now.0 n).did) self.old) }
        ensures goes { OnOk result (StationGoes (λ n. (settling.drop_text now.0 n).after) self.old self.new) }
        ensures drained { OnOk result (IsDrained self.old → IsDrained self.new) }
    {
        if self.hosts {
            return Ok(false);
        }
        match self.first_text() {
            Some(peer) => {
                let mut text = Message::new();
                let links = self.set.router_mut().carrier_mut();
                let taken = links.take_text(&peer, &mut text, now)?;
                Ok(taken)
            }
            None => Ok(false),
        }
    }

    /// The first peer at whose link a text waits.
    #[tactic(auto, unfolding(node_model::specs::Links::text_peers))]
    pub(crate) fn first_text(&self) -> Option<Call>
        ensures { (n : State) → Holds self.now n → result ≡ slice_get (links.text_peers n.links) 0 }
    {
        self.set.router().carrier().first_text()
    }
}

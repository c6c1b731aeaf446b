//! What a user does at a node. Called by `node`.
ghost use Rattle.std.specs.Prelude.{◌≡◌, OnOk};
ghost use Rattle.route_table.specs.Log as logs;
ghost use Rattle.node_core.specs.Acts as acts;
ghost use Rattle.node_core.specs.Inputs as inputs;
ghost use Rattle.node_model.specs.States.{State};

use crate::acts::wants_memory;
use crate::station::Station;
use crate::{ActDone, ActRefusal, TakenMessage, UserAct};
use ax_address::{Alias, Call};
use l3_datagram::Message;
use radio_base::{Moment, NoMemory};

impl Station {
    ghost use Rattle.node_core.specs.Going.{Acts, HoldsTold, StandsTold, StationGoes};
    ghost use Rattle.node_core.specs.Standing.{IsAnswer, IsDrained};
    ghost use Rattle.node_core.specs.Acts as acts;
    ghost use Rattle.node_core.specs.Acts.{act_of};

    /// Does an act, or tells why not, and all that follows an input.
    pub(crate) fn act(&mut self, act: &UserAct, now: Moment) -> Result<ActDone, ActRefusal>
        requires drained { IsDrained self.old }
        requires stands { StandsTold self.old }
        ensures acts { Acts (inputs.settled_act now.0 (act_of act.now)) self.old self.new result }
        ensures drained { IsAnswer result → IsDrained self.new }
    {
        let outcome = self.do_act(act, now);
        if wants_memory(&outcome) {
            return outcome;
        }
        self.settle(now)?;
        outcome
    }

    /// Does an act, or tells why not.
    fn do_act(&mut self, act: &UserAct, now: Moment) -> Result<ActDone, ActRefusal>
        requires { IsDrained self.old }
        ensures { Acts (acts.do_act now.0 (act_of act.now)) self.old self.new result }
    {
        match act {
            UserAct::Round => {
                self.do_round()?;
                Ok(ActDone::Done)
            }
            UserAct::LinkFail(peer) => {
                self.fail_link(peer)?;
                Ok(ActDone::Done)
            }
            UserAct::Lock {
                dest,
                alias,
                neighbour,
                quality,
            } => self.lock(dest, alias, neighbour, *quality),
            UserAct::Connect(dest) => self.connect(dest, now),
            UserAct::ConnectFor { user, dest } => self.connect_for(user, dest, now),
            UserAct::Write { id, .. } | UserAct::Take { id } | UserAct::Close { id }
                if self.is_kept_from(*id) => Err(ActRefusal::Served),
            UserAct::Write { id, message } => self.write(*id, message, now),
            UserAct::Take { id } => self.take(*id, now),
            UserAct::Close { id } => self.close(*id, now),
            UserAct::TakeText(_)
            | UserAct::SendText { .. }
            | UserAct::OpenLink { .. }
            | UserAct::CloseLink(_)
                if !self.hosts => Err(ActRefusal::Served),
            UserAct::TakeText(peer) => self.take_hosted(peer, now),
            UserAct::SendText { to, text } => self.send_hosted(to, text, now),
            UserAct::OpenLink { to, path } => self.open_hosted(to, path, now),
            UserAct::CloseLink(peer) => self.close_hosted(peer, now),
        }
    }

    /// Breaks the link with a neighbour, where one stands, and ends the routes over it.
    fn fail_link(&mut self, peer: &Call) -> Result<(), NoMemory>
        ensures { OnOk result (StationGoes (acts.fail_link peer.now) self.old self.new) }
    {
        self.set.router_mut().carrier_mut().break_link(peer)?;
        self.set.router_mut().table_mut().link_failed(peer);
        Ok(())
    }

    /// Locks a route in.
    fn lock(
        &mut self,
        dest: &Call,
        alias: &Alias,
        neighbour: &Call,
        quality: u8,
    ) -> Result<ActDone, ActRefusal>
        ensures { Acts (acts.lock dest.now (logs.Lock dest.now alias.now neighbour.now quality) quality)
            self.old self.new result }
    {
        let table = self.set.router_mut().table_mut();
        table.lock(dest, alias, neighbour, quality)?;
        Ok(ActDone::Done)
    }

    /// Asks for a circuit with a node.
    fn connect(&mut self, dest: &Call, now: Moment) -> Result<ActDone, ActRefusal>
        requires { IsDrained self.old }
        ensures { Acts (acts.do_act now.0 (acts.Connect dest.now)) self.old self.new result }
    {
        let id = self.set.connect(dest, now)?;
        Ok(ActDone::Made(id))
    }

    /// Asks for a circuit with a node in the name of this user.
    fn connect_for(&mut self, user: &Call, dest: &Call, now: Moment) -> Result<ActDone, ActRefusal>
        requires { IsDrained self.old }
        ensures { Acts (acts.do_act now.0 (acts.ConnectFor user.now dest.now)) self.old self.new result }
    {
        let id = self.set.connect_for(user, dest, now)?;
        Ok(ActDone::Made(id))
    }

    /// Writes a message for the partner of an end.
    fn write(&mut self, id: u64, message: &[u8], now: Moment) -> Result<ActDone, ActRefusal>
        requires { IsDrained self.old }
        ensures { Acts (acts.write now.0 id message.now) self.old self.new result }
    {
        self.set.write(id, message, now)?;
        Ok(ActDone::Done)
    }

    /// Takes the first message that came to an end.
    fn take(&mut self, id: u64, now: Moment) -> Result<ActDone, ActRefusal>
        requires { IsDrained self.old }
        ensures { Acts (acts.take now.0 id) self.old self.new result }
    {
        let mut message = Message::new();
        let waited = self.set.take(id, &mut message, now)?;
        if waited {
            let taken = TakenMessage::new(self.alloc, message.as_slice())?;
            Ok(ActDone::Took(taken))
        } else {
            Err(ActRefusal::Nothing)
        }
    }

    /// Closes the circuit of an end.
    fn close(&mut self, id: u64, now: Moment) -> Result<ActDone, ActRefusal>
        requires { IsDrained self.old }
        ensures { Acts (acts.close now.0 id) self.old self.new result }
    {
        self.set.close(id, now)?;
        Ok(ActDone::Done)
    }

    /// Whether an end is held, and a session serves it or has asked for its circuit.
    fn is_kept_from(&self, id: u64) -> bool
        ensures { (n : State) → HoldsTold self.now n → result ≡ acts.is_kept id n }
    {
        self.set.facts(id).is_some() && self.is_served(id)
    }
}

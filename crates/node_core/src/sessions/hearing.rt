//! What has happened, as the sessions hear it. Called by `serving` and `settling`.
ghost use Rattle.std.specs.Prelude.{◌≡◌, OnOk, map};
ghost use Rattle.circuit_table.specs.Standing.{event_told};
ghost use Rattle.node_model.specs.Serving as serving;
ghost use Rattle.node_model.specs.Sessions as sessions;
ghost use Rattle.node_model.specs.States as states;
ghost use Rattle.node_model.specs.States.{State};

use crate::sessions::Session;
use crate::sessions::session::is_at_link;
use crate::station::Station;
use ax_address::Call;
use ax_link::LinkNotice;
use circuit_l4::EndNotice;
use circuit_table::SetEvent;
use node_model::User;
use radio_base::NoMemory;

impl Station {
    ghost use Rattle.node_core.specs.Going.{StationGoes, Steps};
    ghost use Rattle.node_core.specs.Standing.{Holds};

    /// The sessions hear what has happened at the circuits. Where a request of another node has opened an end, a session is
    /// made for the user there, if users are served.
    pub(crate) fn hear_circuits(&mut self, event: &SetEvent) -> Result<(), NoMemory>
        ensures goes { OnOk result (StationGoes
            (λ n. states.at_sessions (sessions.hear_circuits n.settings.prompt (event_told event.now)) n)
            self.old self.new) }
        ensures same { self.new ≡ record self.old { sessions = self.new.sessions } }
    {
        match event {
            SetEvent::Made {
                id,
                request: Some(_),
                pair: _,
                partner: _,
            } => self.greet(User::AtEnd(*id)),
            SetEvent::Notice { id, notice } => hear_notice(&mut self.sessions, *id, *notice),
            SetEvent::Gone { id, facts: _ } => hear_gone(&mut self.sessions, *id),
            SetEvent::Made { request: None, .. }
            | SetEvent::Sent { .. }
            | SetEvent::Heeded { .. }
            | SetEvent::Dropped(_)
            | SetEvent::Lost(_) => Ok(()),
        }
    }

    /// Makes a session for a user, if users are served.
    fn greet(&mut self, user: User) -> Result<(), NoMemory>
        ensures sessions { OnOk result (self.new.sessions.items
            ≡ sessions.greet self.old.prompt user self.old.sessions.items) }
        ensures same { self.new ≡ record self.old { sessions = self.new.sessions } }
    {
        if self.prompt {
            self.sessions.push(Session::new(self.alloc, user))?;
        }
        Ok(())
    }

    /// The sessions hear what has happened at the link with a peer.
    pub(crate) fn hear_link(&mut self, peer: &Call, notice: LinkNotice)
        ensures sessions { self.new.sessions.items ≡ sessions.hear_link peer.now notice self.old.sessions.items }
        ensures same { self.new ≡ record self.old { sessions = self.new.sessions } }
    {
        if ends_link(notice) {
            leave(&mut self.sessions, peer);
        }
    }

    /// Makes a session for each link at which a text waits and that has none, in the order of the links.
    #[tactic(auto, using(crate::proofs::Passing::nobody_greeted))]
    pub(crate) fn greet_links(&mut self) -> Result<(), NoMemory>
        ensures { OnOk result (Steps serving.greet_links self.old self.new) }
    {
        if self.first_text().is_none() {
            return Ok(());
        }
        let peers = self.set.router().carrier().texts();
        self.greet_each(&peers)?;
        Ok(())
    }

    /// Makes a session for the user at each of these links, unless one serves it.
    fn greet_each(&mut self, peers: &[Call]) -> Result<(), NoMemory>
        ensures { OnOk result (Steps (λ n. states.at_sessions (serving.greet_each n.settings.prompt peers.now) n)
            self.old self.new) }
    {
        for peer in peers {
            self.greet_link(peer)?;
        }
        Ok(())
    }

    /// Makes a session for the user at a link, unless one serves it.
    fn greet_link(&mut self, peer: &Call) -> Result<(), NoMemory>
        ensures sessions { OnOk result (self.new.sessions.items
            ≡ serving.greet_link self.old.prompt peer.now self.old.sessions.items) }
        ensures same { self.new ≡ record self.old { sessions = self.new.sessions } }
    {
        if is_served_link(&self.sessions, peer) {
            return Ok(());
        }
        self.greet(User::AtLink(*peer))
    }

    /// Whether a session serves the end of that number, or has asked for its circuit.
    pub(crate) fn is_served(&self, id: u64) -> bool
        ensures { (n : State) → Holds self.now n → result ≡ serving.is_served id n.sessions }
    {
        is_served(&self.sessions, id)
    }
}

/// Whether a session serves the user at the link with a peer.
fn is_served_link(all: &[Session], peer: &Call) -> bool
    ensures { result ≡ serving.is_served_link peer.now all.now }
{
    match all {
        [] => false,
        [session, others @ ..] => serves_link(session, peer) || is_served_link(others, peer),
    }
}

fn serves_link(session: &Session, peer: &Call) -> bool
    ensures { result ≡ serving.serves_link peer.now session.now }
{
    is_at_link(&session.user(), peer) && !session.has_left()
}

/// Whether one of these sessions serves an end, or has asked for its circuit.
fn is_served(all: &[Session], id: u64) -> bool
    ensures { result ≡ serving.is_served id all.now }
{
    match all {
        [] => false,
        [session, others @ ..] => {
            is_at_end(session, id) || has_asked(session, id) || is_served(others, id)
        }
    }
}

fn is_at_end(session: &Session, id: u64) -> bool
    ensures { result ≡ serving.is_at_end id session.now.user }
{
    match session.user() {
        User::AtEnd(at) => at == id,
        User::AtLink(_) => false,
    }
}

/// Whether a session has asked for the circuit of that end.
fn has_asked(session: &Session, id: u64) -> bool
    ensures { result ≡ serving.is_circuit id (sessions.circuit_of session.now.stage) }
{
    match session.circuit() {
        Some(circuit) => circuit.id == id,
        None => false,
    }
}

/// Whether a link ends by what is told of it.
fn ends_link(notice: LinkNotice) -> bool
    ensures { result ≡ sessions.ends_link notice }
{
    match notice {
        LinkNotice::Opened | LinkNotice::Reset => false,
        LinkNotice::Closed | LinkNotice::Refused | LinkNotice::Failed => true,
    }
}

/// Each session hears what has become of the circuit of an end.
fn hear_notice(all: &mut Vec<Session>, id: u64, notice: EndNotice) -> Result<(), NoMemory>
    ensures { OnOk result (all.new.items ≡ map (λ s. sessions.bare (sessions.hear_notice id notice s)) all.old.items) }
{
    for session in all.iter_mut() {
        session.hear_notice(id, notice)?;
    }
    Ok(())
}

/// Each session hears that an end is held no longer.
fn hear_gone(all: &mut Vec<Session>, id: u64) -> Result<(), NoMemory>
    ensures { OnOk result (all.new.items ≡ map (sessions.hear_gone id) all.old.items) }
{
    for session in all.iter_mut() {
        session.hear_gone(id)?;
    }
    Ok(())
}

/// The users at the link with a peer have left.
fn leave(all: &mut Vec<Session>, peer: &Call)
    ensures { all.new.items ≡ map (sessions.leave peer.now) all.old.items }
{
    for session in all.iter_mut() {
        session.leave(peer);
    }
}

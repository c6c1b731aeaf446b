//! A session: a user at the prompt, and the circuit that it has asked for. Called by most files here.
ghost use Rattle.std.specs.Prelude.{◌≡◌, true, slice_get, OnOk, Some};
ghost use Rattle.node_model.specs.Bridging as bridging;
ghost use Rattle.node_model.specs.Asking as asking;
ghost use Rattle.node_model.specs.Serving as serving;
ghost use Rattle.node_model.specs.Sessions as sessions;
ghost use Rattle.node_model.specs.Users as users;

use crate::sessions::lines::{first_line, line_size};
use ax_address::Call;
use circuit_l4::EndNotice;
use l3_datagram::Message;
use node_model::{Circuit, Reply, Stage, User};
use node_prompt::Trouble;
use radio_base::NoMemory;
use std::alloc::Global;
use std::collections::VecDeque;
use std::marker::Model;

/// The most bytes of a text.
const MAX_TEXT: usize = 8192;

/// A user at the prompt.
#[derive(Drop)]
pub struct Session {
    user: User,
    /// The user's link has ended.
    left: bool,
    /// The user has said BYE.
    bye: bool,
    stage: Stage,
    replies: VecDeque<Reply>,
    /// The text of the user that was taken last.
    text: Message,
    /// How many of its bytes are done with.
    done: usize,
}

impl Model for Session {
    ghost use Rattle.std.specs.Prelude.{◌≤◌, drop, length};
    ghost use Rattle.node_model.specs.Sessions.{Session, unused};

    ghost Value = { Session };

    ghost view = { λ s. record {
      user = s.user;
      left = s.left;
      bye = s.bye;
      stage = s.stage;
      replies = s.replies.items;
      rest = drop s.done s.text.items;
      bridge = unused;
    } };

    ghost invariant = { λ s. s.done ≤ length s.text.items };
}

impl Session {
    /// A session at its start.
    pub fn new(alloc: Global, user: User) -> Session
        ensures { result ≡ sessions.new_session user }
    {
        Session {
            user,
            left: false,
            bye: false,
            stage: Stage::AtPrompt,
            replies: VecDeque::new(alloc),
            text: Message::new(),
            done: 0,
        }
    }

    /// Where its user is.
    pub fn user(&self) -> User
        ensures { result ≡ self.now.user }
    {
        self.user
    }

    /// Whether the user's link has ended.
    pub fn has_left(&self) -> bool
        ensures { result ≡ self.now.left }
    {
        self.left
    }

    /// Whether the user has said BYE.
    pub fn has_said_bye(&self) -> bool
        ensures { result ≡ self.now.bye }
    {
        self.bye
    }

    /// How far it has come.
    pub fn stage(&self) -> Stage
        ensures { result ≡ self.now.stage }
    {
        self.stage
    }

    /// The circuit that it has asked for, and that isn't gone.
    pub fn circuit(&self) -> Option<Circuit>
        ensures { result ≡ sessions.circuit_of self.now.stage }
    {
        match self.stage {
            Stage::AtPrompt => None,
            Stage::Trying(circuit) | Stage::Failed(circuit) | Stage::Connected(circuit) => {
                Some(circuit)
            }
        }
    }

    /// The first reply that waits.
    pub fn first_reply(&self) -> Option<Reply>
        ensures { result ≡ slice_get self.now.replies 0 }
    {
        self.replies.front().copied()
    }

    /// What is left of the text that was taken last.
    pub fn rest(&self) -> &[u8]
        ensures { result.now ≡ self.now.rest }
    {
        &self.text.as_slice()[self.done..]
    }

    /// The same as a text of its own.
    pub fn rest_text(&self) -> Message
        ensures { result.items ≡ self.now.rest }
    {
        let fits = self.text.len() <= MAX_TEXT;
        prove!(fits);
        let mut rest = Message::new();
        let _ = rest.try_extend_from_slice(self.rest());
        rest
    }

    /// Whether anything of it is left.
    pub fn has_rest(&self) -> bool
        ensures { result ≡ bridging.has_rest (Some self.now) }
    {
        !self.rest().is_empty()
    }

    /// The link with a peer has ended: where its user is at that link, it has left.
    pub fn leave(&mut self, peer: &Call)
        ensures { self.new ≡ sessions.leave peer.now self.old }
    {
        if is_at_link(&self.user, peer) {
            self.left = true;
        }
    }

    /// Something has become of the circuit of an end: where it is the one that is tried, it stands now, or it won't.
    pub fn hear_notice(&mut self, id: u64, notice: EndNotice) -> Result<(), NoMemory>
        ensures { OnOk result (self.new ≡ sessions.bare (sessions.hear_notice id notice self.old)) }
    {
        match self.stage {
            Stage::Trying(circuit) => {
                if circuit.id == id {
                    self.replies.push_back(told_by(&circuit.dest, notice))?;
                    self.stage = stage_by(circuit, notice);
                }
            }
            Stage::AtPrompt | Stage::Failed(_) | Stage::Connected(_) => {}
        }
        Ok(())
    }

    /// An end is held no longer: where it was that of the circuit, the user is at the prompt again.
    pub fn hear_gone(&mut self, id: u64) -> Result<(), NoMemory>
        ensures { OnOk result (self.new ≡ sessions.hear_gone id self.old) }
    {
        match self.stage {
            Stage::AtPrompt => {}
            Stage::Trying(circuit) | Stage::Failed(circuit) => {
                if circuit.id == id {
                    self.stage = Stage::AtPrompt;
                }
            }
            Stage::Connected(circuit) => {
                if circuit.id == id {
                    self.replies.push_back(Reply::Ended(circuit.dest))?;
                    self.stage = Stage::AtPrompt;
                }
            }
        }
        Ok(())
    }

    /// The first reply is dropped.
    pub fn drop_reply(&mut self)
        ensures { self.new ≡ bridging.drop_reply self.old }
    {
        let _ = self.replies.pop_front();
    }

    /// This text was taken from the user.
    pub fn begin(&mut self, text: Message)
        ensures { self.new ≡ users.with_rest text.items self.old }
    {
        let fits = text.len() <= MAX_TEXT;
        prove!(fits);
        self.text = text;
        self.done = 0;
    }

    /// The first line of what is left of the text is done with.
    pub fn cut_line(&mut self)
        ensures { self.new ≡ asking.cut_line self.old }
    {
        let size = line_size(self.rest());
        let fits = self.text.len() <= MAX_TEXT;
        prove!(fits);
        self.done += size;
    }

    /// The first line of what is left of the text.
    pub fn line(&self) -> &[u8]
        ensures { result.now ≡ asking.first_line self.now.rest }
    {
        first_line(self.rest())
    }

    /// All of the text is done with.
    pub fn drop_rest(&mut self)
        ensures { self.new ≡ bridging.drop_rest self.old }
    {
        self.done = self.text.len();
    }

    /// The user has said BYE.
    pub fn say_bye(&mut self)
        ensures { self.new ≡ asking.leaves self.old }
    {
        self.bye = true;
        self.drop_rest();
    }

    /// A circuit is tried.
    pub fn tries(&mut self, id: u64, dest: &Call)
        ensures { self.new ≡ asking.tries id dest.now self.old }
    {
        self.stage = Stage::Trying(Circuit {
            id,
            dest: *dest,
            closed: false,
        });
    }

    /// Its circuit was closed.
    pub fn note_closed(&mut self)
        ensures { self.new ≡ bridging.note_closed self.old }
    {
        self.stage = stage_closed(&self.stage);
    }
}

/// Whether a user is at the link with a peer.
pub fn is_at_link(user: &User, peer: &Call) -> bool
    ensures { result ≡ sessions.is_at_link peer.now user.now }
{
    match user {
        User::AtEnd(_) => false,
        User::AtLink(call) => *call == *peer,
    }
}

/// What a user is told of the circuit that is tried.
fn told_by(dest: &Call, notice: EndNotice) -> Reply
    ensures { result ≡ sessions.told_by dest.now notice }
{
    match notice {
        EndNotice::Opened { .. } => Reply::Connected(*dest),
        EndNotice::Refused => Reply::Refused(*dest, Trouble::Busy),
        _ => Reply::Refused(*dest, Trouble::Failure),
    }
}

/// Where that brings the session.
fn stage_by(circuit: Circuit, notice: EndNotice) -> Stage
    ensures { result ≡ sessions.stage_by circuit notice }
{
    match notice {
        EndNotice::Opened { .. } => Stage::Connected(circuit),
        _ => Stage::Failed(circuit),
    }
}

/// The circuit, once it was closed.
fn closed_circuit(circuit: &Circuit) -> Circuit
    ensures { result ≡ bridging.closed_circuit circuit.now }
{
    Circuit {
        id: circuit.id,
        dest: circuit.dest,
        closed: true,
    }
}

fn stage_closed(stage: &Stage) -> Stage
    ensures { result ≡ bridging.stage_closed stage.now }
{
    match stage {
        Stage::AtPrompt => Stage::AtPrompt,
        Stage::Trying(circuit) => Stage::Trying(closed_circuit(circuit)),
        Stage::Failed(circuit) => Stage::Failed(closed_circuit(circuit)),
        Stage::Connected(circuit) => Stage::Connected(closed_circuit(circuit)),
    }
}

//! What a node says at its prompt. Called by `node_core`.
ghost use Rattle.std.specs.Prelude.{◌≡◌, ◌≤◌, ◌+◌, ◌*◌, ◌++◌, length, IfSome, Ok};
ghost use Rattle.ax_address.specs.Callsign as calls;
ghost use Rattle.node_prompt.specs.Replies.{ended, prefix_of};
ghost use Rattle.node_prompt.specs.Replies as replies;

use crate::command::{Command, command_at};
use crate::line_refusal::LineRefusal;
use crate::lines::{add, add_nodes, add_routes, add_routes_to, add_users};
use crate::{Action, Sight, Trouble, View};
use arrayvec::ArrayVec;
use ax_address::{Alias, Call};
use l3_datagram::Message;
use route_table::Route;
use std::marker::Model;

/// The prompt of a node.
///
/// `line` says what is to be done for a line. Where it is `Action::Show`, the node makes the view, and `show` gives its text; where it is
/// `Action::Connect`, the node tries a circuit, and what comes of that is told by `trying`, `connected`, `refused` and `ended`. A prompt
/// goes by the node's alias and call alone: no call takes memory, and none changes it.
#[derive(Clone, Copy, Debug, PartialEq, Eq)]
pub struct Prompt {
    alias: Alias,
    call: Call,
}

impl Model for Prompt {
    ghost use Rattle.node_prompt.specs.Replies.{Prompt};

    ghost Value = { Prompt };

    ghost view = { λ s. record { alias = s.alias; call = s.call } };

    ghost inverse = { λ p. record { alias = p.alias; call = p.call } };
}

impl Prompt {
    /// The prompt of the node of this alias and this call.
    pub fn new(alias: Alias, call: Call) -> Prompt
        ensures { result ≡ record { alias = alias; call = call } }
    {
        Prompt { alias, call }
    }

    /// What is to be done for a line, without the CR that ended it.
    pub fn line(&self, text: &[u8]) -> Action
        ensures answer { result ≡ replies.action_for self.now text.now }
        ensures short { IfSome (replies.said result) (λ text. length text ≤ 98) }
    {
        match command_at(text) {
            Ok(command) => self.action_for(command),
            Err(why) => Action::Say(self.said(refusal_text(why))),
        }
    }

    /// The text for what there is to see.
    pub fn show(&self, view: &View) -> Message
        ensures text { result ≡ replies.view_text self.now view.now }
        ensures short { length result.items ≤ 1143 }
    {
        match view {
            View::Nodes { routes, more } => self.nodes(routes, *more),
            View::RoutesTo { dest, routes } => self.routes_to(dest, routes),
            View::Routes(neighbours) => self.routes(neighbours),
            View::Users(users) => self.users(users),
        }
    }

    /// The text for a destination to which a circuit is tried.
    pub fn trying(&self, dest: &Call) -> Message
        ensures text { result ≡ replies.trying self.now dest.now }
        ensures short { length result.items ≤ 46 }
    {
        self.about("Trying ", dest)
    }

    /// The text for a destination to which a circuit stands.
    pub fn connected(&self, dest: &Call) -> Message
        ensures text { result ≡ replies.connected self.now dest.now }
        ensures short { length result.items ≤ 46 }
    {
        self.about("Connected to ", dest)
    }

    /// The text for a destination to which no circuit stands, and why.
    pub fn refused(&self, dest: &Call, why: Trouble) -> Message
        ensures text { result ≡ replies.refused self.now dest.now why }
        ensures short { length result.items ≤ 46 }
    {
        match why {
            Trouble::NoRoute => self.about("No route to ", dest),
            Trouble::Own => self.said("That is this node\r"),
            Trouble::Full => self.said("No circuits free\r"),
            Trouble::Busy => self.about("Busy from ", dest),
            Trouble::Failure => self.about("Failure with ", dest),
        }
    }

    /// The text for a destination whose circuit has ended.
    pub fn ended(&self, dest: &Call) -> Message
        ensures text { result ≡ replies.disconnected self.now dest.now }
        ensures short { length result.items ≤ 46 }
    {
        self.about("Disconnected from ", dest)
    }

    /// What is to be done for a command.
    fn action_for(&self, command: Command) -> Action
        ensures answer { result ≡ replies.action_of self.now (Ok command) }
        ensures short { IfSome (replies.said result) (λ text. length text ≤ 98) }
    {
        match command {
            Command::Nothing => Action::Nothing,
            Command::Connect(dest) => Action::Connect(dest),
            Command::Nodes => Action::Show(Sight::Nodes),
            Command::RoutesTo(dest) => Action::Show(Sight::RoutesTo(dest)),
            Command::Routes => Action::Show(Sight::Routes),
            Command::Users => Action::Show(Sight::Users),
            Command::Info => Action::Say(self.said("NET/ROM node\r")),
            Command::Bye => Action::Bye(self.said("Bye\r")),
            Command::Help => Action::Say(self.said("CONNECT NODES ROUTES USERS INFO BYE HELP\r")),
        }
    }

    fn nodes(&self, routes: &ArrayVec<Route, 64>, more: usize) -> Message
        ensures text { result ≡ replies.reply self.now (replies.nodes_text routes.now.items more) }
        ensures len { length result.items ≤ 18 + 7 + 64 * 17 + 30 }
    {
        let mut reply = self.begun();
        add_nodes(routes, more, &mut reply);
        reply
    }

    fn routes_to(&self, dest: &Call, routes: &ArrayVec<Route, 3>) -> Message
        ensures text { result ≡ replies.reply self.now (replies.routes_to_text dest.now routes.now.items) }
        ensures len { length result.items ≤ 18 + 21 + 3 * 21 }
    {
        let mut reply = self.begun();
        add_routes_to(dest, routes, &mut reply);
        reply
    }

    fn routes(&self, neighbours: &ArrayVec<Route, 64>) -> Message
        ensures text { result ≡ replies.reply self.now (replies.routes_text neighbours.now.items) }
        ensures len { length result.items ≤ 18 + 8 + 64 * 14 }
    {
        let mut reply = self.begun();
        add_routes(neighbours, &mut reply);
        reply
    }

    fn users(&self, users: &ArrayVec<Call, 64>) -> Message
        ensures text { result ≡ replies.reply self.now (replies.users_text users.now.items) }
        ensures len { length result.items ≤ 18 + 7 + 64 * 10 }
    {
        let mut reply = self.begun();
        add_users(users, &mut reply);
        reply
    }

    /// A reply of one line, that tells of a destination.
    fn about(&self, text: &str, dest: &Call) -> Message
        requires { length text.now ≤ 40 }
        ensures text { result ≡ replies.reply self.now (ended (text.now ++ calls.shown dest.now)) }
        ensures len { length result.items ≤ 18 + length text.now + 10 }
    {
        let mut reply = self.begun();
        add(text, &mut reply);
        add(dest.show().as_str(), &mut reply);
        add("\r", &mut reply);
        reply
    }

    /// A reply of one line, which this is with its end.
    fn said(&self, line: &str) -> Message
        requires { length line.now ≤ 80 }
        ensures text { result ≡ replies.reply self.now line.now }
        ensures len { length result.items ≤ 18 + length line.now }
    {
        let mut reply = self.begun();
        add(line, &mut reply);
        reply
    }

    /// What each reply begins with.
    fn begun(&self) -> Message
        ensures text { result.items ≡ prefix_of self.now }
        ensures len { length result.items ≤ 18 }
    {
        let mut reply = Message::new();
        add(self.alias.show().as_str(), &mut reply);
        add(":", &mut reply);
        add(self.call.show().as_str(), &mut reply);
        add("} ", &mut reply);
        reply
    }
}

fn refusal_text(why: LineRefusal) -> &'static str
    ensures text { result.now ≡ replies.refusal_text why }
    ensures len { length result.now ≤ 80 }
{
    match why {
        LineRefusal::TooLong => "Line too long\r",
        LineRefusal::UnknownCommand => "Unknown command\r",
        LineRefusal::WrongWords => "Wrong words\r",
        LineRefusal::BadCall => "Bad call\r",
    }
}

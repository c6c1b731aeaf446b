//! The replies that show what there is to see. Called by the crates that serve users.
ghost use Rattle.std.specs.Prelude.{◌≡◌, ◌++◌, IfOk, OnOk};
ghost use Rattle.station_members.specs.Standing.{MembersStand};
ghost use Rattle.station_members.specs.States.{State};
ghost use Rattle.station_prompt.specs.Asked as asks;
ghost use Rattle.station_looks.specs.Replies as replies;

use crate::About;
use crate::heard::see_heard;
use crate::info::see_info;
use crate::known::see_destinations;
use crate::links::see_links;
use crate::neighbours::see_neighbours;
use crate::ports::see_ports;
use crate::routes::see_routes_to;
use crate::stats::see_stats;
use crate::users::see_users;
use radio_base::{Moment, NoMemory, TextOut};
use station_members::Members;
use station_prompt::{Command, NodesAsked, reply};
use station_sessions::Session;
use std::alloc::Global;

/// What there is to see of a station.
#[derive(Clone, Copy)]
pub struct Looks<'a> {
    pub alloc: Global,
    pub members: &'a Members,
    pub about: &'a About,
    /// Those of its users, in the order in which they came.
    pub sessions: &'a [Session],
    /// The moment of the first tick.
    pub started: Option<Moment>,
}

impl<'a> Looks<'a> {
    /// The reply to a command that asks for what there is to see, at the prompt of the member at a place; to any other, what the operator
    /// has to say.
    pub fn reply(
        &self,
        member: usize,
        command: &Command<'_>,
        now: Moment,
    ) -> Result<TextOut, NoMemory>
        ensures { IfOk result (λ text. (s : State) → MembersStand self.now.members.now s
            → text ≡ replies.reply (asks.asked command.now) member now.0 (replies.seen_by self.now s)) }
    {
        let mut text = begun(self.alloc, self.members, member)?;
        self.add(command, now, &mut text)?;
        Ok(text)
    }

    fn add(&self, command: &Command<'_>, now: Moment, text: &mut TextOut) -> Result<(), NoMemory>
        ensures { OnOk result ((s : State) → MembersStand self.now.members.now s
            → text.new ≡ text.old ++ replies.seen_text (asks.asked command.now) now.0 (replies.seen_by self.now s)) }
    {
        let (alloc, members, about) = (self.alloc, self.members, self.about);
        match command {
            Command::Nodes(asked) => self.add_nodes(asked, text),
            Command::Routes => see_neighbours(alloc, members, about, text),
            Command::Users => see_users(alloc, members, about, self.sessions, text),
            Command::Ports => see_ports(alloc, members, about, text),
            Command::MHeard(port) => see_heard(alloc, members, about, *port, now, text),
            Command::Links => see_links(alloc, members, about, text),
            Command::Stats => see_stats(alloc, members, self.sessions, self.started, now, text),
            Command::Nothing
            | Command::Connect(_)
            | Command::ConnectByPort { .. }
            | Command::Info
            | Command::Version
            | Command::Mail
            | Command::Bye
            | Command::Help => see_info(alloc, &about.info, text),
        }
    }

    /// Adds the destinations, or the routes to one.
    fn add_nodes(&self, asked: &NodesAsked<'_>, text: &mut TextOut) -> Result<(), NoMemory>
        ensures { OnOk result ((s : State) → MembersStand self.now.members.now s
            → text.new ≡ text.old ++ replies.known_text (asks.nodes_asked asked.now) s) }
    {
        match asked {
            NodesAsked::RoutesTo(word) => see_routes_to(self.alloc, self.members, word, text),
            NodesAsked::Shown | NodesAsked::All | NodesAsked::Beginning(_) => {
                see_destinations(self.alloc, self.members, asked, text)
            }
        }
    }
}

/// The beginning of a reply at the prompt of the member at a place.
pub fn begun(alloc: Global, members: &Members, member: usize) -> Result<TextOut, NoMemory>
    ensures { IfOk result (λ text. (s : State) → MembersStand members.now s → text ≡ replies.begun member s) }
{
    match (members.alias(member), members.call(member)) {
        (Some(alias), Some(call)) => reply(alloc, &alias, &call),
        _ => Ok(TextOut::new(alloc)),
    }
}

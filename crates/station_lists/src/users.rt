//! The users of a station. Called by the crates that run a station.
ghost use Rattle.std.specs.Prelude.{◌≡◌, ◌++◌, IfOk, OnOk, string_bytes};
ghost use Rattle.station_lists.specs.Lists as lists;

use crate::{Place, ShownNode};
use ax_address::Call;
use radio_base::{NoMemory, TextOut};
use std::alloc::{AllocError, Global};

/// Where a user comes from.
#[derive(Clone, Copy, Debug)]
pub enum Where<'a> {
    /// Over a link.
    Link(Place<'a>),
    /// Over a circuit from this node.
    Circuit(Call),
    Console,
}

/// What a user does.
#[derive(Clone, Copy, Debug)]
pub enum Doing {
    Prompt,
    Mail,
    Trying(ShownNode),
    With(ShownNode),
}

/// A user.
#[derive(Clone, Copy, Debug)]
pub struct UserRow<'a> {
    pub call: Call,
    pub from: Where<'a>,
    pub doing: Doing,
}

/// Adds the users.
pub fn add_users(alloc: Global, all: &[UserRow<'_>], reply: &mut TextOut) -> Result<(), NoMemory>
    ensures { OnOk result (reply.new ≡ reply.old ++ lists.users_text all.now) }
{
    reply.text("Users:\r")?;
    for row in all {
        let line = line_of(alloc, row)?;
        reply.text(line.as_str())?;
    }
    Ok(())
}

/// CALL WHERE DOING
fn line_of(alloc: Global, row: &UserRow<'_>) -> Result<String, AllocError>
    ensures { IfOk result (λ s. string_bytes s ≡ lists.user_line row.now) }
{
    match row.from {
        Where::Link(place) => line_from(alloc, &row.call, place.text(), &row.doing),
        Where::Circuit(partner) => line_from(alloc, &row.call, partner.show().as_str(), &row.doing),
        Where::Console => line_from(alloc, &row.call, "console", &row.doing),
    }
}

fn line_from(alloc: Global, call: &Call, from: &str, doing: &Doing) -> Result<String, AllocError>
    ensures { IfOk result (λ s. string_bytes s ≡ lists.line_from call.now from.now doing.now) }
{
    let call = call.show();
    let call = call.as_str();
    match doing {
        Doing::Prompt => format!(in alloc; "{call} {from} prompt\r"),
        Doing::Mail => format!(in alloc; "{call} {from} mail\r"),
        Doing::Trying(node) => {
            let node = node.text();
            let node = node.as_str();
            format!(in alloc; "{call} {from} trying {node}\r")
        }
        Doing::With(node) => {
            let node = node.text();
            let node = node.as_str();
            format!(in alloc; "{call} {from} with {node}\r")
        }
    }
}

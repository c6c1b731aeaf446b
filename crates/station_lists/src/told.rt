//! What a user is told in one line. Called by the crates that run a station.
ghost use Rattle.std.specs.Prelude.{◌≡◌, ◌++◌, OnOk};
ghost use Rattle.station_lists.specs.Telling as telling;

use crate::ShownNode;
use radio_base::{NoMemory, TextOut};

/// What a user is told in one line.
#[derive(Clone, Copy, Debug)]
pub enum Told<'a> {
    /// The station's name.
    Welcome(&'a [u8]),
    Trying(ShownNode),
    Connected(ShownNode),
    Busy(ShownNode),
    Failure(ShownNode),
    /// The far side was closed over there, and nothing was lost.
    Disconnected(ShownNode),
    /// The far side has ended otherwise.
    LinkFailed(ShownNode),
    /// No route leads to what was typed.
    NoRoute(&'a [u8]),
    ThisNode,
    Stopped,
    NoCircuits,
    NoMail,
    NoRoom,
    Idle,
    GoingDown,
    Bye,
    LineTooLong,
    UnknownCommand(&'a [u8]),
    /// The forms of the command's line.
    WrongWords(&'static str),
    BadCall(&'a [u8]),
    NoSuchPort(&'a [u8]),
    /// A text of the operator or of the program, as it is.
    Said(&'a [u8]),
}

/// Adds what a user is told, as a line.
pub fn add_told(told: &Told<'_>, reply: &mut TextOut) -> Result<(), NoMemory>
    ensures { OnOk result (reply.new ≡ reply.old ++ telling.told_text told.now) }
{
    match told {
        Told::Welcome(name) => add_about("Welcome to ", name, reply),
        Told::Trying(node) => add_named("Trying ", node, "\r", reply),
        Told::Connected(node) => add_named("Connected to ", node, "\r", reply),
        Told::Busy(node) => add_named("Busy from ", node, "\r", reply),
        Told::Failure(node) => add_named("Failure with ", node, "\r", reply),
        Told::Disconnected(node) => add_named("Disconnected from ", node, "\r", reply),
        Told::LinkFailed(node) => add_named(
            "Link to ",
            node,
            " failed: what was under way may be lost\r",
            reply,
        ),
        Told::NoRoute(typed) => add_about("No route to ", typed, reply),
        Told::UnknownCommand(word) => add_about("Unknown command: ", word, reply),
        Told::WrongWords(forms) => add_about("Wrong words: ", forms.as_bytes(), reply),
        Told::BadCall(word) => add_about("Bad call: ", word, reply),
        Told::NoSuchPort(word) => add_about("No such port: ", word, reply),
        Told::Said(text) => add_about("", text, reply),
        Told::ThisNode => reply.text("That is this node\r"),
        Told::Stopped => reply.text("Stopped\r"),
        Told::NoCircuits => reply.text("No circuits free\r"),
        Told::NoMail => reply.text("No mail here\r"),
        Told::NoRoom => reply.text("No room here\r"),
        Told::Idle => reply.text("Idle too long\r"),
        Told::GoingDown => reply.text("This node is going down\r"),
        Told::Bye => reply.text("Bye\r"),
        Told::LineTooLong => reply.text("Line too long\r"),
    }
}

/// Adds a line of two parts.
fn add_about(front: &str, back: &[u8], reply: &mut TextOut) -> Result<(), NoMemory>
    ensures { OnOk result (reply.new ≡ reply.old ++ telling.about front.now back.now) }
{
    reply.text(front)?;
    reply.octets(back)?;
    reply.text("\r")?;
    Ok(())
}

/// Adds a line that names a node.
fn add_named(front: &str, node: &ShownNode, back: &str, reply: &mut TextOut) -> Result<(), NoMemory>
    ensures { OnOk result (reply.new ≡ reply.old ++ telling.named front.now node.now back.now) }
{
    reply.text(front)?;
    reply.text(node.text().as_str())?;
    reply.text(back)?;
    Ok(())
}

//! A user asks for a link. Called by `asking`.
ghost use Rattle.std.specs.Prelude.{◌≡◌, ◌≤◌, length, IfOk, OnOk};
ghost use Rattle.text_lines.specs.Lines.{texts};
ghost use Rattle.ax_address.specs.Callsign.{call_at};
ghost use Rattle.node_core.specs.Acts.{OpenLink};
ghost use Rattle.station_members.specs.States as members;
ghost use Rattle.station_places.specs.Sides as at_sides;
ghost use Rattle.station_places.specs.Sides.{SidesGo, SidesState, SidesStand};
ghost use Rattle.station_users.specs.Linking as linking;
ghost use Rattle.station_users.specs.Standing.{AtGoes};

use crate::connecting::try_at;
use crate::telling::answer;
use crate::turn::Turn;
use ax_address::{Address, Call, Path, address_of};
use node_core::{ActRefusal, UserAct};
use radio_base::{Moment, NoMemory};
use station_lists::{ShownNode, Told};
use station_looks::{About, member_on};
use station_places::Sides;
use station_prompt::capitals_of;
use station_sessions::{Place, Session};
use std::alloc::Global;

/// `Connect PORT X Via D D`: no such port; no call; a member; none stands there; and else it is tried.
#[tactic(auto, unfolding(crate::specs::Linking::connect_by_port))]
pub(crate) fn connect_by_port(
    word: &[u8],
    to: &[u8],
    via: &[&[u8]],
    about: &About,
    session: &mut Session,
    sides: &mut Sides,
    turn: Turn,
) -> Result<(), NoMemory>
    ensures { OnOk result
        (AtGoes (linking.connect_by_port word.now to.now (texts via.now) about.now turn.moment)
        sides.old session.old sides.new session.new) }
{
    match about.port_named(word) {
        Some(port) => to_call(port, to, via, about, session, sides, turn),
        None => answer(session, sides, &Told::NoSuchPort(word), turn),
    }
}

fn to_call(
    port: u8,
    to: &[u8],
    via: &[&[u8]],
    about: &About,
    session: &mut Session,
    sides: &mut Sides,
    turn: Turn,
) -> Result<(), NoMemory>
    ensures { OnOk result
        (AtGoes (linking.to_call (call_at to.now) port to.now (texts via.now) about.now turn.moment)
        sides.old session.old sides.new session.new) }
{
    match Call::read(to) {
        Ok(peer) => over(via, port, &peer, about, session, sides, turn),
        Err(_) => answer(session, sides, &Told::BadCall(to), turn),
    }
}

fn over(
    via: &[&[u8]],
    port: u8,
    peer: &Call,
    about: &About,
    session: &mut Session,
    sides: &mut Sides,
    turn: Turn,
) -> Result<(), NoMemory>
    ensures { OnOk result
        (AtGoes (linking.over (linking.path_over (texts via.now)) port peer.now about.now turn.moment)
        sides.old session.old sides.new session.new) }
{
    match path_over(via) {
        Ok(path) => to_peer(port, peer, path, about, session, sides, turn),
        Err(word) => answer(session, sides, &Told::BadCall(word), turn),
    }
}

fn to_peer(
    port: u8,
    peer: &Call,
    path: Path,
    about: &About,
    session: &mut Session,
    sides: &mut Sides,
    turn: Turn,
) -> Result<(), NoMemory>
    ensures { OnOk result
        (AtGoes (linking.to_peer port peer.now path about.now turn.moment) sides.old session.old sides.new session.new) }
{
    if sides.members.place_of(peer).is_some() {
        answer(session, sides, &Told::ThisNode, turn)?;
        Ok(())
    } else {
        by_member(port, peer, path, about, session, sides, turn)?;
        Ok(())
    }
}

/// By the member where the user is, or by the first one on the port.
fn by_member(
    port: u8,
    peer: &Call,
    path: Path,
    about: &About,
    session: &mut Session,
    sides: &mut Sides,
    turn: Turn,
) -> Result<(), NoMemory>
    ensures { OnOk result
        (AtGoes (linking.by_member port peer.now path about.now turn.moment) sides.old session.old sides.new session.new) }
{
    match member_on(&sides.members, session.member(), port) {
        Some(member) => {
            try_link(member, port, peer, path, session, sides, turn)?;
            Ok(())
        }
        None => {
            say_no_port(port, about, session, sides, turn)?;
            Ok(())
        }
    }
}

/// No member stands on a port: the user is told its name.
fn say_no_port(
    port: u8,
    about: &About,
    session: &mut Session,
    sides: &mut Sides,
    turn: Turn,
) -> Result<(), NoMemory>
    ensures { OnOk result
        (AtGoes (linking.say_no_port port about.now turn.moment) sides.old session.old sides.new session.new) }
{
    let name = port_told(port, about, turn.alloc)?;
    answer(session, sides, &Told::NoSuchPort(&name), turn)?;
    Ok(())
}

/// How a port is told: by its name, in capital letters.
fn port_told(port: u8, about: &About, alloc: Global) -> Result<Vec<u8>, NoMemory>
    ensures { IfOk result (λ name. name.items ≡ linking.port_told port about.now) }
{
    match about.names().get(port as usize) {
        Some(name) => capitals_of(alloc, name.as_bytes()),
        None => Ok(Vec::new(alloc)),
    }
}

/// A member sets up a link on a port.
#[tactic(auto, unfolding(crate::specs::Linking::try_link))]
fn try_link(
    member: usize,
    port: u8,
    peer: &Call,
    path: Path,
    session: &mut Session,
    sides: &mut Sides,
    turn: Turn,
) -> Result<(), NoMemory>
    ensures { OnOk result
        (AtGoes (linking.try_link member port peer.now path turn.moment) sides.old session.old sides.new session.new) }
{
    let hop = first_hop(peer, &path);
    let came = set_up(member, peer, path, sides, turn.moment)?;
    link_asked(came, member, port, &hop, peer, session, sides, turn)?;
    Ok(())
}

fn link_asked(
    came: SetUp,
    member: usize,
    port: u8,
    hop: &Call,
    peer: &Call,
    session: &mut Session,
    sides: &mut Sides,
    turn: Turn,
) -> Result<(), NoMemory>
    ensures { OnOk result
        (AtGoes (linking.link_asked came member port hop.now peer.now turn.moment)
        sides.old session.old sides.new session.new) }
{
    match came {
        SetUp::Tried => link_tried(member, port, hop, peer, session, sides, turn),
        SetUp::Full => answer(session, sides, &Told::NoCircuits, turn),
        SetUp::Busy => say_busy(peer, session, sides, turn),
    }
}

/// The user is told that a link with a peer stands.
fn say_busy(
    peer: &Call,
    session: &mut Session,
    sides: &mut Sides,
    turn: Turn,
) -> Result<(), NoMemory>
    ensures { OnOk result (AtGoes (linking.say_busy peer.now turn.moment) sides.old session.old sides.new session.new) }
{
    answer(session, sides, &Told::Busy(by_call(peer)), turn)?;
    Ok(())
}

/// What comes of setting a link up.
#[derive(Clone, Copy, Debug, PartialEq, Eq)]
pub(crate) enum SetUp {
    Tried,
    /// No more links can stand.
    Full,
    /// One with that peer stands.
    Busy,
}

fn set_up(
    member: usize,
    peer: &Call,
    path: Path,
    sides: &mut Sides,
    now: Moment,
) -> Result<SetUp, NoMemory>
    ensures answer { IfOk result (λ set_up. (s : SidesState) → SidesStand sides.old s
        → set_up ≡ linking.set_up (members.act_answer now member (OpenLink peer.now path) s.members)) }
    ensures goes { OnOk result (SidesGo (at_sides.act now member (OpenLink peer.now path)) sides.old sides.new) }
{
    match sides
        .members
        .act(member, &UserAct::OpenLink { to: *peer, path }, now)
    {
        Ok(_) => Ok(SetUp::Tried),
        Err(ActRefusal::NoMemory) => Err(NoMemory),
        Err(ActRefusal::Full) => Ok(SetUp::Full),
        Err(_) => Ok(SetUp::Busy),
    }
}

/// The member remembers the first hop with that port, and the user is told that it is tried.
fn link_tried(
    member: usize,
    port: u8,
    hop: &Call,
    peer: &Call,
    session: &mut Session,
    sides: &mut Sides,
    turn: Turn,
) -> Result<(), NoMemory>
    ensures { OnOk result
        (AtGoes (linking.link_tried member port hop.now peer.now turn.moment) sides.old session.old sides.new session.new) }
{
    remember(member, hop, port, sides)?;
    let place = Place::Link {
        member,
        peer: *peer,
    };
    try_at(place, &by_call(peer), session, sides, turn)?;
    Ok(())
}

fn remember(member: usize, hop: &Call, port: u8, sides: &mut Sides) -> Result<(), NoMemory>
    ensures { OnOk result (SidesGo (at_sides.at_members (members.remember member hop.now port)) sides.old sides.new) }
{
    sides.members.remember(member, hop, port)
}

fn by_call(call: &Call) -> ShownNode
    ensures { result ≡ linking.by_call call.now }
{
    ShownNode {
        alias: None,
        call: *call,
    }
}

/// The path over none, one or two repeaters, or the first word that is no call.
fn path_over<'a>(via: &[&'a [u8]]) -> Result<Path, &'a [u8]>
    ensures { linking.path_read result ≡ linking.path_over (texts via.now) }
{
    match via {
        [] => Ok(Path::new()),
        [first] => over_one(first),
        [first, second, ..] => over_two(first, second),
    }
}

fn over_one(word: &[u8]) -> Result<Path, &[u8]>
    ensures { linking.path_read result ≡ linking.over_one (linking.read_repeater word.now) }
{
    match Call::read(word) {
        Ok(call) => Ok(path_of(&[address_of(call, false)])),
        Err(_) => Err(word),
    }
}

fn over_two<'a>(first: &'a [u8], second: &'a [u8]) -> Result<Path, &'a [u8]>
    ensures { linking.path_read result
        ≡ linking.over_two (linking.read_repeater first.now) (linking.read_repeater second.now) }
{
    match (Call::read(first), Call::read(second)) {
        (Err(_), _) => Err(first),
        (Ok(_), Err(_)) => Err(second),
        (Ok(one), Ok(other)) => {
            Ok(path_of(&[address_of(one, false), address_of(other, false)]))
        },
    }
}

fn path_of(repeaters: &[Address]) -> Path
    requires { length repeaters.now ≤ 8 }
    ensures { result.items ≡ repeaters.now }
{
    let mut path = Path::new();
    let _ = path.try_extend_from_slice(repeaters);
    path
}

/// The first repeater, else the peer.
fn first_hop(peer: &Call, path: &Path) -> Call
    ensures { result ≡ linking.first_hop peer.now path.now }
{
    match path.first() {
        Some(first) => first.call,
        None => *peer,
    }
}

//! Laws of the definitions of a node's links alone. Called by `table`, and by the laws of `node_core`.
ghost use Rattle.std.specs.Prelude.{◌≡◌};
ghost use Rattle.link_table.specs.Calls.{AnsweredAsDown};
ghost use Rattle.link_table.specs.Called.{OnlyFramesCall};
ghost use Rattle.link_table.specs.Ending.{EndsAreTold, TextsAreOfLinks};
ghost use Rattle.link_table.specs.Kept.{KeepsItsShare, CountsPayloads, OffersLeave, TakesLower};
ghost use Rattle.link_table.specs.Reaching.{FramesAreSpelled};
ghost use Rattle.link_table.specs.Rooms.{OffersTakeOne, RoomTakesTexts, TextsAreFew};
ghost use Rattle.link_table.specs.Laws.{CarriesByWeaker, CarriesWhatWasOffered, NewLinkTakes, NumberedWithoutLink, OnlyFramesBring, PiecesAreTheText, SettledAll, TextsAreGiven};

use crate::texts::MAX_TEXT;
use crate::{MAX_LINKS, MAX_ORIGINATED, MAX_PATHS};

/// Where no link stands, a command that sets none up is answered as by a link that is Down.
pub fn answered_as_down()
    ensures { AnsweredAsDown }
{}

/// Each datagram that waits came in a frame from its neighbour, and each frame with the PID of NET/ROM carries a datagram
/// that was offered to the peer to which it goes: every call keeps it. Where the links of the node and the set-ups that come
/// are of one modulus, all links stay of it, and so is each frame with sequence numbers that goes out.
pub fn carried()
    ensures { CarriesWhatWasOffered }
{
    ax_link::laws::steps();
    ax_link::laws::link_safe();
}

/// The same by weaker properties, as those of more that was sent. And where no link stands with its source, a frame with sequence numbers
/// brings nothing, whatever it was read as: so nothing is asked of it.
pub fn carried_by_weaker()
    ensures weaker { CarriesByWeaker }
    ensures numbered { NumberedWithoutLink }
{
    carried();
}

/// Each frame that waits to be fetched can be written, and so be read: its addresses are calls and its parts those of its kind; and where the
/// links of the node and the set-ups that come are of one modulus, so are those that go out. Every call keeps it, where a datagram is offered
/// to a call and what comes was read.
pub fn frames_are_spelled()
    ensures { FramesAreSpelled }
{
    ax_link::laws::steps();
    ax_link::laws::link_safe();
    ax_link::laws::frames_can_be_written();
}

/// After a frame nothing is left in the inbox, or a text stands first there.
pub fn settled_all()
    ensures { SettledAll }
{}

/// A datagram for a peer without a link is taken, where fewer than 64 links stand.
pub fn new_link_takes()
    ensures { NewLinkTakes }
{}

/// An offer leaves all that waits for the node but frames, and all payloads that came. Taking a text that waits leaves fewer of
/// them. What a table keeps has as many as each table of links for which it stands.
pub fn payloads()
    ensures offers { OffersLeave }
    ensures takes { TakesLower }
    ensures kept { CountsPayloads }
{}

/// Only a frame that comes and a text that is taken add to the datagrams that wait, and only pairs with the frame's source or
/// the text's peer.
pub fn only_frames_bring()
    ensures { OnlyFramesBring }
{}

/// A text that isn't refused is given to the link whole, in payloads one behind the other.
pub fn texts_are_given()
    ensures { TextsAreGiven }
{}

/// A text of at most 8,192 bytes is at most 33 payloads, so each link with room for 33 takes it. A datagram that is offered takes the
/// place of one payload at most, at the link with the peer to which it goes, and leaves the links with others as they are. So a link
/// with room for 34 takes a text after a datagram to its own peer, and any other with room for 33 does after one to another peer.
pub fn room()
    ensures few { TextsAreFew }
    ensures texts { RoomTakesTexts }
    ensures offers { OffersTakeOne }
{}

/// A node's links keep at most 98,175 octets each, with what is joined from segments. Frames that wait to be fetched aren't counted,
/// and datagrams that weren't collected are counted beside.
pub fn kept()
    ensures { KeepsItsShare }
{
    ax_link::laws::kept();
    ax_segment::laws::kept_within();
}

/// In a table of at most 64 links, of which none is Down and no two are with one peer, so it stays by every call; and where a link stood with a
/// peer one stands, or it waits to be told that it has ended. A text waits only at a link that stands.
pub fn ends_are_told()
    ensures told { EndsAreTold }
    ensures texts { TextsAreOfLinks }
{}

/// In such a table no call but `arrive` changes who has set a link up, and a link that the node itself has made is none of its peer's.
pub fn only_frames_call()
    ensures { OnlyFramesCall }
{}

/// The pieces of 256 bytes as which a text goes over a link of modulo 8 are the text.
pub fn pieces_are_the_text()
    ensures { PiecesAreTheText }
{}

/// The most links of a node, the most peers with repeaters of their own, the most repeaters to one, and the most bytes of a text.
pub fn numbers()
    ensures links { MAX_LINKS ≡ 64 }
    ensures paths { MAX_PATHS ≡ 16 }
    ensures repeaters { MAX_ORIGINATED ≡ 2 }
    ensures text { MAX_TEXT ≡ 8192 }
{}

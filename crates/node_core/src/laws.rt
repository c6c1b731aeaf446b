//! Laws of a whole node, of its definitions alone: that it settles, and what its inputs are to circuits, datagrams and sessions. Called by
//! `node` and `settling`, and by `node_cmd` and the laws of the replay.
ghost use Rattle.circuit_table.specs.Pumps.{TellsLess};
ghost use Rattle.link_table.specs.Kept.{CountsPayloads, OffersLeave, TakesLower};
ghost use Rattle.node_core.specs.Sound.{KeepsItsShare};
ghost use Rattle.node_core.specs.Bridged.{SessionsBounded, SessionsBridged, SessionsClosedLast, SessionsReadTheirEnds, SessionsWriteTheirEnds, UsersAreFew};
ghost use Rattle.node_core.specs.Deeds.{EndsAreNumbered, EndsShowDeeds, EndsShowLists, ListsStayElsewhere, SessionsApart, SessionsNoteDeeds};
ghost use Rattle.node_core.specs.Carried.{ActsCarry, BytesCarry, CarriedFurther, TicksCarry};
ghost use Rattle.node_core.specs.Fetching.{FetchesAllEntries, FetchesAllFrames, FramesInOrder};
ghost use Rattle.node_core.specs.Runs.{ActsRun, BytesRun, InputsAreSteps, TicksRun};
ghost use Rattle.node_core.specs.Laws.{InputsSettle, NothingLeftAfterInputs};

/// What follows an input is a turn, and where that did something a turn again, until one does nothing: from each state these come to one
/// that does, and to no other. So do the telling and the dropping of texts in a turn. Where whoever holds the node serves its users, serving
/// them does nothing. And after an input nothing is left to be done.
pub fn settles()
    ensures settles { InputsSettle }
    ensures nothing { NothingLeftAfterInputs }
{
    parts();
}

/// Each input of a node that is at rest is inputs of its circuits, each of them one that a run of sets may have, and none that starts the node again:
/// its new entries tell what these inputs tell, in their order, and it is at rest again. Its own call stays, and ends are made with one number after
/// another. Where no user is served, these inputs write what the node's own user has written, and nothing else.
pub fn inputs_are_circuit_runs()
    ensures bytes { BytesRun }
    ensures ticks { TicksRun }
    ensures acts { ActsRun }
{
    settles();
    ax_address::laws::call_texts();
}

/// Of a node in a network whose links are of one modulus, where all that comes was in the air: each input of it is inputs of its circuits
/// as above. Each datagram that is handed up to them was carried to the node by a frame in the air. Each that its links then hold, and
/// each that it puts out with NET/ROM's PID, is one that the node itself has sent; or one that was carried to it, which it passes on with
/// one less to live and else as it came; or one in the air that it repeats.
pub fn datagrams_are_carried()
    ensures bytes { BytesCarry }
    ensures ticks { TicksCarry }
    ensures acts { ActsCarry }
{
    settles();
    ax_address::laws::call_texts();
    link_table::laws::carried();
    link_table::laws::carried_by_weaker();
    link_table::laws::frames_are_spelled();
    ax_frame::laws::head_spelling();
    ax_frame::laws::frame_spelling();
    l3_datagram::laws::one_hop_on();
}

/// What a node carries is such, too, where more was sent and more was in the air, as its frames are fetched and its entries told, and as repeaters
/// and qualities are set; each of its frames is such, and what such a frame carries is as its octets are read; a broadcast of a call carries nothing; and a node
/// starts so.
pub fn carried_further()
    ensures { CarriedFurther }
{
    ax_frame::laws::frame_spelling();
    link_table::laws::carried();
    link_table::laws::carried_by_weaker();
    link_table::laws::frames_are_spelled();
    l3_datagram::laws::one_hop_on();
}

/// Inputs of the set at one node are steps of a run of several nodes' sets: they tell what they tell of that set alone, and change no other.
pub fn inputs_are_steps()
    ensures { InputsAreSteps }
{}

/// Frames and entries are fetched in their order, and where as many were fetched as there were none is left, and nothing else has changed.
pub fn fetching_empties()
    ensures order { FramesInOrder }
    ensures frames { FetchesAllFrames }
    ensures entries { FetchesAllEntries }
{}

/// Of every session of every node with a call that inputs may have led to, where circuits are asked for with calls: while its circuit
/// stands, each text that was taken from the user was written to the circuit whole, as one message and in order, but for what is left
/// of the text that was taken last; and what was taken from the circuit was given to the user, in order, where the user's side hasn't
/// ended and the user hasn't said BYE. What alone keeps a message from that is said in `Bridged`. To the end of its circuit just that
/// was ever written, and of what that end received just that was ever taken. No text waits for a circuit that the session has closed.
/// And a session keeps at most 8,192 bytes and two replies.
pub fn bridged()
    ensures bridged { SessionsBridged }
    ensures ends { SessionsWriteTheirEnds }
    ensures read { SessionsReadTheirEnds }
    ensures closed { SessionsClosedLast }
    ensures bounded { SessionsBounded }
{
    parts();
    link_table::laws::carried();
    ax_address::laws::call_texts();
}

/// As a session with a circuit is served, in each state: the list of what was given to its user grows by just the messages of the circuit
/// that were written to the user's end or sent over the user's link; and while the circuit stands, the list of what was taken from the user
/// grows by just the texts that were taken of what that end received or that link brought. Nothing is done then but at these and at the
/// circuit's end, which isn't the user's; and to each end just what was written by that is written more, and just what was taken is taken
/// more. So of a user at an end both lists grow as that end shows. So it is where ends are numbered, and a circuit's end isn't its user's:
/// that holds of every node with a call that inputs may have led to. All else that an input is made of leaves these lists, but that they
/// begin anew as a circuit is asked for, and that of texts once more as it stands.
pub fn deeds_noted()
    ensures served { SessionsNoteDeeds }
    ensures ends { EndsShowDeeds }
    ensures lists { EndsShowLists }
    ensures elsewhere { ListsStayElsewhere }
    ensures apart { SessionsApart }
    ensures numbered { EndsAreNumbered }
{
    parts();
    link_table::laws::carried();
    ax_address::laws::call_texts();
}

/// Between two inputs a node keeps at most 140,000 octets for each link, 100,000 for each end, 236 for each fragment of the windows of its ends,
/// 64 for each usable pair, and 16,384 beside. It has at most 64 links and 64 ends, and serves no more users than these; and at most 16,384
/// usable pairs, as `RouteTable::live` says of each table.
pub fn kept()
    ensures { KeepsItsShare }
{
    link_table::laws::kept();
    circuit_table::laws::kept();
    users_are_few();
}

/// A node serves at most as many users as it has links and ends, of which there are at most 64 links: each user is at a link or at an end of
/// its own, or has asked for a circuit of which the end is held.
pub fn users_are_few()
    ensures { UsersAreFew }
{
    parts();
    link_table::laws::carried();
    link_table::laws::ends_are_told();
    ax_address::laws::call_texts();
}

/// What it rests on: a datagram that is handed down brings nothing up, a text that is taken leaves fewer payloads, which the code
/// counts alike, and each thing that the circuits tell leaves less untold.
pub(crate) fn parts()
    ensures offers { OffersLeave }
    ensures takes { TakesLower }
    ensures kept { CountsPayloads }
    ensures less { TellsLess }
{
    link_table::laws::payloads();
    circuit_table::laws::telling_ends();
}

//! What is promised of every network. Called by `laws` of net_replay.
ghost use Rattle.net_laws.specs.Promises.{NetworksAreSound, WorldsAreRuns, EachTellsRetries, InTimeIsSafe, InTimeMailIsOnce};
ghost use Rattle.net_laws.specs.Conversations.{InTimeUsersAgree};
ghost use Rattle.net_laws.specs.Datagrams.{DatagramsSent};
ghost use Rattle.net_laws.specs.Hops.{HopsTakeOne};
ghost use Rattle.net_laws.specs.Logs.{TablesOfLogs};
ghost use Rattle.net_laws.specs.Returning.{CopiesAloneReturn};

/// In every network of a file the nodes' circuits start as circuits do; a circuit is asked for with a call, and a node starts again at a pair.
pub fn networks_are_sound()
    ensures { NetworksAreSound }
{
    network_file::laws::networks_fit();
}

/// What happens in a network is a run of its nodes' circuits: at each line they have come by some steps to what the world has of them, and what
/// these steps told is what the world has told of circuits.
pub fn worlds_are_circuit_runs()
    ensures { WorldsAreRuns }
{
    networks_are_sound();
    node_core::laws::inputs_are_circuit_runs();
    node_core::laws::inputs_are_steps();
    network_file::laws::networks_fit();
}

/// Where no datagram and no pair comes back too late, each circuit user has received, at each line, exactly a beginning of its partner's
/// messages, with every acknowledged one, and all of them after the partner's orderly close: of the ends that the nodes know of when the
/// line is done, by what was told until then (`SafeNow`), and at each moment within the line, by the steps that led there.
pub fn in_time_is_safe()
    ensures { InTimeIsSafe }
{
    networks_are_sound();
    worlds_are_circuit_runs();
    circuit_set::laws::circuits_safe();
    circuit_set::laws::book_tells_what_is_late();
    circuit_set::laws::narrow_is_timely();
    network_file::laws::networks_fit();
}

/// Where no datagram and no pair comes back too late: at each line, and after each message that an agent takes within a line, of any two
/// nodes that keep mail, what one has stored from the other has different numbers, and each is as it was posted there for it; and each
/// mail that was posted there for it is queued there or stored here.
pub fn mail_in_time()
    ensures { InTimeMailIsOnce }
{
    networks_are_sound();
    node_core::laws::inputs_are_circuit_runs();
    node_core::laws::inputs_are_steps();
    circuit_set::laws::ends_wrote_by_writes();
    circuit_set::laws::ends_stay();
    circuit_set::laws::partners_face();
    circuit_set::laws::circuits_safe();
    circuit_set::laws::book_tells_what_is_late();
    circuit_set::laws::partners_stay();
    circuit_set::laws::narrow_is_timely();
    network_file::laws::networks_fit();
    node_mail::laws::mail_once();
}

/// Where no datagram and no pair comes back too late: at each line, of each user at a prompt whose circuit stands, what the user was given is a
/// beginning of what the other end of the circuit wrote, where the user's side hasn't ended and the user hasn't said BYE; and what the other end
/// received is a beginning of the texts that were taken from the user. A circuit without another end has given its user nothing. A session that was
/// refused since the numbers of fragments have come to their end is left out.
pub fn users_agree()
    ensures { InTimeUsersAgree }
{
    networks_are_sound();
    worlds_are_circuit_runs();
    circuit_set::laws::circuits_safe();
    circuit_set::laws::book_tells_what_is_late();
    circuit_set::laws::partners_stay();
    circuit_set::laws::narrow_is_timely();
    network_file::laws::networks_fit();
    node_core::laws::bridged();
    node_core::laws::fetching_empties();
}

/// At each line of every network: in what is left of a replay of the lines up to there each node's table holds the usable routes of its
/// log, and nothing else (`StandsFor` in `specs/Held.antt` of `route_table`). These lines by themselves come to what the whole file has
/// come to there.
pub fn tables_of_logs()
    ensures { TablesOfLogs }
{}

/// Each hop takes one from the time to live. So a datagram that comes with the time to live that it was sent with has come from its origin, which put it
/// in the air for that node: a node that passes it on and leaves the time to live as it is makes that false.
pub fn hops_take_one()
    ensures { HopsTakeOne }
{}

/// In a network whose nodes all have one modulus, whatever is lost, repeated, delayed or reordered and whichever node starts again: each
/// datagram that reaches its node, so that the circuits there are handed it, was sent before by the node that is its origin, by an end of
/// it or by its set as a refusal; so was each that an end heeds, as the network's events tell, and that by an end. Frames in the air
/// brought it, over nodes of which each took one from its time to live, changed nothing else and passed it on; its time to live and the
/// number of these nodes add up to the time to live with which it was sent. And one that an end heeds is from the node of its partner, and
/// names that end's pair. In the run of the nodes' circuits that this is said of, a node starts again only where a line says so.
pub fn datagrams_sent()
    ensures { DatagramsSent }
{
    networks_are_sound();
    node_core::laws::inputs_are_circuit_runs();
    node_core::laws::inputs_are_steps();
    node_core::laws::datagrams_are_carried();
    node_core::laws::carried_further();
    circuit_set::laws::sets_send_their_own();
    circuit_set::laws::sets_heed_partners();
    circuit_set::laws::sets_refuse_under_0();
    ax_address::laws::net_call_spelling();
    network_file::laws::networks_fit();
    kiss_framing::laws::fend_parts();
    kiss_framing::laws::frames_read_back();
    kiss_framing::laws::long_frames();
}

/// Whatever comes back too late: at each line, an end was told that its retries are used up exactly where there was one expiry more than
/// there are retries, counted over what came to it.
pub fn retries_are_told()
    ensures { EachTellsRetries }
{
    networks_are_sound();
    worlds_are_circuit_runs();
    circuit_set::laws::retries_are_told();
}

/// Where all nodes of a network have one modulus (`IsOfModulus`), whatever is lost, repeated, delayed or reordered: up to its first line
/// that starts a node again, and while no node has given more than the 48,960 pairs of which none stands twice, what is told of circuits
/// is fresh by the notes of it (`FreshBut`), but where a copy of a connect request opens an end again, after the one that it opened
/// earlier was told how it ended. Behind the first such opening the notes alone are spoken of.
pub fn copies_alone_return()
    ensures { CopiesAloneReturn }
{
    networks_are_sound();
    datagrams_sent();
    circuit_set::laws::copies_alone_return();
    network_file::laws::networks_fit();
}

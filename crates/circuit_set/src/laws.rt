//! What is promised of circuits over every schedule, and the parts on which it stands. Called by `circuit_verdict` and the laws of the
//! replay.
ghost use Rattle.std.specs.Prelude.{◌≡◌, ℕ, ◌+◌, ◌*◌, ◌≤◌, ◌<◌, ◌%◌};
ghost use Rattle.circuit_set.specs.Lines.{Line, Infos, overtakers_since, at_place};
ghost use Rattle.circuit_set.specs.Laws.{OneCircuitSafe};
ghost use Rattle.circuit_table.specs.Pairs.{PairsDiffer};
ghost use Rattle.circuit_table.specs.Givings.{MadeAreGiven, MadeDiffer};
ghost use Rattle.circuit_table.specs.Kept.{HoldsFew};
ghost use Rattle.circuit_set.specs.Naming.{PairNamesOne, RequestersSend};
ghost use Rattle.circuit_set.specs.Owned.{EndsAreOwned};
ghost use Rattle.circuit_set.specs.Safe.{RetriesAreTold, CircuitsSafe, PartnersLast};
ghost use Rattle.circuit_set.specs.Returning.{CopiesAloneReturn};
ghost use Rattle.circuit_set.specs.Facing.{EndsStay, PartnersFace};
ghost use Rattle.circuit_set.specs.Writings.{EndsWroteByWrites};
ghost use Rattle.circuit_set.specs.Heedings.{SetsHeedPartners};
ghost use Rattle.circuit_set.specs.Refusals.{RefusalsAreUnheeded, SetsRefuseUnder0, StartsAreNumbered};
ghost use Rattle.circuit_set.specs.Sendings.{SetsSendTheirOwn};
ghost use Rattle.circuit_table.specs.Pumps.{ActsGo, HearsGo, HearsLostGoes, TellsGo, TicksGo};
ghost use Rattle.circuit_set.specs.Examples.{CopyReturns, ForgedIsUnsafe, OneMoreIsTooMany, RestartIsStale};
ghost use Rattle.circuit_set.specs.ByBook.{FreshByBook, PartnersByBook, TimelyBy128, TimelyByBook};
ghost use Rattle.circuit_set.specs.ByBook.{HeldByBook, OvertakenByBook, TooManyByBook, UnaskedByBook, UnsentByBook};
ghost use Rattle.circuit_set.specs.NotedRuns.{NarrowIsTimely, PartnersStay, WindowsFit};

// (these stand with the machine, since the node's proofs call them)
pub use circuit_table::laws::{kept, telling_ends};

/// At each moment of every run of several nodes' ends, in which any datagram whatever may come to any node and any node may
/// start again, and which is timely and fresh (`IsTimely` and `IsFresh` in `specs/TooLate.antt`): each end that has a partner has
/// received a beginning of what its partner wrote, with every message that is acknowledged in it, and all of it after the partner's
/// orderly close; an end that has none has received nothing; and an end is told that its retries are used up exactly where there was one
/// expiry more than there are retries.
pub fn circuits_safe()
    ensures { CircuitsSafe }
{
    retries_are_told();
}

/// Whatever is told: by the notes of the book, as a verdict keeps them, a pair comes too late exactly where it does by the events themselves;
/// and where none does, so does a datagram.
pub fn book_tells_what_is_late()
    ensures fresh { FreshByBook }
    ensures timely { TimelyByBook }
    ensures fixed { TimelyBy128 }
    ensures partners { PartnersByBook }
{}

/// Of fresh events, by the notes of the book: which sending by its partner is the latest of what an end heeds, how many fragments have
/// overtaken it, how many are too many, that it was never sent, that nobody waits on the request that opens an end, and which end still
/// has a partner with a pair. All of that is so by the events themselves.
pub fn book_tells_why()
    ensures unsent { UnsentByBook }
    ensures overtaken { OvertakenByBook }
    ensures many { TooManyByBook }
    ensures unasked { UnaskedByBook }
    ensures held { HeldByBook }
{}

/// At each moment of every timely and fresh run (`Owned`): an end that has a partner keeps it and gets no other; no two ends have the same
/// partner; each datagram that an end has heeded is a copy of one that its partner had sent; and a requester's end that was told that its
/// circuit is open sends to its partner's pair.
pub fn ends_are_owned()
    ensures { EndsAreOwned }
{}

/// In a timely run an end keeps its partner once it has one, and partners are two ends of which each is the other's: so no two
/// ends have the same partner. By the notes of the book, and in a fresh run by the events.
pub fn partners_stay()
    ensures notes { PartnersStay }
    ensures events { PartnersLast }
{}

/// At each moment of every run of nodes of which no two have one call, timely and fresh or not: of an end and its partner each has the call of
/// the other's node as that of its partner's node.
pub fn partners_face()
    ensures { PartnersFace }
{}

/// At each step of every run, whatever comes and also where nodes start again: an end stays, with the call of its partner's
/// node.
pub fn ends_stay()
    ensures { EndsStay }
{}

/// At each step of every run, whatever comes and also where nodes start again: what an end has written grows by the writes that it accepts, and by
/// nothing else.
pub fn ends_wrote_by_writes()
    ensures { EndsWroteByWrites }
{
    circuit_l4::laws::wrote_by_writes();
}

/// At each moment of every run, timely or not, an end was told that its retries are used up exactly where there was one expiry more
/// than there are retries: counted over the steps of the run since the end was made, since more was acknowledged, or since it began
/// to close.
pub fn retries_are_told()
    ensures { RetriesAreTold }
{
    circuit_l4::laws::endings();
}

/// In a timely run a requester's end that was told that its circuit is open has a partner, and sends to its partner's pair.
pub fn requesters_send()
    ensures { RequestersSend }
{}

/// At each moment of a fresh run, timely or not, no other end that a node holds has the pair by which an open end of another node names its
/// partner there.
pub fn pair_names_one()
    ensures { PairNamesOne }
{}

/// In each run in which no node starts again, no node gives more than the 48,960 pairs of which none stands twice, no two nodes have one call,
/// and each datagram that comes was sent before, as it came but for its time to live: each event is fresh, or it is that an end is opened by a
/// copy of a connect request, where an end of the same node that was opened for that request before was told how it ended.
pub fn copies_alone_return()
    ensures { CopiesAloneReturn }
{}

/// What the premises bear: an end may receive a text that nobody wrote where somebody makes it up, and such a run isn't timely.
pub fn forged_is_unsafe()
    ensures { ForgedIsUnsafe }
{}

/// A node that starts again at the pair of an end that it has lost may give that pair while another node's end still names it: such a run
/// isn't fresh.
pub fn restart_is_stale()
    ensures { RestartIsStale }
{}

/// A copy of a connect request may return: in a run as `copies_alone_return` asks for one an end is opened by it after its circuit has failed, and
/// such a run isn't fresh.
pub fn copy_returns()
    ensures { CopyReturns }
{}

/// Where no own window is above 64, a run in which all that is heeded has fewer than 128 overtakers is timely.
pub fn narrow_is_timely()
    ensures { NarrowIsTimely }
{}

/// From whatever pair a node starts: among the first 48,960 pairs that it gives then none stands twice, however its ends come and
/// go.
pub fn pairs_differ()
    ensures { PairsDiffer }
{}

/// The pairs of the ends that a set tells of are those that its node gives, in their order, whatever the set was given before, and where it
/// stands with its pairs then is where the node stands. So among the first 48,960 that it tells of once its node has started none stands
/// twice.
pub fn made_are_given()
    ensures given { MadeAreGiven }
    ensures differ { MadeDiffer }
{}

/// Whatever a set is given from its start on, it holds at most 64 ends.
pub fn holds_few()
    ensures { HoldsFew }
{}

/// Of each window from 1 to 127: twice the window and the allowance for overtakers are at most 256 together, as many as there are
/// numbers on the air.
pub fn windows_fit()
    ensures fit { WindowsFit }

    // With one overtaker more than that they don't.
    ensures most { OneMoreIsTooMany }
{}

/// The same as `circuits_safe` of one circuit alone, for every window and every allowance that fit: from its opening on come
/// calls of both ends at any moments, and, again and in any order, anything that the partner has ever put out; each that is
/// heeded has fewer overtakers than are allowed.
pub fn one_circuit_safe()
    ensures { OneCircuitSafe }
{}

/// In one direction of a circuit of window `w`, where fewer than `a` overtakers are allowed: the place of a text in the
/// receiver's window is the number that was sent. The text has number `n`, `top` texts had been sent by the end of the step in
/// which it went out, and `x` is its place.
pub fn info_place()
    ensures { (w a n top x : ℕ) (l : Line) → 2 * w + a ≤ 256 → Infos w l → l.acked ≤ l.got →
        n < top → top ≤ n + w → top ≤ l.sent → overtakers_since top l < a → at_place (n % 256) l.got w x → x ≡ n }
{}

/// The same of an acknowledgement: the count that is taken is the one that was got. Its sender had got `h` texts and `top` had
/// been sent to it by the end of the step in which it went out, and `x` is its place.
pub fn ack_place()
    ensures { (w a h top x : ℕ) (l : Line) → 2 * w + a ≤ 256 → Infos w l → l.acked ≤ l.got →
        h ≤ l.got → top ≤ h + w → overtakers_since top l < a → l.acked ≤ x → x ≤ l.sent → x % 256 ≡ h % 256 → x ≡ h }
{}

/// Each call of a set is inputs of its machine: what it tells, with what is then untold, is what was untold and what those inputs tell,
/// in their order. An input that a user or the router gives is that input alone, a tick is one of each end that is held, and what is
/// told takes none.
pub fn calls_are_inputs()
    ensures acts { ActsGo }
    ensures ticks { TicksGo }
    ensures tells { TellsGo }
    ensures hears { HearsGo }
    ensures lost { HearsLostGoes }
{}

/// Whatever comes: each datagram that a set sends has its node's call as its origin, and its node's time to live.
pub fn sets_send_their_own()
    ensures { SetsSendTheirOwn }
{}

/// Whatever comes: each datagram that a set heeds came with this input, is from the node of the partner of an end that it holds, names that
/// end's pair, and carries what the end takes in in its phase.
pub fn sets_heed_partners()
    ensures { SetsHeedPartners }
{}

/// Whatever a set is given from its start on, its ends have the numbers from 1 on. What it sends under number 0 is a refusal, and no end heeds
/// that or a copy of it: so what is heeded was sent by an end.
pub fn sets_refuse_under_0()
    ensures starts { StartsAreNumbered }
    ensures steps { SetsRefuseUnder0 }
    ensures unheeded { RefusalsAreUnheeded }
{}

//! What holds of the verdict on any list of events. Called by `verdict`.
ghost use Rattle.circuit_verdict.specs.Causes.{CausesShow};

use circuit_set::laws;

/// Where nothing has come too late yet, the cause by which an event does says this of it, by the events before it (`Shows`). Of a datagram
/// that an end has heeded: that no partner of the end has sent it; or how many events come before its latest sending by the partner, how
/// many different fragments have overtaken that, and how many are too many in this circuit. Of an end that was made: that no end without a
/// partner has sent the request; or which open end of another node has a partner at this node with the pair.
pub fn causes_show()
    ensures { CausesShow }
{
    laws::book_tells_what_is_late();
    laws::book_tells_why();
}

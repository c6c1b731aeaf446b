//! The words by which a report shows what links, ends of circuits and routers tell. Called by `entries` and `lines`.
ghost use Rattle.std.specs.Prelude.{◌≡◌, None, Some, MatchOption};
ghost use Rattle.net_report.specs.ToldLines as words;

use ax_link::LinkNotice;
use circuit_l4::{EndNotice, EndPhase};
use l3_datagram::Routed;

/// What a link tells.
pub fn link_word(notice: &LinkNotice) -> &'static str
    ensures { result.now ≡ words.link_word notice.now }
{
    match notice {
        LinkNotice::Opened => "opened",
        LinkNotice::Reset => "reset",
        LinkNotice::Closed => "closed",
        LinkNotice::Refused => "refused",
        LinkNotice::Failed => "failed",
    }
}

/// What an end tells.
pub fn notice_word(notice: &EndNotice) -> &'static str
    ensures { result.now ≡ words.notice_word notice.now }
{
    match notice {
        EndNotice::Opened { .. } => "opened",
        EndNotice::Refused => "refused",
        EndNotice::Closed => "closed",
        EndNotice::ClosedByPartner => "closed by partner",
        EndNotice::FailedRetries => "failed retries",
        EndNotice::FailedOversize => "failed oversize",
        EndNotice::FailedInactive => "failed inactive",
    }
}

/// Where an end stands.
pub fn phase_word(phase: EndPhase) -> &'static str
    ensures { result.now ≡ words.phase_word phase }
{
    match phase {
        EndPhase::Connecting => "connecting",
        EndPhase::Up => "up",
        EndPhase::Closing => "closing",
        EndPhase::Ended => "ended",
    }
}

/// Why a router dropped a datagram, if it did.
pub fn drop_word(routed: &Routed) -> Option<&'static str>
    ensures { MatchOption result (words.drop_word routed.now ≡ None)
        (λ word. words.drop_word routed.now ≡ Some word.now) }
{
    match routed {
        Routed::Expired => Some("expired"),
        Routed::NoRoute => Some("no route"),
        Routed::Returned => Some("returned"),
        Routed::Dropped => Some("carrier"),
        Routed::Bad => Some("bad"),
        Routed::Lost(_) | Routed::Mine { .. } | Routed::Forwarded => None,
    }
}

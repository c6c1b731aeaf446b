//! The words for what has become of links and circuits. Called where lines are made.
ghost use Rattle.std.specs.Prelude.{◌≡◌};
ghost use Rattle.station_entries.specs.Lines as lines;

use ax_link::LinkNotice;
use circuit_l4::EndNotice;

pub(crate) fn link_word(notice: LinkNotice) -> &'static str
    ensures { result.now ≡ lines.link_word notice }
{
    match notice {
        LinkNotice::Opened => "opened",
        LinkNotice::Reset => "reset",
        LinkNotice::Closed => "closed",
        LinkNotice::Refused => "refused",
        LinkNotice::Failed => "failed",
    }
}

pub(crate) fn end_word(notice: EndNotice) -> &'static str
    ensures { result.now ≡ lines.end_word notice }
{
    match notice {
        EndNotice::Opened { .. } => "opened",
        EndNotice::Refused => "refused",
        EndNotice::Closed => "closed",
        EndNotice::ClosedByPartner => "closed by partner",
        EndNotice::FailedRetries => "failed retries",
        EndNotice::FailedOversize => "failed oversize",
        EndNotice::FailedInactive => "failed inactive",
    }
}

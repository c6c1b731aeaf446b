//! What a segment would make whole, without taking it in. Called by `joiner`.
ghost use Rattle.std.specs.Prelude.{◌≡◌, ◌<◌};
ghost use Rattle.ax_segment.specs.Gathering.{held_at};
ghost use Rattle.ax_segment.specs.Joining.{join_step, begun_by, continued_by, whole_of};

use crate::FIRST_BIT;
use crate::gathered::Gathered;

/// The PID and the number of bytes of the message that a segment would make whole.
pub(crate) fn whole_by(gathered: &Gathered, segment: &[u8]) -> Option<(u8, usize)>
    ensures { result ≡ whole_of (join_step (held_at gathered.now) segment.now).1 }
{
    match segment {
        [] => None,
        [header, rest @ ..] => {
            if gathered.to_come == 0 {
                begun(*header, rest)
            } else {
                continued(gathered, *header, rest)
            }
        }
    }
}

/// The same where a first segment has to come.
fn begun(header: u8, rest: &[u8]) -> Option<(u8, usize)>
    ensures { result ≡ whole_of (begun_by header rest.now).1 }
{
    if header < FIRST_BIT {
        return None;
    }
    match rest {
        [] => None,
        [pid, bytes @ ..] => {
            if header % FIRST_BIT == 0 {
                Some((*pid, bytes.len()))
            } else {
                None
            }
        }
    }
}

/// The same where one that isn't the first has to come.
fn continued(gathered: &Gathered, header: u8, rest: &[u8]) -> Option<(u8, usize)>
    requires { 0 < gathered.now.to_come }
    ensures { result ≡ whole_of
        (continued_by gathered.now.pid gathered.now.bytes.items gathered.now.to_come header rest.now).1 }
{
    if header != gathered.to_come - 1 {
        return None;
    }
    if gathered.to_come - 1 == 0 {
        Some((gathered.pid, gathered.bytes.as_slice().len() + rest.len()))
    } else {
        None
    }
}

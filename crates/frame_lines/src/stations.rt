//! Which stations count their sequence numbers modulo 128 (AX.25 2.2, sections 4.3.3.1 and 4.3.3.2). Called by `listener`.
ghost use Rattle.std.specs.Prelude.{◌≡◌, ◌++◌, filter, length, not, OnOk};
ghost use Rattle.frame_lines.specs.Moduli as moduli;

use ax_address::Call;
use ax_frame::{Control, Head};
use radio_base::NoMemory;

/// The most pairs of stations that are kept in mind.
const MAX_PAIRS: usize = 256;

/// Two stations between which SABME came last.
#[derive(Clone, Copy, Debug)]
pub struct Stations {
    pub one: Call,
    pub other: Call,
}

/// Whether these are the two stations, either way round.
fn are_these(a: &Call, b: &Call, stations: &Stations) -> bool
    ensures { result ≡ moduli.are_these a.now b.now stations.now }
{
    (*a == stations.one && *b == stations.other) || (*a == stations.other && *b == stations.one)
}

/// Takes note of the set-up command that a frame is.
pub fn note_frame(head: &Head, control: &Control, pairs: &mut Vec<Stations>) -> Result<(), NoMemory>
    ensures { OnOk result (pairs.new.items ≡ moduli.after_frame head.now control.now pairs.old.items) }
{
    match control {
        Control::Sabme { .. } => {
            forget(head, pairs);
            make_room(pairs);
            pairs.push(Stations {
                one: head.source.call,
                other: head.dest.call,
            })?;
            Ok(())
        }
        Control::Sabm { .. } => {
            forget(head, pairs);
            Ok(())
        }
        _ => Ok(()),
    }
}

/// Forgets what was heard between the two stations of a frame.
fn forget(head: &Head, pairs: &mut Vec<Stations>)
    ensures { pairs.new.items ≡ moduli.others head.now pairs.old.items }
{
    pairs.retain(|stations| !are_these(&head.source.call, &head.dest.call, stations));
}

/// Where 256 pairs stand, the oldest is forgotten.
fn make_room(pairs: &mut Vec<Stations>)
    ensures { pairs.new.items ≡ moduli.with_room pairs.old.items }
{
    if pairs.len() >= MAX_PAIRS {
        pairs.remove(0);
    }
}

/// Whether the stations of a frame count modulo 128.
pub fn is_extended(head: &Head, pairs: &[Stations]) -> bool
    ensures { result ≡ moduli.is_extended head.now.source.call head.now.dest.call pairs.now }
{
    match pairs {
        [] => false,
        [first, later @ ..] => {
            are_these(&head.source.call, &head.dest.call, first) || is_extended(head, later)
        }
    }
}

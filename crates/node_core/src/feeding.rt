//! What comes as KISS bytes, or as a frame where the channel has no bytes. Called by `node`.
ghost use Rattle.std.specs.Prelude.{◌≡◌, ◌<◌, ◌≤◌, ◌++◌, ℕ, List, IfOk, IfSome, Some, OnOk, length, take};
ghost use Rattle.kiss_framing.specs.Stream as kiss;
ghost use Rattle.kiss_framing.specs.Stream.{framed, items};
ghost use Rattle.kiss_framing.specs.Feeding.{IsSmall, handed_out};
ghost use Rattle.node_core.specs.Inputs as inputs;
ghost use Rattle.node_core.specs.Taking.{Takes};
ghost use Rattle.node_core.specs.Going.{StandsForSome, StationGoes};
ghost use Rattle.node_core.specs.Standing.{IsDrained};

use crate::station::Station;
use kiss_framing::{Deframer, FEND, KissItem, LONGEST};
use radio_base::{Moment, NoMemory};

/// Takes in KISS bytes: each item that they complete is taken and settled before the next.
pub(crate) fn take_bytes(
    deframer: &mut Deframer,
    station: &mut Station,
    bytes: &[u8],
    now: Moment,
) -> Result<(), NoMemory>
    requires { StandsForSome station.old }
    ensures fed { OnOk result ((stream : List ℕ) → kiss.StandsFor deframer.old stream
        → kiss.StandsFor deframer.new (stream ++ bytes.now)) }
    ensures taken { OnOk result ((stream : List ℕ) → kiss.StandsFor deframer.old stream
        → Takes now.0 station.old station.new stream bytes.now) }
    ensures drained { OnOk result (IsDrained station.old → IsDrained station.new) }
{
    let mut taken = 0;
    while taken < bytes.len() {
        taken += take_some(deframer, station, &bytes[taken..], now)?;
    }
    Ok(())
}

/// Takes in bytes up to the first that ends an item, and that item, or takes in all where none does. Answers with how many it
/// took in.
fn take_some(
    deframer: &mut Deframer,
    station: &mut Station,
    bytes: &[u8],
    now: Moment,
) -> Result<usize, NoMemory>
    requires { StandsForSome station.old }
    ensures fed { IfOk result (λ count. (stream : List ℕ) → kiss.StandsFor deframer.old stream
        → kiss.StandsFor deframer.new (stream ++ take count bytes.now)) }
    ensures taken { IfOk result (λ count. (stream : List ℕ) → kiss.StandsFor deframer.old stream
        → Takes now.0 station.old station.new stream (take count bytes.now)) }
    ensures drained { OnOk result (IsDrained station.old → IsDrained station.new) }
    ensures some { OnOk result (StandsForSome station.new) }
    ensures within { IfOk result (λ count. count ≤ length bytes.now) }
    ensures moves { IfOk result (λ count. 0 < length bytes.now → 0 < count) }
{
    let (count, item) = deframer.feed_until_item(bytes);
    take_given(station, item, now)?;
    Ok(count)
}

/// Takes in a frame by its octets, as if it had come as KISS bytes. The `FEND` before it ends what came before, and then nothing is
/// held, nor is behind the frame: so it needn't be written and read again.
pub(crate) fn take_kiss_frame(
    deframer: &mut Deframer,
    station: &mut Station,
    octets: &[u8],
    now: Moment,
) -> Result<(), NoMemory>
    requires { StandsForSome station.old }
    ensures fed { OnOk result ((stream : List ℕ) → kiss.StandsFor deframer.old stream
        → kiss.StandsFor deframer.new (stream ++ framed 0 0 octets.now)) }
    ensures taken { OnOk result ((stream : List ℕ) → kiss.StandsFor deframer.old stream
        → Takes now.0 station.old station.new stream (framed 0 0 octets.now)) }
    ensures drained { OnOk result (IsDrained station.old → IsDrained station.new) }
{
    kiss_framing::laws::fend_ends();
    kiss_framing::laws::fend_parts();
    take_given(station, deframer.feed(FEND), now)?;
    take_given(station, Some(read_back(octets)), now)?;
    Ok(())
}

/// Takes in an item and settles, if there is one.
fn take_given(
    station: &mut Station,
    item: Option<KissItem<'_>>,
    now: Moment,
) -> Result<(), NoMemory>
    requires some { StandsForSome station.old }
    requires small { IfSome item IsSmall }
    ensures goes { OnOk result (StationGoes (inputs.after_items now.0 (handed_out item.entry))
        station.old station.new) }
    ensures drained { OnOk result (IsDrained station.old → IsDrained station.new) }
    ensures some { OnOk result (StandsForSome station.new) }
{
    match item {
        Some(item) => {
            station.take_item(&item, now)?;
            station.settle(now)?;
            Ok(())
        }
        None => Ok(()),
    }
}

/// The item of a frame's KISS bytes, as data on port 0, by its octets.
fn read_back(octets: &[u8]) -> KissItem<'_>
    ensures item { items (framed 0 0 octets.now) ≡ handed_out (Some result) }
    ensures small { IsSmall result }
{
    kiss_framing::laws::frames_read_back();
    kiss_framing::laws::long_frames();
    kiss_framing::laws::numbers();
    if octets.len() < LONGEST {
        KissItem::Frame {
            port: 0,
            command: 0,
            payload: octets,
        }
    } else {
        KissItem::TooLong
    }
}

//! A station takes in what the items of a stream say. Called for each read.
ghost use Rattle.std.specs.Prelude.{◌≡◌, ◌≤◌, ◌<◌, ◌++◌, List, ℕ, length, take, IfOk, OnOk, Some};
ghost use Rattle.kiss_framing.specs.Feeding.{handed_out};
ghost use Rattle.kiss_framing.specs.Stream.{Item, StandsFor, items};
ghost use Rattle.station.specs.Standing.{StationGo};
ghost use Rattle.station_live.specs.Lives as lives;
ghost use Rattle.station_script.specs.Saying.{said_of};

use kiss_framing::{Deframer, KissItem};
use radio_base::{Moment, NoMemory};
use station::Station;
use station_script::{ConsoleFrame, call_in, console_frame};
use std::alloc::Global;

/// The KISS port that carries consoles.
pub(crate) const CONSOLES_PORT: u8 = 15;

/// Takes in these bytes of a stream: each item that they end.
pub(crate) fn take_items(
    alloc: Global,
    deframer: &mut Deframer,
    station: &mut Station,
    bytes: &[u8],
    now: Moment,
) -> Result<(), NoMemory>
    ensures fed { OnOk result ((stream : List ℕ) → StandsFor deframer.old stream → StandsFor deframer.new (stream ++ bytes.now)) }
    ensures goes { OnOk result ((stream : List ℕ) → StandsFor deframer.old stream
        → (given : List Item) × (items (stream ++ bytes.now) ≡ items stream ++ given)
        × StationGo (lives.after_items now given) station.old station.new) }
{
    let mut taken = 0;
    while taken < bytes.len() {
        taken += take_next(alloc, deframer, station, &bytes[taken..], now)?;
    }
    Ok(())
}

/// Takes in bytes up to the first that ends an item, and that item, or takes in all where none does. Answers with how many it took in.
fn take_next(
    alloc: Global,
    deframer: &mut Deframer,
    station: &mut Station,
    bytes: &[u8],
    now: Moment,
) -> Result<usize, NoMemory>
    ensures fed { IfOk result (λ count. (stream : List ℕ) → StandsFor deframer.old stream
        → StandsFor deframer.new (stream ++ take count bytes.now)) }
    ensures goes { IfOk result (λ count. (stream : List ℕ) → StandsFor deframer.old stream
        → (given : List Item) × (items (stream ++ take count bytes.now) ≡ items stream ++ given)
        × StationGo (lives.after_items now given) station.old station.new) }
    ensures within { IfOk result (λ count. count ≤ length bytes.now) }
    ensures moves { IfOk result (λ count. 0 < length bytes.now → 0 < count) }
{
    let (count, item) = deframer.feed_until_item(bytes);
    match item {
        Some(item) => {
            take_item(alloc, station, &item, now)?;
            Ok(count)
        }
        None => Ok(count),
    }
}

/// Data on a port, or what a console sends.
fn take_item(
    alloc: Global,
    station: &mut Station,
    item: &KissItem<'_>,
    now: Moment,
) -> Result<(), NoMemory>
    ensures { OnOk result (StationGo (lives.after_items now (handed_out (Some item.now))) station.old station.new) }
{
    match item {
        KissItem::Frame {
            port,
            command: 0,
            payload,
        } => {
            take_data(alloc, station, *port, payload, now)?;
            Ok(())
        }
        KissItem::Frame { .. } => Ok(()),
        KissItem::TooLong => Ok(()),
    }
}

fn take_data(
    alloc: Global,
    station: &mut Station,
    port: u8,
    payload: &[u8],
    now: Moment,
) -> Result<(), NoMemory>
    ensures { OnOk result (StationGo (lives.take_data now port payload.now) station.old station.new) }
{
    if port == CONSOLES_PORT {
        match console_frame(payload) {
            Some(frame) => {
                take_said(alloc, station, &frame, now)?;
                Ok(())
            }
            None => Ok(()),
        }
    } else {
        station.hear(port, payload, now)?;
        Ok(())
    }
}

/// What a console sends. A word that is no call opens none.
fn take_said(
    alloc: Global,
    station: &mut Station,
    frame: &ConsoleFrame<'_>,
    now: Moment,
) -> Result<(), NoMemory>
    ensures { OnOk result (StationGo (lives.take_said now (said_of frame.now)) station.old station.new) }
{
    match frame {
        ConsoleFrame::Open { console, call } => match call_in(alloc, call)? {
            Some(call) => {
                station.open(*console, &call, now)?;
                Ok(())
            }
            None => Ok(()),
        },
        ConsoleFrame::Text { console, text } => {
            station.type_text(*console, text, now)?;
            Ok(())
        }
        ConsoleFrame::Close { console } => {
            station.hang_up(*console, now)?;
            Ok(())
        }
        ConsoleFrame::Stop => {
            station.stop(now)?;
            Ok(())
        }
    }
}

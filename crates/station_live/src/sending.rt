//! What a station has put out as KISS bytes, and what it has told as lines. Called after each read.
ghost use Rattle.std.specs.Prelude.{◌≡◌, ◌++◌, ◌≤◌, length, OnOk};
ghost use Rattle.station.specs.Fetching.{without_entries, without_outs};
ghost use Rattle.station.specs.Standing.{StationGo, StationStand};
ghost use Rattle.station.specs.States.{StationState};
ghost use Rattle.station_live.specs.Lives as lives;

use crate::taking::CONSOLES_PORT;
use arrayvec::ArrayVec;
use kiss_framing::enframe;
use radio_base::{Moment, NoMemory, TextOut};
use station::{Station, StationOut};
use station_entries::add_entry;
use station_places::ConsoleOut;
use std::alloc::Global;

/// The most bytes of a console's text in one frame.
const MAX_CONSOLE_TEXT: usize = 1_000;

/// Room for a frame as KISS bytes: at most 1,024 bytes with the type byte, each of which may be escaped, between two FENDs.
type KissBytes = ArrayVec<u8, 2050>;

/// Fetches all that the station has put out, and adds it.
pub(crate) fn add_outs(station: &mut Station, text: &mut TextOut) -> Result<(), NoMemory>
    ensures goes { OnOk result (StationGo without_outs station.old station.new) }
    ensures added { OnOk result ((s : StationState) → StationStand station.old s → text.new ≡ text.old ++ lives.outs_text s) }
{
    while let Some(out) = station.next_out() {
        add_out(out, text)?;
    }
    Ok(())
}

fn add_out(out: StationOut, text: &mut TextOut) -> Result<(), NoMemory>
    ensures { OnOk result (text.new ≡ text.old ++ lives.out_text out) }
{
    match out {
        StationOut::Frame(frame) => {
            add_frame(frame.port, frame.octets.as_slice(), text)?;
            Ok(())
        }
        StationOut::Console(out) => {
            add_console_out(&out, text)?;
            Ok(())
        }
    }
}

fn add_console_out(out: &ConsoleOut, text: &mut TextOut) -> Result<(), NoMemory>
    ensures { OnOk result (text.new ≡ text.old ++ lives.console_text out.now) }
{
    match out {
        ConsoleOut::Text {
            console,
            text: told,
        } => add_told(*console, told.bytes(), text),
        ConsoleOut::Closed { console } => {
            add_frame(CONSOLES_PORT, &[*console, b'C'], text)?;
            Ok(())
        }
    }
}

/// Adds a text of a console, in frames of at most 1,000 bytes of it.
fn add_told(console: u8, told: &[u8], text: &mut TextOut) -> Result<(), NoMemory>
    ensures { OnOk result (text.new ≡ text.old ++ lives.told_frames console told.now) }
{
    let mut rest = told;
    while !rest.is_empty() {
        let count = rest.len().min(MAX_CONSOLE_TEXT);
        add_piece(console, &rest[..count], text)?;
        rest = &rest[count..];
    }
    Ok(())
}

fn add_piece(console: u8, piece: &[u8], text: &mut TextOut) -> Result<(), NoMemory>
    requires { length piece.now ≤ 1000 }
    ensures { OnOk result (text.new ≡ text.old ++ lives.piece_text console piece.now) }
{
    let mut octets = ArrayVec::<u8, 1002>::new();
    octets.push(console);
    octets.push(b'T');
    let _ = octets.try_extend_from_slice(piece);
    add_frame(CONSOLES_PORT, octets.as_slice(), text)?;
    Ok(())
}

/// Adds octets as KISS bytes: data on a port. Where there is no such port, or they are more than any frame has, nothing is added.
fn add_frame(port: u8, octets: &[u8], text: &mut TextOut) -> Result<(), NoMemory>
    ensures { OnOk result (text.new ≡ text.old ++ lives.kiss_of port octets.now) }
{
    if port > CONSOLES_PORT {
        return Ok(());
    }
    let mut bytes = KissBytes::new();
    let _ = enframe(port, 0, octets, &mut bytes);
    text.octets(bytes.as_slice())?;
    Ok(())
}

/// Fetches all that the station has told, and adds the line of each.
pub(crate) fn add_entries(
    alloc: Global,
    station: &mut Station,
    now: Moment,
    lines: &mut TextOut,
) -> Result<(), NoMemory>
    ensures goes { OnOk result (StationGo without_entries station.old station.new) }
    ensures added { OnOk result ((s : StationState) → StationStand station.old s → lines.new ≡ lines.old ++ lives.entries_text now s) }
{
    while let Some(entry) = station.next_entry() {
        add_entry(alloc, now, &entry, lines)?;
    }
    Ok(())
}

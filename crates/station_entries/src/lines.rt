//! Entries as JSON objects (RFC 8259), one a line. Called by whoever runs a station.
ghost use Rattle.std.specs.Prelude.{◌≡◌, ◌++◌, IfOk, OnOk, string_bytes};
ghost use Rattle.station_entries.specs.Lines as lines;

use crate::entry::StationEntry;
use crate::words::{end_word, link_word};
use ax_address::Call;
use ax_link::LinkNotice;
use circuit_l4::EndNotice;
use radio_base::{Moment, NoMemory, TextOut};
use std::alloc::{AllocError, Global};

/// Adds the line of an entry that was told at this moment.
pub fn add_entry(
    alloc: Global,
    now: Moment,
    entry: &StationEntry,
    out: &mut TextOut,
) -> Result<(), NoMemory>
    ensures { OnOk result (out.new ≡ out.old ++ lines.entry_line now.0 entry.now) }
{
    let line = line_of(alloc, now, entry)?;
    out.text(line.as_str())?;
    Ok(())
}

fn line_of(alloc: Global, now: Moment, entry: &StationEntry) -> Result<String, AllocError>
    ensures { IfOk result (λ s. string_bytes s ≡ lines.entry_line now.0 entry.now) }
{
    match entry {
        StationEntry::Link {
            member,
            peer,
            notice,
        } => link_line(alloc, now, member, peer, *notice),
        StationEntry::Circuit { member, id, notice } => {
            circuit_line(alloc, now, member, *id, *notice)
        }
    }
}

fn link_line(
    alloc: Global,
    now: Moment,
    member: &Call,
    peer: &Call,
    notice: LinkNotice,
) -> Result<String, AllocError>
    ensures { IfOk result (λ s. string_bytes s ≡ lines.link_line now.0 member.now peer.now notice) }
{
    let at = now.0;
    let member = member.show();
    let member = member.as_str();
    let peer = peer.show();
    let peer = peer.as_str();
    let what = link_word(notice);
    format!(in alloc;
        "{{\"at\":{at},\"member\":\"{member}\",\"link\":\"{peer}\",\"what\":\"{what}\"}}\n"
    )
}

fn circuit_line(
    alloc: Global,
    now: Moment,
    member: &Call,
    id: u64,
    notice: EndNotice,
) -> Result<String, AllocError>
    ensures { IfOk result (λ s. string_bytes s ≡ lines.circuit_line now.0 member.now id notice) }
{
    let at = now.0;
    let member = member.show();
    let member = member.as_str();
    let what = end_word(notice);
    format!(in alloc; "{{\"at\":{at},\"member\":\"{member}\",\"end\":{id},\"what\":\"{what}\"}}\n")
}

/// Adds the line of a station's status at this moment: how many sessions it has.
pub fn add_status(
    alloc: Global,
    now: Moment,
    sessions: usize,
    out: &mut TextOut,
) -> Result<(), NoMemory>
    ensures { OnOk result (out.new ≡ out.old ++ lines.status_line now.0 sessions) }
{
    let line = status_line(alloc, now, sessions)?;
    out.text(line.as_str())?;
    Ok(())
}

fn status_line(alloc: Global, now: Moment, sessions: usize) -> Result<String, AllocError>
    ensures { IfOk result (λ s. string_bytes s ≡ lines.status_line now.0 sessions) }
{
    let at = now.0;
    format!(in alloc; "{{\"at\":{at},\"status\":{{\"sessions\":{sessions}}}}}\n")
}

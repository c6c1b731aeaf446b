//! The lines of a report on links, circuits and datagrams. Called by `entries`, `events` and `reports`.
ghost use Rattle.std.specs.Prelude.{◌≡◌, ◌++◌, OnOk, IfOk, string_bytes};
ghost use Rattle.net_report.specs.ToldLines as lines;

use crate::told::words::{link_word, notice_word, phase_word};
use ax_address::Call;
use ax_link::LinkNotice;
use circuit_l4::{EndFacts, EndNotice};
use radio_base::{NoMemory, TextOut};
use std::alloc::{AllocError, Global};

/// Appends a line.
pub(crate) fn write_line(line: String, text: &mut TextOut) -> Result<(), NoMemory>
    ensures { OnOk result (text.new ≡ text.old ++ string_bytes line) }
{
    text.text(line.as_str())?;
    Ok(())
}

/// `link N CALL WHAT`
pub(crate) fn link_line(
    alloc: Global,
    node: u8,
    peer: &Call,
    notice: &LinkNotice,
) -> Result<String, AllocError>
    ensures { IfOk result (λ s. string_bytes s ≡ lines.link_line node peer.now notice.now) }
{
    let peer = peer.show();
    let peer = peer.as_str();
    let what = link_word(notice);
    format!(in alloc; "link {node} {peer} {what}\n")
}

/// `event N X opened CALL window W`, or `event N X WHAT`
pub(crate) fn notice_line(
    alloc: Global,
    node: u8,
    end: u64,
    partner: &Call,
    notice: &EndNotice,
) -> Result<String, AllocError>
    ensures { IfOk result (λ s. string_bytes s ≡ lines.notice_line node end partner.now notice.now) }
{
    match notice {
        EndNotice::Opened { window } => {
            let partner = partner.show();
            let partner = partner.as_str();
            format!(in alloc; "event {node} {end} opened {partner} window {window}\n")
        }
        _ => what_line(alloc, node, end, notice_word(notice)),
    }
}

fn what_line(alloc: Global, node: u8, end: u64, what: &str) -> Result<String, AllocError>
    ensures { IfOk result (λ s. string_bytes s ≡ lines.what_line node end what.now) }
{
    format!(in alloc; "event {node} {end} {what}\n")
}

/// `dropped N WHY`
pub(crate) fn dropped_line(alloc: Global, node: u8, why: &str) -> Result<String, AllocError>
    ensures { IfOk result (λ s. string_bytes s ≡ lines.dropped_line node why.now) }
{
    format!(in alloc; "dropped {node} {why}\n")
}

/// `end N X CALL PHASE wrote=M received=M acked=F`, where an end that a restart took away is `lost`.
pub(crate) fn end_line(
    alloc: Global,
    node: u8,
    end: u64,
    partner: &Call,
    is_lost: bool,
    facts: &EndFacts,
) -> Result<String, AllocError>
    ensures { IfOk result (λ s. string_bytes s ≡ lines.end_line node end partner.now is_lost facts.now) }
{
    let partner = partner.show();
    let partner = partner.as_str();
    let phase = last_word(is_lost, facts);
    let counts = counts_text(alloc, facts)?;
    let counts = counts.as_str();
    format!(in alloc; "end {node} {end} {partner} {phase} {counts}\n")
}

/// `wrote=M received=M acked=F`: messages, messages, fragments.
fn counts_text(alloc: Global, facts: &EndFacts) -> Result<String, AllocError>
    ensures { IfOk result (λ s. string_bytes s ≡ lines.counts_text facts.now) }
{
    let wrote = facts.wrote;
    let received = facts.received;
    let acked = facts.acked;
    format!(in alloc; "wrote={wrote} received={received} acked={acked}")
}

fn last_word(is_lost: bool, facts: &EndFacts) -> &'static str
    ensures { result.now ≡ lines.last_word is_lost facts.now.phase }
{
    if is_lost {
        "lost"
    } else {
        phase_word(facts.phase)
    }
}

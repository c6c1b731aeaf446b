//! The line of a transport. Called by `datagrams`.
ghost use Rattle.std.specs.Prelude.{◌≡◌, ◌++◌, OnOk, IfOk, string_bytes};
ghost use Rattle.circuit_l4.specs.declared.transport.Flags.{Flags};
ghost use Rattle.frame_lines.specs.TransportLines as lines;

use crate::words::transport_fault;
use ax_address::Call;
use circuit_l4::{Flags, Pair, Transport, TransportRefusal, read_transport};
use radio_base::{NoMemory, TextOut};
use std::alloc::{AllocError, Global};
use text_lines::shown_text;

/// The transport that the octets spell, or why they spell none.
pub(crate) fn write_transport_text(
    alloc: Global,
    octets: &[u8],
    out: &mut TextOut,
) -> Result<(), NoMemory>
    ensures { OnOk result (out.new ≡ out.old ++ lines.transport_text octets.now) }
{
    let line = match read_transport(octets) {
        Ok(transport) => transport_line(alloc, &transport)?,
        Err(why) => bad_line(alloc, why)?,
    };
    out.text(line.as_str())?;
    Ok(())
}

fn transport_line(alloc: Global, transport: &Transport) -> Result<String, AllocError>
    ensures { IfOk result (λ s. string_bytes s ≡ lines.transport_line transport.now) }
{
    match transport {
        Transport::Request {
            pair,
            window,
            user,
            node,
        } => request_line(alloc, *pair, *window, user, node),
        Transport::Accept { to, own, window } => accept_line(alloc, *to, *own, *window),
        Transport::Refuse { to } => kind_line(alloc, "refuse", *to),
        Transport::Disconnect { to } => kind_line(alloc, "disconnect", *to),
        Transport::Disconnected { to } => kind_line(alloc, "disconnect ack", *to),
        Transport::Info {
            to,
            tx,
            rx,
            flags,
            text,
        } => info_line(alloc, *to, *tx, *rx, *flags, text.as_slice()),
        Transport::InfoAck { to, rx, flags } => ack_line(alloc, *to, *rx, *flags),
    }
}

/// `request PAIR window=W user=CALL node=CALL`
fn request_line(
    alloc: Global,
    pair: Pair,
    window: u8,
    user: &Call,
    node: &Call,
) -> Result<String, AllocError>
    ensures { IfOk result (λ s. string_bytes s ≡ lines.request_line pair window user.now node.now) }
{
    let pair = pair_text(alloc, pair)?;
    let pair = pair.as_str();
    let user = user.show();
    let user = user.as_str();
    let node = node.show();
    let node = node.as_str();
    format!(in alloc; "    request {pair} window={window} user={user} node={node}\n")
}

/// `accept PAIR own=PAIR window=W`
fn accept_line(alloc: Global, to: Pair, own: Pair, window: u8) -> Result<String, AllocError>
    ensures { IfOk result (λ s. string_bytes s ≡ lines.accept_line to own window) }
{
    let to = pair_text(alloc, to)?;
    let to = to.as_str();
    let own = pair_text(alloc, own)?;
    let own = own.as_str();
    format!(in alloc; "    accept {to} own={own} window={window}\n")
}

fn kind_line(alloc: Global, kind: &str, to: Pair) -> Result<String, AllocError>
    ensures { IfOk result (λ s. string_bytes s ≡ lines.kind_line kind.now to) }
{
    let to = pair_text(alloc, to)?;
    let to = to.as_str();
    format!(in alloc; "    {kind} {to}\n")
}

/// `info PAIR tx=N rx=N FLAGS len=L TEXT`
fn info_line(
    alloc: Global,
    to: Pair,
    tx: u8,
    rx: u8,
    flags: Flags,
    text: &[u8],
) -> Result<String, AllocError>
    ensures { IfOk result (λ s. string_bytes s ≡ lines.info_line to tx rx flags text.now) }
{
    let to = pair_text(alloc, to)?;
    let to = to.as_str();
    let flags = flags_text(alloc, flags)?;
    let flags = flags.as_str();
    let len = text.len();
    let shown = shown_text(alloc, text)?;
    let shown = shown.as_str();
    format!(in alloc; "    info {to} tx={tx} rx={rx}{flags} len={len} {shown}\n")
}

/// `info ack PAIR rx=N FLAGS`
fn ack_line(alloc: Global, to: Pair, rx: u8, flags: Flags) -> Result<String, AllocError>
    ensures { IfOk result (λ s. string_bytes s ≡ lines.ack_line to rx flags) }
{
    let to = pair_text(alloc, to)?;
    let to = to.as_str();
    let flags = flags_text(alloc, flags)?;
    let flags = flags.as_str();
    format!(in alloc; "    info ack {to} rx={rx}{flags}\n")
}

/// `INDEX/IDENTIFICATION`
fn pair_text(alloc: Global, pair: Pair) -> Result<String, AllocError>
    ensures { IfOk result (λ s. string_bytes s ≡ lines.pair_text pair) }
{
    let index = pair.index;
    let ident = pair.ident;
    format!(in alloc; "{index}/{ident}")
}

/// The flags that are set.
fn flags_text(alloc: Global, flags: Flags) -> Result<String, AllocError>
    ensures { IfOk result (λ s. string_bytes s ≡ lines.flags_text flags) }
{
    let choke = word_where(flags.choke, " choke");
    let nak = word_where(flags.nak, " nak");
    let more = word_where(flags.more, " more");
    format!(in alloc; "{choke}{nak}{more}")
}

fn word_where(is_set: bool, word: &'static str) -> &'static str
    ensures { result.now ≡ lines.flag_text is_set word.now }
{
    if is_set { word } else { "" }
}

fn bad_line(alloc: Global, why: TransportRefusal) -> Result<String, AllocError>
    ensures { IfOk result (λ s. string_bytes s ≡ lines.bad_line why) }
{
    let why = transport_fault(alloc, why)?;
    let why = why.as_str();
    format!(in alloc; "    bad transport {why}\n")
}

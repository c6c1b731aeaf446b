//! A frame becomes KISS bytes. Called by `cmd_streams`.
ghost use Rattle.std.specs.Prelude.{◌≡◌, ℕ, ◌≤◌, ◌+◌, ◌*◌, ◌<◌, List, ◌++◌, ◌∷◌, [], ◌↔◌, length, take, OnOk, OnErr, IfOk, IsOk};
ghost use Rattle.std.specs.List.{flat_map};
ghost use Rattle.kiss_framing.specs.Stream.{escape_of, octets_of, framed, Frame, items};

use crate::piece::plain_run;
use crate::{FEND, FESC, TFEND, TFESC};
use arrayvec::ArrayVec;

/// A frame doesn't fit its buffer.
#[derive(Clone, Copy, Debug, PartialEq, Eq)]
pub struct Full;

/// Appends a frame's octets: `FEND`, the escaped bytes, `FEND`. Where they don't fit, nothing is appended.
#[tactic(auto, using(crate::proofs::ReadBack::frames_read_back))]
pub fn enframe<const CAP: usize>(
    port: u8,
    command: u8,
    payload: &[u8],
    out: &mut ArrayVec<u8, CAP>,
) -> Result<(), Full>
    requires port { port ≤ 15 }
    requires command { command ≤ 15 }
    ensures ok { OnOk result (out.new.items ≡ out.old.items ++ framed port command payload.now) }
    ensures fits { IsOk result ↔ (length out.old.items + length (framed port command payload.now) ≤ CAP) }
    ensures err { OnErr result (out.new ≡ out.old) }

    // A deframer gets the frame back, and nothing else.
    ensures reads_back { length payload.now ≤ 1023
        → items (framed port command payload.now) ≡ Frame port command payload.now ∷ [] }
{
    let start = out.len();
    match push_frame(port * 16 + command, payload, out) {
        Ok(()) => Ok(()),
        Err(full) => {
            out.truncate(start);
            Err(full)
        }
    }
}

fn push_frame<const CAP: usize>(
    head: u8,
    payload: &[u8],
    out: &mut ArrayVec<u8, CAP>,
) -> Result<(), Full>
    ensures ok { OnOk result (out.new.items ≡ out.old.items ++ octets_of head payload.now) }
    ensures fits { OnOk result (length out.new.items ≤ CAP) }
    ensures front { OnErr result (take (length out.old.items) out.new.items ≡ out.old.items) }
    ensures full { OnErr result (CAP < length out.old.items + length (octets_of head payload.now)) }
{
    push(&[FEND], out)?;
    push_escaped(head, out)?;
    push_payload(payload, out)?;
    push(&[FEND], out)
}

fn push_payload<const CAP: usize>(payload: &[u8], out: &mut ArrayVec<u8, CAP>) -> Result<(), Full>
    ensures ok { OnOk result (out.new.items ≡ out.old.items ++ flat_map escape_of payload.now) }
    ensures front { OnErr result (take (length out.old.items) out.new.items ≡ out.old.items) }
    ensures full { OnErr result (CAP < length out.old.items + length (flat_map escape_of payload.now)) }
{
    let mut taken = 0;
    while taken < payload.len() {
        taken += push_some(&payload[taken..], out)?;
    }
    Ok(())
}

/// Appends the octets of the first bytes: of those before the next `FEND` or `FESC`, or where that stands first of it alone. Answers with
/// how many bytes these are.
fn push_some<const CAP: usize>(payload: &[u8], out: &mut ArrayVec<u8, CAP>) -> Result<usize, Full>
    requires { 0 < length payload.now }
    ensures ok { IfOk result (λ count. out.new.items ≡ out.old.items ++ flat_map escape_of (take count payload.now)) }
    ensures within { IfOk result (λ count. count ≤ length payload.now) }
    ensures moves { IfOk result (λ count. 0 < count) }
    ensures full { OnErr result (CAP < length out.old.items + length (flat_map escape_of payload.now)) }
    ensures err { OnErr result (out.new ≡ out.old) }
{
    let run = plain_run(payload);
    if run.is_empty() {
        push_escaped(payload[0], out)?;
        Ok(1)
    } else {
        push(run, out)?;
        Ok(run.len())
    }
}

fn push_escaped<const CAP: usize>(byte: u8, out: &mut ArrayVec<u8, CAP>) -> Result<(), Full>
    ensures ok { OnOk result (out.new.items ≡ out.old.items ++ escape_of byte) }
    ensures full { OnErr result (CAP < length out.old.items + length (escape_of byte)) }
    ensures err { OnErr result (out.new ≡ out.old) }
{
    match byte {
        FEND => push(&[FESC, TFEND], out),
        FESC => push(&[FESC, TFESC], out),
        _ => push(&[byte], out),
    }
}

fn push<const CAP: usize>(octets: &[u8], out: &mut ArrayVec<u8, CAP>) -> Result<(), Full>
    ensures ok { OnOk result (out.new.items ≡ out.old.items ++ octets.now) }
    ensures fits { OnOk result (length out.new.items ≤ CAP) }
    ensures full { OnErr result (CAP < length out.old.items + length octets.now) }
    ensures err { OnErr result (out.new ≡ out.old) }
{
    out.try_extend_from_slice(octets).map_err(|_| Full)
}

//! The lines of a datagram. Called by `contents`.
ghost use Rattle.std.specs.Prelude.{◌≡◌, ◌++◌, OnOk, IfOk, string_bytes};
ghost use Rattle.frame_lines.specs.DatagramLines as lines;

use crate::transports::write_transport_text;
use crate::words::datagram_fault;
use l3_datagram::{DatagramHead, DatagramRefusal, HEAD_SIZE, read_datagram};
use radio_base::{NoMemory, TextOut};
use std::alloc::{AllocError, Global};

/// The datagram that the octets spell, or why they spell none.
pub(crate) fn write_datagram_text(
    alloc: Global,
    octets: &[u8],
    out: &mut TextOut,
) -> Result<(), NoMemory>
    ensures { OnOk result (out.new ≡ out.old ++ lines.datagram_text octets.now) }
{
    match read_datagram(octets) {
        Ok(head) => {
            let line = head_line(alloc, &head)?;
            out.text(line.as_str())?;
            write_transport_text(alloc, &octets[HEAD_SIZE..], out)?;
            Ok(())
        }
        Err(why) => {
            let line = bad_line(alloc, why)?;
            out.text(line.as_str())?;
            Ok(())
        }
    }
}

/// `datagram ORIGIN>DEST ttl=T`
fn head_line(alloc: Global, head: &DatagramHead) -> Result<String, AllocError>
    ensures { IfOk result (λ s. string_bytes s ≡ lines.head_line head.now) }
{
    let origin = head.origin.show();
    let origin = origin.as_str();
    let dest = head.dest.show();
    let dest = dest.as_str();
    let ttl = head.ttl;
    format!(in alloc; "  datagram {origin}>{dest} ttl={ttl}\n")
}

fn bad_line(alloc: Global, why: DatagramRefusal) -> Result<String, AllocError>
    ensures { IfOk result (λ s. string_bytes s ≡ lines.bad_line why) }
{
    let why = datagram_fault(alloc, why)?;
    let why = why.as_str();
    format!(in alloc; "  bad datagram {why}\n")
}

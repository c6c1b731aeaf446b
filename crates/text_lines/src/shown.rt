//! Text of users and messages, as it is shown in one line. Called by `net_report` and `frame_lines`.
ghost use Rattle.std.specs.Prelude.{◌≡◌, ◌<◌, IfOk, string_bytes};
ghost use Rattle.text_lines.specs.Lines as spec;

use std::alloc::{AllocError, Global};

/// These bytes, where each that is no character from 0x20 to 0x7E is shown as a point.
pub fn shown_text(alloc: Global, bytes: &[u8]) -> Result<String, AllocError>
    ensures { IfOk result (λ s. string_bytes s ≡ spec.shown_text bytes.now) }
{
    let mut shown = String::new(alloc);
    for byte in bytes {
        shown.push(shown_byte(*byte) as char)?;
    }
    Ok(shown)
}

fn shown_byte(byte: u8) -> u8
    ensures value { result ≡ spec.shown_byte byte }
    ensures ascii { result < 128 }
{
    if byte >= 0x20 && byte <= 0x7E {
        byte
    } else {
        b'.'
    }
}

//! What the operator has to say. Called by `looks`.
ghost use Rattle.std.specs.Prelude.{◌≡◌, ◌++◌, map, IfOk, OnOk};
ghost use Rattle.station_looks.specs.Replies as replies;

use radio_base::{NoMemory, TextOut};
use station_lists::{Told, add_told};
use std::alloc::Global;

/// Adds it: an LF ends a line, and one at the end makes none.
pub(crate) fn see_info(alloc: Global, info: &[u8], text: &mut TextOut) -> Result<(), NoMemory>
    ensures { OnOk result (text.new ≡ text.old ++ replies.info_text info.now) }
{
    let line = with_cr(alloc, without_last_lf(info))?;
    add_told(&Told::Said(&line), text)?;
    Ok(())
}

fn without_last_lf(info: &[u8]) -> &[u8]
    ensures { result.now ≡ replies.without_last_lf info.now }
{
    if info.ends_with(b"\n") {
        &info[..info.len() - 1]
    } else {
        info
    }
}

/// With a CR for each LF.
fn with_cr(alloc: Global, info: &[u8]) -> Result<Vec<u8>, NoMemory>
    ensures { IfOk result (λ line. line.items ≡ map replies.cr_for_lf info.now) }
{
    let mut line = Vec::new(alloc);
    for byte in info {
        line.push(cr_for_lf(*byte))?;
    }
    Ok(line)
}

fn cr_for_lf(byte: u8) -> u8
    ensures { result ≡ replies.cr_for_lf byte }
{
    if byte == b'\n' { b'\r' } else { byte }
}

//! Text of users, in one line. Called by `contents`.
ghost use Rattle.std.specs.Prelude.{◌≡◌, ◌++◌, OnOk};
ghost use Rattle.frame_lines.specs.TextLines as lines;

use radio_base::{NoMemory, TextOut};
use std::alloc::Global;
use text_lines::shown_text;

/// `text TEXT`
pub(crate) fn write_text(alloc: Global, bytes: &[u8], out: &mut TextOut) -> Result<(), NoMemory>
    ensures { OnOk result (out.new ≡ out.old ++ lines.text_line bytes.now) }
{
    let shown = shown_text(alloc, bytes)?;
    let shown = shown.as_str();
    let line = format!(in alloc; "  text {shown}\n")?;
    out.text(line.as_str())?;
    Ok(())
}

//! The line of one item of a KISS stream. Called by `listener`, and by `tool_cmd`.
ghost use Rattle.std.specs.Prelude.{◌≡◌, ◌++◌, ◌+◌, ◌≤◌, List, ℕ, length, Some, OnOk};
ghost use Rattle.kiss_framing.specs.Feeding.{handed_out};
ghost use Rattle.ax_frame.specs.Controls.{IsLinkModulus};
ghost use Rattle.ax_frame.specs.Frames.{view};
ghost use Rattle.ax_frame.specs.FrameText.{number_text};
ghost use Rattle.frame_lines.specs.Listing.{refusal_text, IsDataLine, bad_line, command_line, frame_line, Lists};

use arrayvec::ArrayString;
use ax_frame::{FrameRefusal, FrameView, read_frame, show_frame};
use itoa::Buffer;
use kiss_framing::KissItem;
use radio_base::{Modulus, NoMemory, TextOut};

/// Room for a line that shows no frame, and for what stands before a frame.
type Line = ArrayString<96>;

/// Adds the line of an item of a KISS stream.
pub fn add_item<M: Modulus>(item: &KissItem<'_>, text: &mut TextOut) -> Result<(), NoMemory>
    requires { IsLinkModulus M.SIZE }
    ensures { OnOk result ((line : List ℕ) × Lists M.SIZE (handed_out (Some item.now)) line
        × (text.new ≡ text.old ++ line)) }
{
    match item {
        KissItem::Frame {
            port,
            command,
            payload,
        } => {
            if *command == 0 {
                add_data::<M>(*port, payload, text)?;
                Ok(())
            } else {
                add_command(*port, *command, payload.len(), text)?;
                Ok(())
            }
        }
        KissItem::TooLong => text.text("too long\n"),
    }
}

/// Adds the line of a data frame: its text, or its first fault.
fn add_data<M: Modulus>(port: u8, payload: &[u8], text: &mut TextOut) -> Result<(), NoMemory>
    requires { IsLinkModulus M.SIZE }
    ensures { OnOk result ((line : List ℕ) × IsDataLine M.SIZE port payload.now line × (text.new ≡ text.old ++ line)) }
{
    match &read_frame::<M>(payload) {
        Ok(frame) => {
            add_frame(port, frame, text)?;
            Ok(())
        }
        Err(refusal) => {
            add_bad(port, *refusal, text)?;
            Ok(())
        }
    }
}

/// Adds the line of a frame.
pub(crate) fn add_frame(port: u8, frame: &FrameView<'_>, text: &mut TextOut) -> Result<(), NoMemory>
    ensures { OnOk result (text.new ≡ text.old ++ frame_line port (view frame.now)) }
{
    let mut line = Line::new();
    push_number("port=", port as usize, &mut line);
    line.push_str(" ");
    text.text(line.as_str())?;
    show_frame(frame, text)?;
    text.text("\n")?;
    Ok(())
}

/// Adds the line of octets that spell no frame: their first fault.
pub(crate) fn add_bad(port: u8, refusal: FrameRefusal, text: &mut TextOut) -> Result<(), NoMemory>
    ensures { OnOk result (text.new ≡ text.old ++ bad_line port refusal) }
{
    let mut line = Line::new();
    push_number("port=", port as usize, &mut line);
    line.push_str(" bad ");
    push_refusal(refusal, &mut line);
    line.push('\n');
    text.text(line.as_str())
}

/// Adds the line of a frame of another command than data.
pub(crate) fn add_command(
    port: u8,
    command: u8,
    len: usize,
    text: &mut TextOut,
) -> Result<(), NoMemory>
    ensures { OnOk result (text.new ≡ text.old ++ command_line port command len) }
{
    let mut line = Line::new();
    push_number("port=", port as usize, &mut line);
    push_number(" command=", command as usize, &mut line);
    push_number(" len=", len, &mut line);
    line.push('\n');
    text.text(line.as_str())
}

fn push_refusal(refusal: FrameRefusal, line: &mut Line)
    requires { length line.old.bytes ≤ 60 }
    ensures text { line.new.bytes ≡ line.old.bytes ++ refusal_text refusal }
    ensures len { length line.new.bytes ≤ length line.old.bytes + 30 }
{
    match refusal {
        FrameRefusal::Short { at } => push_number("short ", at, line),
        FrameRefusal::BadCall { at } => push_number("call ", at, line),
        FrameRefusal::TooManyRepeaters => line.push_str("repeaters"),
        FrameRefusal::BadControl { at } => push_number("control ", at, line),
        FrameRefusal::NoPid { at } => push_number("pid ", at, line),
        FrameRefusal::ExtraInfo { at } => push_number("extra ", at, line),
    }
}

fn push_number(name: &str, number: usize, line: &mut Line)
    requires { length line.old.bytes + length name.now + 20 ≤ 96 }
    ensures text { line.new.bytes ≡ line.old.bytes ++ number_text name.now number }
    ensures len { length line.new.bytes ≤ length line.old.bytes + length name.now + 20 }
{
    line.push_str(name);
    if number < 10 {
        line.push((b'0' + number as u8) as char);
    } else {
        line.push_str(Buffer::new().format(number));
    }
}

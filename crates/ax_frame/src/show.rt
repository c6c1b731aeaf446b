//! The text of a frame, as `frames` and the report show it (this project's profile). Called by `link_life`, the replay and `frame_lines`.
ghost use Rattle.std.specs.Prelude.{◌≡◌, ◌<◌, ◌≤◌, ◌+◌, ◌*◌, ◌++◌, ◌∷◌, [], ℕ, length, OnOk, OnErr, IfOk};
ghost use Rattle.std.specs.List.{flat_map};
ghost use Rattle.radio_base.specs.Text.{hex_digit};
ghost use Rattle.ax_frame.specs.Frames.{view};
ghost use Rattle.ax_frame.specs.FrameText as texts;

use crate::control::Format;
use crate::{Control, FrameView, Head, is_command};
use arrayvec::ArrayString;
use ax_address::Address;
use radio_base::{NoMemory, TextOut, push_decimal};

/// Room for the longest text of a frame.
type Line = ArrayString<202>;

/// Appends the frame as a text, as `N0AAA>N0BBB,N0CCC* cmd I ns=1 nr=2 pf=0 pid=F0 len=5`: source,
/// destination and repeaters, of which one that has repeated the frame has a star, then whether it is a
/// command or a response, its kind, and what frames of the kind carry.
pub fn show_frame(frame: &FrameView<'_>, out: &mut TextOut) -> Result<(), NoMemory>
    ensures ok { OnOk result (out.new ≡ out.old ++ texts.frame_text (view frame.now)) }
    ensures err { OnErr result (out.new ≡ out.old) }
{
    let mut line = Line::new();
    push_head(&frame.head, &mut line);
    push_direction(&frame.head, &mut line);
    line.push_str(kind_name(&frame.control));
    push_format(frame.control.format(), &mut line);
    push_pid(frame.pid, &mut line);
    push_info(&frame.control, frame.info.len(), &mut line);
    out.text(line.as_str())?;
    Ok(())
}

fn push_head(head: &Head, line: &mut Line)
    requires { line.old.bytes ≡ [] }
    ensures text { line.new.bytes ≡ texts.head_text head.now }
    ensures len { length line.new.bytes ≤ 107 }
{
    head.source.call.append_to(line);
    line.push('>');
    head.dest.call.append_to(line);
    for repeater in head.path.iter() {
        push_repeater(repeater, line);
    }
}

fn push_repeater(repeater: &Address, line: &mut Line)
    requires { length line.old.bytes + 11 ≤ 202 }
    ensures text { line.new.bytes ≡ line.old.bytes ++ texts.repeater_text repeater.now }
    ensures len { length line.new.bytes ≤ length line.old.bytes + 11 }
{
    line.push(',');
    repeater.call.append_to(line);
    if repeater.bit7 {
        line.push('*');
    }
}

fn push_direction(head: &Head, line: &mut Line)
    requires { length line.old.bytes + 5 ≤ 202 }
    ensures text { line.new.bytes ≡ line.old.bytes ++ texts.direction_text head.now }
    ensures len { length line.new.bytes ≤ length line.old.bytes + 5 }
{
    if is_command(head) {
        line.push_str(" cmd ");
    } else {
        line.push_str(" res ");
    }
}

fn push_format(format: Format, line: &mut Line)
    requires { length line.old.bytes + 53 ≤ 202 }
    ensures text { line.new.bytes ≡ line.old.bytes ++ texts.format_text format }
    ensures len { length line.new.bytes ≤ length line.old.bytes + 53 }
{
    match format {
        Format::Information { ns, nr, pf } => {
            line.push_str(" ns=");
            push_decimal(ns as usize, line);
            line.push_str(" nr=");
            push_decimal(nr as usize, line);
            push_poll(pf, line);
        }
        Format::Supervisory { code: _, nr, pf } => {
            line.push_str(" nr=");
            push_decimal(nr as usize, line);
            push_poll(pf, line);
        }
        Format::Unnumbered { code: _, pf } => push_poll(pf, line),
    }
}

fn push_poll(pf: bool, line: &mut Line)
    requires { length line.old.bytes + 5 ≤ 202 }
    ensures text { line.new.bytes ≡ line.old.bytes ++ texts.poll_text pf }
    ensures len { length line.new.bytes ≤ length line.old.bytes + 5 }
{
    if pf {
        line.push_str(" pf=1");
    } else {
        line.push_str(" pf=0");
    }
}

fn push_pid(pid: Option<u8>, line: &mut Line)
    requires { length line.old.bytes + 7 ≤ 202 }
    ensures text { line.new.bytes ≡ line.old.bytes ++ texts.pid_text pid }
    ensures len { length line.new.bytes ≤ length line.old.bytes + 7 }
{
    if let Some(pid) = pid {
        line.push_str(" pid=");
        line.push(hex_digit(pid >> 4));
        line.push(hex_digit(pid % 16));
    }
}

fn push_info(control: &Control, len: usize, line: &mut Line)
    requires { length line.old.bytes + 25 ≤ 202 }
    ensures text { line.new.bytes ≡ line.old.bytes ++ texts.info_text control.now len }
    ensures len { length line.new.bytes ≤ length line.old.bytes + 25 }
{
    if control.takes_info() {
        line.push_str(" len=");
        push_decimal(len, line);
    }
}

fn hex_digit(n: u8) -> char
    requires { n < 16 }
    ensures value { result ≡ hex_digit n }
    ensures ascii { result < 128 }
{
    b"0123456789ABCDEF"[n as usize] as char
}

fn kind_name(control: &Control) -> &'static str
    ensures text { result.now ≡ texts.kind_name control.now }
    ensures len { length result.now ≤ 5 }
{
    match control {
        Control::I { .. } => "I",
        Control::Rr { .. } => "RR",
        Control::Rnr { .. } => "RNR",
        Control::Rej { .. } => "REJ",
        Control::Srej { .. } => "SREJ",
        Control::Sabm { .. } => "SABM",
        Control::Sabme { .. } => "SABME",
        Control::Disc { .. } => "DISC",
        Control::Dm { .. } => "DM",
        Control::Ua { .. } => "UA",
        Control::Frmr { .. } => "FRMR",
        Control::Ui { .. } => "UI",
        Control::Xid { .. } => "XID",
        Control::Test { .. } => "TEST",
    }
}

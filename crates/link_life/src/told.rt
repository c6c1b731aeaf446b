//! What an act tells: the lines of a report. Called by `epoch_lines`, `life`, `settle` and `turn`.
ghost use Rattle.std.specs.Prelude.{◌≡◌, ◌≤◌, ◌++◌, OnOk, length};
ghost use Rattle.ax_link.specs.Bounds.{CanBeSent};
ghost use Rattle.ax_link.specs.Standing.{frame_of};
ghost use Rattle.link_life.specs.Reports as reports;
ghost use Rattle.link_life.specs.Standing as standing;

use crate::act::Side;
use crate::calls::Calls;
use crate::life_refusals::LifeRefusal;
use arrayvec::ArrayString;
use ax_address::{Address, Path, address_of};
use ax_frame::{FrameView, Head, show_frame};
use ax_link::{LinkNotice, LinkOut};
use radio_base::{Modulus, NoMemory, TextOut, push_decimal};

/// Room for the longest line that isn't a frame's or an epoch's.
type Line = ArrayString<48>;

pub fn letter(side: Side) -> &'static str
    ensures text { result.now ≡ reports.letter side }
    ensures len { length result.now ≤ 1 }
{
    match side {
        Side::A => "a",
        Side::B => "b",
    }
}

fn notice_word(notice: LinkNotice) -> &'static str
    ensures text { result.now ≡ reports.notice_word notice }
    ensures len { length result.now ≤ 7 }
{
    match notice {
        LinkNotice::Opened => "opened",
        LinkNotice::Reset => "reset",
        LinkNotice::Closed => "closed",
        LinkNotice::Refused => "refused",
        LinkNotice::Failed => "failed",
    }
}

/// `notice S WHAT`
fn notice_line(side: Side, notice: LinkNotice) -> Line
    ensures { result.bytes ≡ reports.notice_line (side, notice) }
{
    let mut line = Line::new();
    line.push_str("notice ");
    line.push_str(letter(side));
    line.push_str(" ");
    line.push_str(notice_word(notice));
    line.push_str("\n");
    line
}

pub fn write_notice(side: Side, notice: LinkNotice, text: &mut TextOut) -> Result<(), NoMemory>
    ensures { OnOk result (text.new ≡ text.old ++ reports.notice_line (side, notice)) }
{
    let line = notice_line(side, notice);
    text.text(line.as_str())?;
    Ok(())
}

/// `took S LEN`
fn took_line(side: Side, len: usize) -> Line
    ensures { result.bytes ≡ reports.took_line (side, len) }
{
    let mut line = Line::new();
    line.push_str("took ");
    line.push_str(letter(side));
    line.push_str(" ");
    push_decimal(len, &mut line);
    line.push_str("\n");
    line
}

pub fn write_took(side: Side, len: usize, text: &mut TextOut) -> Result<(), NoMemory>
    ensures { OnOk result (text.new ≡ text.old ++ reports.took_line (side, len)) }
{
    let line = took_line(side, len);
    text.text(line.as_str())?;
    Ok(())
}

fn other(side: Side) -> Side
    ensures { result ≡ reports.other side }
{
    match side {
        Side::A => Side::B,
        Side::B => Side::A,
    }
}

fn side_address(calls: &Calls, side: Side, bit7: bool) -> Address
    ensures { result ≡ reports.side_address side bit7 }
{
    address_of(calls.of(side), bit7)
}

/// Who a frame of a side is to and from.
fn head_of(calls: &Calls, side: Side, command: bool) -> Head
    ensures { result ≡ reports.head_of side command }
{
    Head {
        dest: side_address(calls, other(side), command),
        source: side_address(calls, side, !command),
        path: Path::new(),
    }
}

/// `air S ` of a frame's line
fn air_start(side: Side) -> &'static str
    ensures { result.now ≡ standing.air_start side }
{
    match side {
        Side::A => "air a ",
        Side::B => "air b ",
    }
}

/// `air S FRAME`
pub fn write_frame<M: Modulus>(
    calls: &Calls,
    side: Side,
    out: &LinkOut,
    text: &mut TextOut,
) -> Result<(), NoMemory>
    requires { CanBeSent M.SIZE out.now }
    ensures { OnOk result (text.new ≡ text.old ++ reports.air_line M.SIZE (side, frame_of M.SIZE out.now)) }
{
    text.text(air_start(side))?;
    show_out(calls, side, out, text)?;
    text.text("\n")?;
    Ok(())
}

fn show_out(calls: &Calls, side: Side, out: &LinkOut, text: &mut TextOut) -> Result<(), NoMemory>
    ensures { OnOk result (text.new ≡ text.old ++ standing.out_text side out.now) }
{
    let head = head_of(calls, side, out.command);
    match &out.payload {
        Some(payload) => {
            let frame = FrameView {
                head,
                control: out.control,
                pid: Some(payload.pid),
                info: payload.info.as_slice(),
            };
            show_frame(&frame, text)?;
            Ok(())
        }
        None => {
            let frame = FrameView {
                head,
                control: out.control,
                pid: None,
                info: &[],
            };
            show_frame(&frame, text)?;
            Ok(())
        }
    }
}

/// `refused L WHY`
fn refused_line(line: u32, why: LifeRefusal) -> Line
    ensures { result.bytes ≡ reports.refused_line line why }
{
    let mut text = Line::new();
    text.push_str("refused ");
    push_decimal(line as usize, &mut text);
    text.push_str(" ");
    text.push_str(why.word());
    text.push_str("\n");
    text
}

pub fn write_refused(line: u32, why: LifeRefusal, text: &mut TextOut) -> Result<(), NoMemory>
    ensures { OnOk result (text.new ≡ text.old ++ reports.refused_line line why) }
{
    let line = refused_line(line, why);
    text.text(line.as_str())?;
    Ok(())
}

//! The last lines of a report: the epochs of both ends. Called by `life`.
ghost use Rattle.std.specs.Prelude.{◌≡◌, ◌≤◌, ◌++◌, ◌+◌, OnOk, length};
ghost use Rattle.std.specs.Fmt.{decimal};
ghost use Rattle.link_life.specs.Ends as ends;
ghost use Rattle.link_life.specs.Lives as lives;
ghost use Rattle.link_life.specs.Reports as reports;
ghost use Rattle.link_life.specs.Standing as standing;

use crate::act::Side;
use crate::end::End;
use crate::epoch::{Epoch, epoch_of};
use crate::life::Life;
use crate::told::letter;
use arrayvec::ArrayString;
use radio_base::{Modulus, NoMemory, TextOut, push_decimal};

/// Room for the longest line of an epoch.
type Line = ArrayString<144>;

fn push_count(label: &str, count: u64, line: &mut Line)
    requires { length line.old.bytes + (length label.now + 20) ≤ 144 }
    ensures text { line.new.bytes ≡ line.old.bytes ++ (label.now ++ decimal count) }
    ensures len { length line.new.bytes ≤ length line.old.bytes + (length label.now + 20) }
{
    line.push_str(label);
    push_decimal(count as usize, line);
}

/// `given=G got=H acked=A partner=P`
fn push_counts(epoch: &Epoch, line: &mut Line)
    requires { length line.old.bytes + 107 ≤ 144 }
    ensures text { line.new.bytes ≡ line.old.bytes ++ standing.counts_kept epoch.now }
    ensures len { length line.new.bytes ≤ length line.old.bytes + 107 }
{
    push_count("given=", epoch.given, line);
    push_count(" got=", epoch.got, line);
    push_count(" acked=", epoch.acked, line);
    push_count(" partner=", epoch.partner.unwrap_or(0), line);
}

/// `epoch S E given=G got=H acked=A partner=P`
fn epoch_line(side: Side, number: u64, epoch: &Epoch) -> Line
    ensures { result.bytes ≡ standing.epoch_line_kept side number epoch.now }
{
    let mut line = Line::new();
    line.push_str("epoch ");
    line.push_str(letter(side));
    push_count(" ", number, &mut line);
    line.push_str(" ");
    push_counts(epoch, &mut line);
    line.push_str("\n");
    line
}

fn write_epoch(side: Side, number: u64, epoch: &Epoch, text: &mut TextOut) -> Result<(), NoMemory>
    ensures { OnOk result (text.new ≡ text.old ++ standing.epoch_line_kept side number epoch.now) }
{
    let line = epoch_line(side, number, epoch);
    text.text(line.as_str())?;
    Ok(())
}

fn write_over(side: Side, epochs: &[Epoch], text: &mut TextOut) -> Result<(), NoMemory>
    ensures { OnOk result (text.new ≡ text.old ++ standing.epoch_lines_kept side 0 epochs.now) }
{
    let mut number: u64 = 0;
    for epoch in epochs {
        number += 1;
        write_epoch(side, number, epoch, text)?;
    }
    Ok(())
}

fn write_end<M: Modulus>(side: Side, end: &End<M>, text: &mut TextOut) -> Result<(), NoMemory>
    ensures { OnOk result ((e : ends.End) → standing.EndStands M.SIZE end.now e
        → text.new ≡ text.old ++ reports.epoch_lines side 0 (ends.epochs e)) }
{
    write_over(side, &end.book.over, text)?;
    match end.book.lasting {
        Some(lasting) => {
            let epoch = epoch_of(&end.link.facts(), lasting);
            write_epoch(side, end.book.number(), &epoch, text)?;
            Ok(())
        }
        None => Ok(()),
    }
}

/// The epochs of a, then those of b.
pub fn write_epochs<M: Modulus>(life: &Life<M>, text: &mut TextOut) -> Result<(), NoMemory>
    ensures { OnOk result ((w : lives.Life) → standing.LifeStands M.SIZE life.now w
        → text.new ≡ text.old ++ reports.epochs_text w) }
{
    write_end(Side::A, &life.a, text)?;
    write_end(Side::B, &life.b, text)?;
    Ok(())
}

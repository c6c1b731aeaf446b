//! What comes of a step at one end: its notices are heeded, its frames set out, and a link that went Down is replaced. Called by `turn`.
ghost use Rattle.std.specs.Prelude.{◌≡◌, ◌++◌, [], map, None, Some, OnOk};
ghost use Rattle.std.specs.Option.{option_to_list};
ghost use Rattle.std.specs.List.{flat_map};
ghost use Rattle.ax_frame.specs.Controls.{IsLinkModulus};
ghost use Rattle.ax_link.specs.Opening.{rules_new};
ghost use Rattle.ax_link.specs.Standing.{IsDrained, Stands, frame_of};
ghost use Rattle.ax_link.specs.State.{Effect};
ghost use Rattle.link_life.specs.Ends as ends;
ghost use Rattle.link_life.specs.Lives as lives;
ghost use Rattle.link_life.specs.Reports as reports;
ghost use Rattle.link_life.specs.Standing as standing;

use crate::book::Book;
use crate::end::{End, config};
use crate::flight::Flight;
use crate::told::{write_frame, write_notice};
use crate::turn::{Turn, is_down};
use ax_link::{Link, LinkFacts, LinkPhase};
use radio_base::{Modulus, NoMemory, TextOut};
use std::collections::VecDeque;

/// What the link tells is told, and the book heeds it. These were the link's facts before.
fn tell<M: Modulus>(
    turn: &Turn<'_>,
    before: &LinkFacts,
    link: &mut Link<M>,
    book: &mut Book,
    notices: &mut TextOut,
) -> Result<(), NoMemory>
    ensures link { OnOk result (link.new ≡ record link.old { notice = None }) }
    ensures over { OnOk result (book.new.over.items ≡ standing.over_after link.old.notice before.now book.old) }
    ensures lasting { OnOk result (book.new.lasting ≡ standing.lasting_after link.old.notice book.old.lasting) }
    ensures down { OnOk result (book.new.down_since ≡ book.old.down_since) }
    ensures coming { OnOk result (book.new.coming.items ≡ book.old.coming.items) }
    ensures notices { OnOk result (notices.new
        ≡ notices.old ++ flat_map reports.notice_line
        (map (λ n. (turn.now.side, n)) (option_to_list link.old.notice))) }
{
    if let Some(notice) = link.notice() {
        write_notice(turn.side, notice, notices)?;
        book.heed(notice, before)?;
    }
    Ok(())
}

/// What the link puts out is under way from now on.
fn send_out<M: Modulus>(
    turn: &Turn<'_>,
    epoch: u64,
    link: &mut Link<M>,
    coming: &mut VecDeque<Flight>,
    frames: &mut TextOut,
) -> Result<(), NoMemory>
    ensures link { OnOk result (link.new ≡ record link.old { outs = [] }) }
    ensures coming { OnOk result (map (standing.flight_of M.SIZE) coming.new.items
        ≡ map (standing.flight_of M.SIZE) coming.old.items
        ++ ends.flights turn.now.moment epoch (map (frame_of M.SIZE) link.old.outs)) }
    ensures frames { OnOk result (frames.new
        ≡ frames.old ++ flat_map (reports.air_line M.SIZE)
        (map (λ f. (turn.now.side, f)) (map (frame_of M.SIZE) link.old.outs))) }
{
    while let Some(out) = link.next_out() {
        write_frame::<M>(turn.calls, turn.side, &out, frames)?;
        coming.push_back(Flight {
            sent: turn.moment,
            epoch,
            out,
        })?;
    }
    Ok(())
}

/// A link that went Down is replaced by a new one.
fn replace<M: Modulus>(turn: &Turn<'_>, was: LinkPhase, near: &mut End<M>) -> Result<(), NoMemory>
    requires modulus { IsLinkModulus M.SIZE }
    requires drained { IsDrained near.old.link }
    ensures drained { OnOk result (IsDrained near.new.link) }
    ensures stands { OnOk result ((e : ends.End) → standing.EndStands M.SIZE near.old e
        → standing.EndStands M.SIZE near.new
        (ends.rest (rules_new M.SIZE (lives.settings turn.now.srej)) turn.now.moment was e)) }
{
    if is_down(was) || !is_down(near.link.facts().phase) {
        return Ok(());
    }
    go_down(turn, near)
}

fn go_down<M: Modulus>(turn: &Turn<'_>, near: &mut End<M>) -> Result<(), NoMemory>
    requires modulus { IsLinkModulus M.SIZE }
    ensures drained { OnOk result (IsDrained near.new.link) }
    ensures stands { OnOk result ((e : ends.End) → standing.EndStands M.SIZE near.old e
        → standing.EndStands M.SIZE near.new
        (ends.go_down (rules_new M.SIZE (lives.settings turn.now.srej)) turn.now.moment e)) }
{
    let facts = near.link.facts();
    near.book.end_epoch(&facts)?;
    near.link = Link::new(turn.alloc, config(turn.srej))?;
    near.book.down_since = Some(turn.moment);
    Ok(())
}

/// The near end heeds what its link tells of a step. These were the link's facts before.
pub fn heed<M: Modulus>(
    turn: &Turn<'_>,
    before: &LinkFacts,
    near: &mut End<M>,
    notices: &mut TextOut,
) -> Result<(), NoMemory>
    ensures link { OnOk result (near.new.link ≡ record near.old.link { notice = None }) }
    ensures book { OnOk result ((e : ends.End) (g : Effect) → standing.FactsAre before.now e.link
        → Stands M.SIZE near.old.link g → standing.BookStands M.SIZE near.old.book e
        → standing.BookStands M.SIZE near.new.book (ends.after_step g e)) }
    ensures tells { OnOk result ((g : Effect) → Stands M.SIZE near.old.link g
        → notices.new ≡ notices.old ++ standing.notices_text turn.now.side g) }
{
    tell(turn, before, &mut near.link, &mut near.book, notices)?;
    Ok(())
}

/// What the near end's link puts out sets out to the far one, and a link that went Down is replaced. In this phase it was before.
pub fn put_out<M: Modulus>(
    turn: &Turn<'_>,
    was: LinkPhase,
    near: &mut End<M>,
    far: &mut End<M>,
    frames: &mut TextOut,
) -> Result<(), NoMemory>
    requires modulus { IsLinkModulus M.SIZE }
    requires quiet { near.old.link.notice ≡ None }
    ensures drained { OnOk result (IsDrained near.new.link) }
    ensures far { OnOk result (far.new.link ≡ far.old.link) }
    ensures stands { OnOk result ((p : ends.Ends) (g : Effect) → was ≡ p.near.link.phase
        → standing.Heeded M.SIZE near.old g (ends.after_step g p.near) → standing.EndStands M.SIZE far.old p.far
        → standing.EndsStand M.SIZE near.new far.new
        (ends.step_near (rules_new M.SIZE (lives.settings turn.now.srej)) turn.now.moment g p)) }
    ensures tells { OnOk result ((g : Effect) → Stands M.SIZE near.old.link g
        → frames.new ≡ frames.old ++ standing.frames_text M.SIZE turn.now.side g) }
{
    let epoch = near.book.number();
    send_out(turn, epoch, &mut near.link, &mut far.book.coming, frames)?;
    replace(turn, was, near)?;
    Ok(())
}

/// What comes of a step of the near end's link. These were its facts before.
pub fn settle<M: Modulus>(
    turn: &Turn<'_>,
    before: &LinkFacts,
    near: &mut End<M>,
    far: &mut End<M>,
    text: &mut TextOut,
) -> Result<(), NoMemory>
    requires modulus { IsLinkModulus M.SIZE }
    ensures drained { OnOk result (IsDrained near.new.link) }
    ensures far { OnOk result (far.new.link ≡ far.old.link) }
    ensures stands { OnOk result ((p : ends.Ends) (g : Effect) → standing.FactsAre before.now p.near.link
        → standing.StepStands M.SIZE near.old far.old g p
        → standing.EndsStand M.SIZE near.new far.new
        (ends.step_near (rules_new M.SIZE (lives.settings turn.now.srej)) turn.now.moment g p)) }
    ensures tells { OnOk result ((g : Effect) → Stands M.SIZE near.old.link g
        → text.new ≡ text.old ++ reports.told_text M.SIZE (lives.told_by_step turn.now.side [] g)) }
{
    heed(turn, before, near, text)?;
    put_out(turn, before.phase, near, far, text)?;
    Ok(())
}

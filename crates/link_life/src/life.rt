//! The life of a link, act by act. Called by `tool_cmd`.
ghost use Rattle.std.specs.Prelude.{◌≡◌, ◌++◌, OnOk, OnErr, IfOk, ◌||◌, None};
ghost use Rattle.ax_frame.specs.Controls.{IsLinkModulus};
ghost use Rattle.link_life.specs.Lives as lives;
ghost use Rattle.link_life.specs.Reports as reports;
ghost use Rattle.link_life.specs.Standing as standing;

use crate::act::{EndAct, LifeAct, NumberedAct, Side};
use crate::calls::Calls;
use crate::end::End;
use crate::epoch_lines::write_epochs;
use crate::flight::Flight;
use crate::life_refusals::LifeRefusal;
use crate::script::LifeScript;
use crate::told::write_refused;
use crate::turn::{Answer, Turn, act_near, tick};
use radio_base::{Modulus, NoMemory, TextOut};
use std::alloc::Global;
use std::collections::VecDeque;

/// Both ends, and the time.
#[derive(Drop)]
pub struct Life<M: Modulus> {
    pub alloc: Global,
    pub calls: Calls,
    pub srej: bool,
    /// For how long a frame may be under way, in milliseconds.
    pub delay: u64,
    pub moment: u64,
    pub a: End<M>,
    pub b: End<M>,
}

impl<M: Modulus> Life<M> {
    ghost use Rattle.std.specs.Prelude.{IfOk, ◌≡◌};
    ghost use Rattle.ax_frame.specs.Controls.{IsLinkModulus};
    ghost use Rattle.link_life.specs.Lives as lives;
    ghost use Rattle.link_life.specs.Standing as standing;

    fn new(alloc: Global, srej: bool, delay: u64) -> Result<Life<M>, NoMemory>
        requires { IsLinkModulus M.SIZE }
        ensures stands { IfOk result (λ life. standing.LifeStands M.SIZE life (lives.new_life M.SIZE srej delay)) }
        ensures rests { IfOk result (λ life. standing.Rests life) }
    {
        let a = End::new(alloc, srej)?;
        let b = End::new(alloc, srej)?;
        Ok(Life {
            alloc,
            calls: Calls::new(),
            srej,
            delay,
            moment: 0,
            a,
            b,
        })
    }
}

fn act_at<M: Modulus>(
    life: &mut Life<M>,
    side: Side,
    act: &EndAct<'_>,
    text: &mut TextOut,
) -> Answer
    requires modulus { IsLinkModulus M.SIZE }
    requires rests { standing.Rests life.old }
    ensures rests { OnOk result (standing.Rests life.new) }
    ensures does { IfOk result (λ answer. (w : lives.Life) → standing.LifeStands M.SIZE life.old w
        → standing.LifeComesTo M.SIZE answer life.new text.old text.new w (lives.act_at side act.now w)) }
{
    let turn = Turn {
        alloc: life.alloc,
        srej: life.srej,
        moment: life.moment,
        side,
        calls: &life.calls,
    };
    match side {
        Side::A => {
            let answer = act_near(&turn, act, &mut life.a, &mut life.b, text)?;
            Ok(answer)
        }
        Side::B => {
            let answer = act_near(&turn, act, &mut life.b, &mut life.a, text)?;
            Ok(answer)
        }
    }
}

/// Whether a frame would be older than the channel delays one.
fn is_late(delay: u64, now: u64, coming: &VecDeque<Flight>) -> bool
    ensures { result ≡ standing.is_late_kept delay now coming.now.items }
{
    coming
        .iter()
        .any(|flight| now.saturating_sub(flight.sent) > delay)
}

/// Whether any frame would be, at a later moment.
fn is_too_late<M: Modulus>(life: &Life<M>, later: u64) -> bool
    ensures { result ≡ (standing.is_late_kept life.now.delay later life.now.a.book.coming.items
        || standing.is_late_kept life.now.delay later life.now.b.book.coming.items) }
{
    is_late(life.delay, later, &life.a.book.coming)
        || is_late(life.delay, later, &life.b.book.coming)
}

/// Time goes on, first at a: the notices of both are told first, and then the frames of both.
fn tick_both<M: Modulus>(life: &mut Life<M>, text: &mut TextOut) -> Result<(), NoMemory>
    requires modulus { IsLinkModulus M.SIZE }
    requires rests { standing.Rests life.old }
    ensures rests { OnOk result (standing.Rests life.new) }
    ensures does { OnOk result ((w : lives.Life) → standing.LifeStands M.SIZE life.old w
        → standing.LifeComesTo M.SIZE None life.new text.old text.new w (lives.tick_both w)) }
{
    let mut frames = TextOut::new(life.alloc);
    let turn = Turn {
        alloc: life.alloc,
        srej: life.srej,
        moment: life.moment,
        side: Side::A,
        calls: &life.calls,
    };
    tick(&turn, &mut life.a, &mut life.b, text, &mut frames)?;
    let turn = Turn {
        side: Side::B,
        ..turn
    };
    tick(&turn, &mut life.b, &mut life.a, text, &mut frames)?;
    text.append(frames)?;
    Ok(())
}

fn tick_on<M: Modulus>(life: &mut Life<M>, passed: u64, text: &mut TextOut) -> Answer
    requires modulus { IsLinkModulus M.SIZE }
    requires rests { standing.Rests life.old }
    ensures rests { OnOk result (standing.Rests life.new) }
    ensures does { IfOk result (λ answer. (w : lives.Life) → standing.LifeStands M.SIZE life.old w
        → standing.LifeComesTo M.SIZE answer life.new text.old text.new w (lives.tick_on passed w)) }
{
    let later = life.moment.saturating_add(passed);
    if is_too_late(life, later) {
        return Ok(Some(LifeRefusal::Delay));
    }
    life.moment = later;
    tick_both(life, text)?;
    Ok(None)
}

fn act_on<M: Modulus>(life: &mut Life<M>, act: &LifeAct<'_>, text: &mut TextOut) -> Answer
    requires modulus { IsLinkModulus M.SIZE }
    requires rests { standing.Rests life.old }
    ensures rests { OnOk result (standing.Rests life.new) }
    ensures does { IfOk result (λ answer. (w : lives.Life) → standing.LifeStands M.SIZE life.old w
        → standing.LifeComesTo M.SIZE answer life.new text.old text.new w (lives.act_on act.now w)) }
{
    match act {
        LifeAct::At(side, act) => act_at(life, *side, act, text),
        LifeAct::Tick(passed) => tick_on(life, *passed, text),
    }
}

/// Does what a line asks for, and appends what is reported of it.
fn write_line<M: Modulus>(
    life: &mut Life<M>,
    numbered: &NumberedAct<'_>,
    report: &mut TextOut,
) -> Result<(), NoMemory>
    requires modulus { IsLinkModulus M.SIZE }
    requires rests { standing.Rests life.old }
    ensures rests { OnOk result (standing.Rests life.new) }
    ensures does { OnOk result ((w : lives.Life) → standing.LifeStands M.SIZE life.old w
        → standing.LineWritten M.SIZE life.new report.old report.new numbered.now.line w
        (lives.act_on numbered.now.act w)) }
{
    match act_on(life, &numbered.act, report)? {
        Some(why) => {
            write_refused(numbered.line, why, report)?;
            Ok(())
        }
        None => Ok(()),
    }
}

/// Appends the report of the life that a script tells, by a modulus of 8 or 128, over a channel that delays a frame by at most so
/// many milliseconds; or nothing, where memory ran out.
pub fn run_life<M: Modulus>(
    alloc: Global,
    script: &LifeScript<'_>,
    srej: bool,
    delay: u64,
    out: &mut TextOut,
) -> Result<(), NoMemory>
    requires { IsLinkModulus M.SIZE }
    ensures ok { OnOk result (out.new ≡ out.old ++ reports.life_text (lives.new_life M.SIZE srej delay) script.now) }
    ensures err { OnErr result (out.new ≡ out.old) }
{
    let report = report_of::<M>(alloc, script.acts(), srej, delay)?;
    out.append(report)?;
    Ok(())
}

fn report_of<M: Modulus>(
    alloc: Global,
    acts: &[NumberedAct<'_>],
    srej: bool,
    delay: u64,
) -> Result<TextOut, NoMemory>
    requires { IsLinkModulus M.SIZE }
    ensures { IfOk result (λ text. text ≡ reports.life_text (lives.new_life M.SIZE srej delay) acts.now) }
{
    let mut life: Life<M> = Life::new(alloc, srej, delay)?;
    let mut report = TextOut::new(alloc);
    for numbered in acts {
        write_line(&mut life, numbered, &mut report)?;
    }
    write_epochs(&life, &mut report)?;
    Ok(report)
}

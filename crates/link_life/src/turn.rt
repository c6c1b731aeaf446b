//! What is done at one end. Called by `life`.
ghost use Rattle.std.specs.Prelude.{◌≡◌, Some, OnOk, IfOk};
ghost use Rattle.ax_frame.specs.Controls.{IsLinkModulus};
ghost use Rattle.ax_link.specs.Standing.{IsDrained, Stands, StandsFor, frame_of};
ghost use Rattle.ax_link.specs.State.{State};
ghost use Rattle.ax_link.specs.Table as table;
ghost use Rattle.link_life.specs.declared.act.EndAct.TheVariants as acts;
ghost use Rattle.link_life.specs.Ends as ends;
ghost use Rattle.link_life.specs.Lives as lives;
ghost use Rattle.link_life.specs.Standing as standing;

use crate::act::{EndAct, Side};
use crate::book::{Book, is_of_account};
use crate::calls::Calls;
use crate::end::End;
use crate::flight::Flight;
use crate::life_refusals::LifeRefusal;
use crate::sent_text::SentText;
use crate::settle::{heed, put_out, settle};
use crate::told::write_took;
use ax_link::{Link, LinkOut, LinkPhase, SendRefusal};
use radio_base::{Modulus, Moment, NoMemory, TextOut};
use std::alloc::Global;

/// For so long an end that went Down isn't set up again, in milliseconds.
const PAUSE: u64 = 3000;

/// When and at which side something is done.
#[derive(Clone, Copy)]
pub struct Turn<'a> {
    pub alloc: Global,
    pub srej: bool,
    pub moment: u64,
    pub side: Side,
    pub calls: &'a Calls,
}

/// Nothing where an act is done, or why it isn't.
pub type Answer = Result<Option<LifeRefusal>, NoMemory>;

pub(crate) fn is_down(phase: LinkPhase) -> bool
    ensures { result ≡ ends.is_down phase }
{
    matches!(phase, LinkPhase::Down)
}

fn is_early(down_since: Option<u64>, now: u64) -> bool
    ensures { result ≡ lives.is_early down_since now }
{
    match down_since {
        Some(since) => now.saturating_sub(since) < PAUSE,
        None => false,
    }
}

fn set_up<M: Modulus>(
    turn: &Turn<'_>,
    near: &mut End<M>,
    far: &mut End<M>,
    text: &mut TextOut,
) -> Answer
    requires modulus { IsLinkModulus M.SIZE }
    requires drained { IsDrained near.old.link }
    ensures drained { OnOk result (IsDrained near.new.link) }
    ensures far { OnOk result (far.new.link ≡ far.old.link) }
    ensures does { IfOk result (λ answer. (p : ends.Ends) → standing.EndsStand M.SIZE near.old far.old p
        → standing.ComesTo M.SIZE answer near.new far.new text.old text.new p
        (lives.act_near (standing.turn_of M.SIZE turn.now) acts.SetUp p)) }
{
    let before = near.link.facts();
    if !is_down(before.phase) {
        return Ok(Some(LifeRefusal::Phase));
    }
    if is_early(near.book.down_since, turn.moment) {
        return Ok(Some(LifeRefusal::Early));
    }
    near.link.set_up(Moment(turn.moment));
    settle(turn, &before, near, far, text)?;
    Ok(None)
}

fn of_send(refusal: SendRefusal) -> LifeRefusal
    ensures { result ≡ standing.of_send refusal }
{
    match refusal {
        SendRefusal::NotUp => LifeRefusal::NotUp,
        SendRefusal::QueueFull => LifeRefusal::QueueFull,
        SendRefusal::Exhausted => LifeRefusal::Exhausted,
    }
}

fn send<M: Modulus>(
    turn: &Turn<'_>,
    sent: &SentText<'_>,
    near: &mut End<M>,
    far: &mut End<M>,
    text: &mut TextOut,
) -> Answer
    requires modulus { IsLinkModulus M.SIZE }
    requires drained { IsDrained near.old.link }
    ensures drained { OnOk result (IsDrained near.new.link) }
    ensures far { OnOk result (far.new.link ≡ far.old.link) }
    ensures does { IfOk result (λ answer. (p : ends.Ends) → standing.EndsStand M.SIZE near.old far.old p
        → standing.ComesTo M.SIZE answer near.new far.new text.old text.new p
        (lives.act_near (standing.turn_of M.SIZE turn.now) (acts.Send sent.now) p)) }
{
    let before = near.link.facts();
    match near.link.send(&sent.payload(), Moment(turn.moment)) {
        Ok(()) => {
            settle(turn, &before, near, far, text)?;
            Ok(None)
        }
        Err(refusal) => Ok(Some(of_send(refusal))),
    }
}

fn close<M: Modulus>(
    turn: &Turn<'_>,
    near: &mut End<M>,
    far: &mut End<M>,
    text: &mut TextOut,
) -> Answer
    requires modulus { IsLinkModulus M.SIZE }
    requires drained { IsDrained near.old.link }
    ensures drained { OnOk result (IsDrained near.new.link) }
    ensures far { OnOk result (far.new.link ≡ far.old.link) }
    ensures does { IfOk result (λ answer. (p : ends.Ends) → standing.EndsStand M.SIZE near.old far.old p
        → standing.ComesTo M.SIZE answer near.new far.new text.old text.new p
        (lives.act_near (standing.turn_of M.SIZE turn.now) acts.Close p)) }
{
    let before = near.link.facts();
    near.link.close(Moment(turn.moment));
    settle(turn, &before, near, far, text)?;
    Ok(None)
}

fn take<M: Modulus>(
    turn: &Turn<'_>,
    near: &mut End<M>,
    far: &mut End<M>,
    text: &mut TextOut,
) -> Answer
    requires modulus { IsLinkModulus M.SIZE }
    requires drained { IsDrained near.old.link }
    ensures drained { OnOk result (IsDrained near.new.link) }
    ensures far { OnOk result (far.new.link ≡ far.old.link) }
    ensures does { IfOk result (λ answer. (p : ends.Ends) → standing.EndsStand M.SIZE near.old far.old p
        → standing.ComesTo M.SIZE answer near.new far.new text.old text.new p
        (lives.act_near (standing.turn_of M.SIZE turn.now) acts.Take p)) }
{
    let Some(payload) = near.link.first() else {
        return Ok(Some(LifeRefusal::Nothing));
    };
    write_took(turn.side, payload.info.len(), text)?;
    let before = near.link.facts();
    let _ = near.link.take(Moment(turn.moment));
    settle(turn, &before, near, far, text)?;
    Ok(None)
}

/// Time has passed at the near end. Its notices and its frames are told apart.
pub fn tick<M: Modulus>(
    turn: &Turn<'_>,
    near: &mut End<M>,
    far: &mut End<M>,
    notices: &mut TextOut,
    frames: &mut TextOut,
) -> Result<(), NoMemory>
    requires modulus { IsLinkModulus M.SIZE }
    requires drained { IsDrained near.old.link }
    ensures drained { OnOk result (IsDrained near.new.link) }
    ensures far { OnOk result (far.new.link ≡ far.old.link) }
    ensures does { OnOk result ((p : ends.Ends) → standing.EndsStand M.SIZE near.old far.old p
        → standing.Ticked M.SIZE
        (standing.turn_of M.SIZE turn.now) near.new far.new notices.old notices.new frames.old frames.new p) }
{
    let before = near.link.facts();
    near.link.tick(Moment(turn.moment));
    heed(turn, &before, near, notices)?;
    put_out(turn, before.phase, near, far, frames)?;
    Ok(())
}

/// The link takes in a frame.
fn hand<M: Modulus>(out: &LinkOut, link: &mut Link<M>, now: u64)
    requires { IsDrained link.old }
    ensures { (s : State) → StandsFor M.SIZE link.old s
        → Stands M.SIZE link.new (table.step s (table.Arrive (frame_of M.SIZE out.now)) now) }
{
    match &out.payload {
        Some(payload) => link.arrive(
            out.command,
            &out.control,
            Some(payload.pid),
            payload.info.as_slice(),
            Moment(now),
        ),
        None => link.arrive(out.command, &out.control, None, &[], Moment(now)),
    }
}

/// A frame comes: an end that is Up hears it where it is of account.
fn hear(flight: &Flight, phase: LinkPhase, book: &mut Book)
    ensures over { book.new.over.items ≡ book.old.over.items }
    ensures lasting { book.new.lasting ≡ standing.heard_kept flight.now phase book.old.lasting }
    ensures down { book.new.down_since ≡ book.old.down_since }
    ensures coming { book.new.coming.items ≡ book.old.coming.items }
{
    if matches!(phase, LinkPhase::Up) && is_of_account(&flight.out.control) {
        book.hear(flight.epoch);
    }
}

fn arrive<M: Modulus>(
    turn: &Turn<'_>,
    near: &mut End<M>,
    far: &mut End<M>,
    text: &mut TextOut,
) -> Answer
    requires modulus { IsLinkModulus M.SIZE }
    requires drained { IsDrained near.old.link }
    ensures drained { OnOk result (IsDrained near.new.link) }
    ensures far { OnOk result (far.new.link ≡ far.old.link) }
    ensures does { IfOk result (λ answer. (p : ends.Ends) → standing.EndsStand M.SIZE near.old far.old p
        → standing.ComesTo M.SIZE answer near.new far.new text.old text.new p
        (lives.act_near (standing.turn_of M.SIZE turn.now) acts.Arrive p)) }
{
    match near.book.coming.pop_front() {
        Some(flight) => {
            let before = near.link.facts();
            hear(&flight, before.phase, &mut near.book);
            hand(&flight.out, &mut near.link, turn.moment);
            settle(turn, &before, near, far, text)?;
            Ok(None)
        }
        None => Ok(Some(LifeRefusal::Nothing)),
    }
}

fn lose<M: Modulus>(near: &mut End<M>) -> Option<LifeRefusal>
    ensures link { near.new.link ≡ near.old.link }
    ensures does { (e : ends.End) → standing.EndStands M.SIZE near.old e
        → standing.LosesTo M.SIZE result near.new e e.coming }
{
    match near.book.coming.pop_front() {
        Some(_) => None,
        None => Some(LifeRefusal::Nothing),
    }
}

/// What is done at the near end.
pub fn act_near<M: Modulus>(
    turn: &Turn<'_>,
    act: &EndAct<'_>,
    near: &mut End<M>,
    far: &mut End<M>,
    text: &mut TextOut,
) -> Answer
    requires modulus { IsLinkModulus M.SIZE }
    requires drained { IsDrained near.old.link }
    ensures drained { OnOk result (IsDrained near.new.link) }
    ensures far { OnOk result (far.new.link ≡ far.old.link) }
    ensures does { IfOk result (λ answer. (p : ends.Ends) → standing.EndsStand M.SIZE near.old far.old p
        → standing.ComesTo M.SIZE answer near.new far.new text.old text.new p
        (lives.act_near (standing.turn_of M.SIZE turn.now) act.now p)) }
{
    match act {
        EndAct::SetUp => set_up(turn, near, far, text),
        EndAct::Send(sent) => send(turn, sent, near, far, text),
        EndAct::Close => close(turn, near, far, text),
        EndAct::Take => take(turn, near, far, text),
        EndAct::Arrive => arrive(turn, near, far, text),
        EndAct::Lose => Ok(lose(near)),
    }
}

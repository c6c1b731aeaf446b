//! One end of a link: its public calls. Called by `link_life` and `link_table`.
ghost use Rattle.std.specs.Prelude.{◌≡◌, ℕ, List, ◌≤◌, ◌<◌, drop, slice_get, IfOk, IfSome, OnOk, OnErr, IsTrue, ◌↔◌, ◌⊎◌, None, is_ok, min};
ghost use Rattle.std.specs.Option.{option_copied};
ghost use Rattle.ax_link.specs.Kinds.{frame_in};
ghost use Rattle.ax_link.specs.State.{State, count_end};
ghost use Rattle.ax_link.specs.Table as table;
ghost use Rattle.ax_link.specs.Standing.{IsDrained, Stands, StandsFor, kept, share};
ghost use Rattle.ax_link.specs.Bounds.{CanBeSent};
ghost use Rattle.ax_link.specs.Opening.{facts_of, opening, rules_new, send_answer};

use crate::config::LinkConfig;
use crate::facts::LinkFacts;
use crate::frame_in::FrameIn;
use crate::machine::Machine;
use crate::notice::LinkNotice;
use crate::out::LinkOut;
use crate::refusal::SendRefusal;
use ax_frame::Control;
use radio_base::{Millis, Modulus, Moment, NoMemory, Payload};
use std::alloc::Global;
use std::marker::Model;

/// One end of a link (AX.25 2.2, sections 4 and 6): a pure machine, which reads no clock and no stream. Its calls are of three kinds.
///
/// - Inputs, each with its moment in milliseconds: `set_up`, `send`, `close` and `take` of the user, `arrive` of a frame of the other
///   station, `tick` of time. They want `drained()`.
/// - Outputs: `next_out` and `notice`. After each input both are fetched until they answer None.
/// - Looks, which change nothing: `first`, `first_out`, `facts`, `drained`.
///
/// `tick` is called about once a second, since no call tells when the next timer is due. `new` takes all the memory that a link needs.
/// What each input does is one row of the table in `specs/Table.antt`, and the phases are drawn at `LinkPhase`.
///
/// In use (`ax_link_tests`, `a_link_in_use`):
///
/// ```text
/// let mut link = Link::<M8>::new(alloc, config)?;
/// link.set_up(now);
/// let set_up = link.next_out(); // a SABM for the other station
/// assert!(rt; link.drained());
/// link.arrive(false, &Control::Ua { pf: true }, None, &[], now);
/// let told = link.notice(); // Opened
/// assert!(rt; link.drained());
/// let answer = link.send(&payload, now); // Ok
/// let text = link.next_out(); // an I with the payload
/// assert!(rt; link.drained());
/// link.close(now); // a DISC follows once the payload is acknowledged
/// ```
#[derive(Drop)]
pub struct Link<M: Modulus> {
    machine: Machine<M>,
}

impl<M: Modulus> Model for Link<M> {
    ghost use Rattle.std.specs.Prelude.{◌<◌};
    ghost use Rattle.ax_link.specs.Standing.{LinkView};

    ghost Value = { LinkView };

    ghost use Rattle.ax_link.specs.Calls.{view_of};

    ghost view = { λ l. view_of l.machine };

    ghost use Rattle.ax_link.specs.Bounds.{AllCanBeSent};

    // The window fits the modulus, and each frame that waits can be written.
    ghost invariant = { λ l. (l.machine.window < M.SIZE) × AllCanBeSent M.SIZE l.machine.outs.items };
}

impl<M: Modulus> Link<M> {
    /// A link that is Down, of modulo 8 or 128. It takes all the memory that it will ever need.
    pub fn new(alloc: Global, config: LinkConfig) -> Result<Link<M>, NoMemory>
        requires modulus { (M.SIZE ≡ 8) ⊎ (M.SIZE ≡ 128) }
        requires t1 { config.t1 ≤ count_end }
        requires t3 { config.t3 ≤ count_end }
        ensures opening { IfOk result (λ link. StandsFor M.SIZE link (opening (rules_new M.SIZE config))) }
        ensures drained { IfOk result IsDrained }
    {
        let machine = Machine::new(alloc, config)?;
        Ok(Link { machine })
    }

    /// Sets the link up, where it is Down.
    pub fn set_up(&mut self, now: Moment)
        requires { IsDrained self.old }
        ensures does { (s : State) → StandsFor M.SIZE self.old s
            → Stands M.SIZE self.new (table.step s table.Set_up now.0) }
        ensures kept { (s : State) → StandsFor M.SIZE self.old s → kept self.new ≤ share M.SIZE }
        ensures quiet { self.new.notice ≡ None }
    {
        self.machine.set_up(Millis::of(now));
    }

    /// Accepts a payload for the other station.
    pub fn send(&mut self, payload: &Payload, now: Moment) -> Result<(), SendRefusal>
        requires { IsDrained self.old }
        ensures answer { result ≡ send_answer self.old }
        ensures takes { (s : State) → StandsFor M.SIZE self.old s → is_ok result ≡ table.takes s }
        ensures does { OnOk result ((s : State) → StandsFor M.SIZE self.old s
            → Stands M.SIZE self.new (table.step s (table.Send payload.now) now.0)) }
        ensures kept { OnOk result ((s : State) → StandsFor M.SIZE self.old s → kept self.new ≤ share M.SIZE) }
        ensures quiet { OnOk result (self.new.notice ≡ None) }
        ensures err { OnErr result (self.new ≡ self.old) }
    {
        self.machine.send(payload, Millis::of(now))
    }

    /// Takes in a frame of the other station.
    pub fn arrive(
        &mut self,
        command: bool,
        control: &Control,
        pid: Option<u8>,
        info: &[u8],
        now: Moment,
    )
        requires { IsDrained self.old }
        ensures does { (s : State) → StandsFor M.SIZE self.old s
            → Stands M.SIZE self.new
            (table.step s (table.Arrive (frame_in M.SIZE command control.now pid info.now)) now.0) }
        ensures kept { (s : State) → StandsFor M.SIZE self.old s → kept self.new ≤ share M.SIZE }
    {
        let frame = FrameIn::of::<M>(command, control, pid, info);
        self.machine.arrive(&frame, Millis::of(now));
    }

    /// Time has passed.
    pub fn tick(&mut self, now: Moment)
        requires { IsDrained self.old }
        ensures does { (s : State) → StandsFor M.SIZE self.old s
            → Stands M.SIZE self.new (table.step s table.Tick now.0) }
        ensures kept { (s : State) → StandsFor M.SIZE self.old s → kept self.new ≤ share M.SIZE }
    {
        self.machine.tick(Millis::of(now));
    }

    /// Releases the link once all that was accepted is acknowledged.
    pub fn close(&mut self, now: Moment)
        requires { IsDrained self.old }
        ensures does { (s : State) → StandsFor M.SIZE self.old s
            → Stands M.SIZE self.new (table.step s table.Close now.0) }
        ensures kept { (s : State) → StandsFor M.SIZE self.old s → kept self.new ≤ share M.SIZE }
    {
        self.machine.close(Millis::of(now));
    }

    /// The next frame that waits to be sent. It can be written: its numbers are below the modulus, and it has a PID and
    /// information exactly where its kind has them.
    #[inline(always)]
    pub fn next_out(&mut self) -> Option<LinkOut>
        ensures value { result ≡ slice_get self.old.outs 0 }
        ensures can_be_sent { IfSome result (CanBeSent M.SIZE) }
        ensures rest { self.new ≡ record self.old { outs = drop 1 self.old.outs } }
    {
        self.machine.outs.pop_front()
    }

    /// The frame that `next_out` would give.
    pub fn first_out(&self) -> Option<&LinkOut>
        ensures value { option_copied result ≡ slice_get self.now.outs 0 }
        ensures can_be_sent { IfSome (option_copied result) (CanBeSent M.SIZE) }
    {
        self.machine.outs.front()
    }

    /// The next notice.
    pub fn notice(&mut self) -> Option<LinkNotice>
        ensures value { result ≡ self.old.notice }
        ensures rest { self.new ≡ record self.old { notice = None } }
    {
        self.machine.notice.take()
    }

    /// Takes the oldest payload of the inbox.
    #[inline(always)]
    pub fn take(&mut self, now: Moment) -> Option<Payload>
        requires { IsDrained self.old }
        ensures does { (s : State) → StandsFor M.SIZE self.old s
            → Stands M.SIZE self.new (table.step s table.Take now.0) }
        ensures kept { (s : State) → StandsFor M.SIZE self.old s → kept self.new ≤ share M.SIZE }
        ensures quiet { self.new.notice ≡ None }
        ensures payload { result ≡ slice_get self.old.inbox 0 }
    {
        self.machine.take()
    }

    /// The oldest payload of the inbox.
    pub fn first(&self) -> Option<&Payload>
        ensures { option_copied result ≡ slice_get self.now.inbox 0 }
    {
        self.machine.inbox.front()
    }

    /// The phase and the counts as they stand.
    pub fn facts(&self) -> LinkFacts
        ensures { result ≡ facts_of self.now }
    {
        LinkFacts {
            phase: self.machine.phase,
            acked: self.machine.acked,
            sent: self.machine.sent,
            got: self.machine.got,
            held: self.machine.queue.len(),
            inbox: self.machine.inbox.len(),
            closing: self.machine.closing,
        }
    }

    /// Whether no frame and no notice waits.
    pub fn drained(&self) -> bool
        ensures { IsTrue result ↔ IsDrained self.now }
    {
        self.machine.outs.is_empty() && self.machine.notice.is_none()
    }
}

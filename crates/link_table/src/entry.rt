//! A link of the table, with its route and its joiner: its steps (AX.25 2.2, section 6). Called by `held_links`, `offers`, `text_calls` and
//! `texts`.
ghost use Rattle.std.specs.Prelude.{◌≡◌, ◌≤◌, ℕ, OnOk, IfOk, not, ◌&&◌, false};
ghost use Rattle.ax_link.specs.State.{count_end};
ghost use Rattle.ax_frame.specs.FrameText.{is_command};
ghost use Rattle.ax_link.specs.Kinds.{frame_in, kind_of};
ghost use Rattle.ax_link.specs.Opening.{opening, rules_new};
ghost use Rattle.ax_link.specs.Standing.{IsDrained, StandsFor};
ghost use Rattle.ax_link.specs.Table as table;
ghost use Rattle.ax_segment.specs.Joining.{Nothing};
ghost use Rattle.radio_base.specs.Modulus.{modulus_size};
ghost use Rattle.link_table.specs.Works as works;

use crate::LinkOf;
use crate::pending::Pending;
use crate::route::LinkRoute;
use ax_address::Path;
use ax_frame::{Control, FrameView, is_command};
use ax_link::{LinkConfig, LinkPhase};
use ax_segment::Joiner;
use radio_base::{COUNT_MAX, LinkModulus, Moment, NoMemory};
use std::alloc::Global;

/// The most payloads that a link holds.
const MOST_HELD: usize = 128;

/// A link, over what its frames go, and what is held of a message in segments.
#[derive(Drop)]
pub(crate) struct LinkEntry {
    pub(crate) link: LinkOf,
    pub(crate) route: LinkRoute,
    pub(crate) joiner: Joiner,
    /// Whether the peer's set-up has made the link, or has set it up again since.
    pub(crate) called: bool,
}

impl LinkEntry {
    ghost use Rattle.link_table.specs.Standing.{EntryGoes, held_of, modulus_of, room_in, size_of};

    /// A link that is Down.
    pub(crate) fn new(
        alloc: Global,
        modulus: LinkModulus,
        config: LinkConfig,
        route: LinkRoute,
    ) -> Result<LinkEntry, NoMemory>
        requires t1 { config.t1 ≤ count_end }
        requires t3 { config.t3 ≤ count_end }
        ensures modulus { IfOk result (λ e. modulus_of e.link ≡ modulus) }
        ensures link { IfOk result (λ e. StandsFor (modulus_size modulus) (held_of e.link)
            (opening (rules_new (modulus_size modulus) config))) }
        ensures drained { IfOk result (λ e. IsDrained (held_of e.link)) }
        ensures route { IfOk result (λ e. e.route ≡ route) }
        ensures joiner { IfOk result (λ e. e.joiner ≡ Nothing) }
        ensures called { IfOk result (λ e. e.called ≡ false) }
    {
        Ok(LinkEntry {
            link: LinkOf::new(alloc, modulus, config)?,
            route,
            joiner: Joiner::new(alloc),
            called: false,
        })
    }

    pub(crate) fn link(&self) -> &LinkOf
        ensures { result.now ≡ self.now.link }
    {
        &self.link
    }

    pub(crate) fn path(&self) -> &Path
        ensures { result.now ≡ self.now.route.path }
    {
        &self.route.path
    }

    pub(crate) fn is_down(&self) -> bool
        ensures { result ≡ works.is_down (held_of self.now.link).phase }
    {
        matches!(self.link.phase(), LinkPhase::Down)
    }

    pub(crate) fn modulus(&self) -> LinkModulus
        ensures { result ≡ modulus_of self.now.link }
    {
        self.link.modulus()
    }

    /// Whether the link takes texts: it is being set up or is Up, and isn't being closed.
    pub(crate) fn takes_texts(&self) -> bool
        ensures { result ≡ table.may_close (held_of self.now.link).phase && not (held_of self.now.link).closing }
    {
        let facts = self.link.facts();
        !facts.closing && matches!(facts.phase, LinkPhase::SettingUp | LinkPhase::Up)
    }

    /// How many payloads the link would still accept.
    pub(crate) fn room(&self) -> usize
        ensures { result ≡ room_in (held_of self.now.link) }
    {
        if !self.takes_texts() {
            return 0;
        }
        let facts = self.link.facts();
        let numbers = COUNT_MAX
            .saturating_sub(facts.acked)
            .saturating_sub(facts.held as u64);
        MOST_HELD.saturating_sub(facts.held).min(numbers as usize)
    }

    /// Whether the peer has set the link up, once this frame has come: its set-up makes the link, or sets one up again that is Up.
    /// One that crosses with a frame of ours does neither.
    fn is_called_by(&self, frame: &FrameView<'_>) -> bool
        ensures { result ≡ works.called_by
            (kind_of (size_of self.now.link) (is_command frame.now.head) frame.now.control)
            (held_of self.now.link).phase self.now.called }
    {
        if self.called {
            return true;
        }
        if !is_set_up(frame, self.modulus()) {
            return false;
        }
        matches!(self.link.phase(), LinkPhase::Down | LinkPhase::Up)
    }

    /// A frame has come.
    pub(crate) fn arrive(
        &mut self,
        pending: &mut Pending,
        frame: &FrameView<'_>,
        now: Moment,
    ) -> Result<(), NoMemory>
        requires drained { IsDrained (held_of self.old.link) }
        ensures drained { OnOk result (IsDrained (held_of self.new.link)) }
        ensures goes { OnOk result (EntryGoes
            (works.arrive_at_link self.old.route.own
            (frame_in (size_of self.old.link) (is_command frame.now.head) frame.now.control frame.now.pid
            frame.now.info.now) now.0)
            self.old self.new pending.old pending.new) }
    {
        self.called = self.is_called_by(frame);
        self.link.arrive(frame, now);
        self.lift(pending)?;
        if !self.is_down() {
            self.settle(pending, now)?;
        }
        Ok(())
    }

    /// Time has passed.
    pub(crate) fn tick(&mut self, pending: &mut Pending, now: Moment) -> Result<(), NoMemory>
        requires drained { IsDrained (held_of self.old.link) }
        ensures drained { OnOk result (IsDrained (held_of self.new.link)) }
        ensures goes { OnOk result (EntryGoes
            (works.step_link self.old.route.own table.Tick now.0) self.old self.new pending.old pending.new) }
    {
        self.link.tick(now);
        self.lift(pending)?;
        Ok(())
    }

    /// The link is released once all is acknowledged.
    pub(crate) fn close(&mut self, pending: &mut Pending, now: Moment) -> Result<(), NoMemory>
        requires drained { IsDrained (held_of self.old.link) }
        ensures drained { OnOk result (IsDrained (held_of self.new.link)) }
        ensures goes { OnOk result (EntryGoes
            (works.step_link self.old.route.own table.Close now.0) self.old self.new pending.old pending.new) }
    {
        self.link.close(now);
        self.lift(pending)?;
        Ok(())
    }
}

/// Whether a frame sets up a link of this modulus: a command does.
fn is_set_up(frame: &FrameView<'_>, modulus: LinkModulus) -> bool
    ensures { result ≡ works.is_set_up
        (kind_of (modulus_size modulus) (is_command frame.now.head) frame.now.control) }
{
    match (frame.control, modulus) {
        (Control::Sabm { .. }, LinkModulus::Modulo8)
        | (Control::Sabme { .. }, LinkModulus::Modulo128) => is_command(&frame.head),
        _ => false,
    }
}

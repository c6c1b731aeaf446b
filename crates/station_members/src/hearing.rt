//! What a member does with a frame that it hears on a port. Called by the desk.
ghost use Rattle.std.specs.Prelude.{◌≡◌, OnOk, IfOk};
ghost use Rattle.ax_frame.specs.Frames.{view};
ghost use Rattle.station_members.specs.Hearing as hearing;

use crate::seat::Seat;
use ax_address::Call;
use ax_frame::{Control, FrameView, is_command, read_frame};
use radio_base::{M8, NoMemory};
use station_ports::Heading;

/// How a member takes a frame in.
#[derive(Clone, Copy, Debug, PartialEq, Eq)]
pub(crate) enum Intake {
    /// It doesn't.
    No,
    AsItCame,
    /// With its call as destination, which was its alias.
    To(Call),
}

/// A frame sets a link up (AX.25 2.2, sections 4.3.3.1 and 4.3.3.2).
pub(crate) fn is_set_up(octets: &[u8]) -> bool
    ensures { result ≡ hearing.is_set_up octets.now }
{
    match read_frame::<M8>(octets) {
        Ok(frame) => sets_up(&frame),
        Err(_) => false,
    }
}

fn sets_up(frame: &FrameView<'_>) -> bool
    ensures { result ≡ hearing.sets_up (view frame.now) }
{
    is_command(&frame.head) && is_set_up_control(&frame.control)
}

fn is_set_up_control(control: &Control) -> bool
    ensures { result ≡ hearing.is_set_up_control control.now }
{
    matches!(control, Control::Sabm { .. } | Control::Sabme { .. })
}

impl Seat {
    /// Hears a frame on a port: how it takes it in, where it stands there. It remembers by which port it reaches who was heard.
    pub(crate) fn hear(
        &mut self,
        port: u8,
        heading: &Heading,
        is_set_up: bool,
    ) -> Result<Intake, NoMemory>
        ensures intake { IfOk result (λ intake. intake ≡ hearing.intake port heading.now is_set_up self.old) }
        ensures goes { OnOk result (self.new ≡ hearing.hears port heading.now is_set_up self.old) }
    {
        if !self.is_on(port) {
            return Ok(Intake::No);
        }
        self.known.remember(&heading.hop, port)?;
        Ok(self.take_in(heading, is_set_up))
    }

    /// How it takes in a frame that it hears.
    fn take_in(&mut self, heading: &Heading, is_set_up: bool) -> Intake
        ensures intake { result ≡ hearing.taken heading.now is_set_up self.old }
        ensures goes { self.new ≡ hearing.takes heading.now is_set_up self.old }
    {
        if !heading.has_come {
            self.to_repeat(heading)
        } else if self.is_byname(&heading.dest) {
            self.by_alias(heading, is_set_up)
        } else {
            self.note_set_up(heading, is_set_up);
            Intake::AsItCame
        }
    }

    /// How it takes in a frame that a repeater has to repeat first: where it is that itself, only if it repeats.
    fn to_repeat(&self, heading: &Heading) -> Intake
        ensures { result ≡ hearing.to_repeat heading.now self.now }
    {
        if heading.towards == self.call && !self.rules.digipeat {
            Intake::No
        } else {
            Intake::AsItCame
        }
    }

    /// How it takes in a frame to its alias: who sets a link up speaks to it by that.
    fn by_alias(&mut self, heading: &Heading, is_set_up: bool) -> Intake
        ensures intake { result ≡ hearing.by_alias heading.now is_set_up self.old }
        ensures goes { self.new ≡ hearing.named heading.now is_set_up self.old }
    {
        if is_set_up {
            self.peers.add(&heading.source);
        }
        if self.peers.has(&heading.source) {
            Intake::To(self.call)
        } else {
            Intake::No
        }
    }

    /// Who sets a link up with its call doesn't speak to it by its alias.
    fn note_set_up(&mut self, heading: &Heading, is_set_up: bool)
        ensures { self.new ≡ hearing.unnamed heading.now is_set_up self.old }
    {
        if is_set_up && heading.dest == self.call {
            self.peers.remove(&heading.source);
        }
    }
}

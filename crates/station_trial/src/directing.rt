//! Directives are done, or refused. Called by `trial`.
ghost use Rattle.std.specs.Prelude.{◌≡◌, ◌<◌, length, IfOk, IfSome, Some};
ghost use Rattle.station_script.specs.Directives.{asked};
ghost use Rattle.station_trial.specs.Directing as directing;
ghost use Rattle.station_trial.specs.Standing.{TrialGoes, TrialStands};
ghost use Rattle.station_trial.specs.Trials.{TrialState};
ghost use Rattle.station_trial.specs.declared.trial.Came.TheVariants as outcomes;

use crate::given::{Deal, Given};
use crate::trial::{Came, Trial};
use ax_address::Call;
use hex::FromHexError;
use radio_base::NoMemory;
use station_script::{Directive, DirectiveRefusal, call_in};

impl Trial {
    /// What comes of a directive.
    pub(crate) fn direct(&mut self, directive: &Directive<'_>) -> Result<Came, NoMemory>
        ensures { IfOk result (λ came. (s : TrialState) → TrialStands self.old s
            → (after : TrialState) × directing.Directs (asked directive.now) s came after × TrialStands self.new after) }
    {
        match directive {
            Directive::At(number) => Ok(self.go_to(*number)),
            Directive::Open(word) => self.open(word),
            Directive::Tick(ms) => {
                self.pass(*ms as u64)?;
                Ok(Came::Done)
            }
            Directive::Round => {
                self.deal(&Deal::All(Given::Round), &[])?;
                Ok(Came::Done)
            }
            Directive::Frames(shows) => {
                self.outlet.shows_frames = *shows;
                Ok(Came::Done)
            }
            Directive::Lose(count) => {
                self.outlet.air.lose = *count;
                Ok(Came::Done)
            }
            Directive::Heard { port, digits } => self.hear(port, digits),
            Directive::Restart(number) => self.restart(*number),
            Directive::Stop(number) => self.stop(*number),
            Directive::Quit => Ok(Came::Quit),
        }
    }

    /// The place of the station of a number, from 1, where there is one.
    fn place_at(&self, number: u32) -> Option<usize>
        ensures place { (s : TrialState) → TrialStands self.now s → result ≡ directing.place_at number s }
        ensures within { IfSome result (λ at. at < length self.now.tried) }
    {
        let at = number.saturating_sub(1) as usize;
        if at < self.tried.len() {
            Some(at)
        } else {
            None
        }
    }

    fn go_to(&mut self, number: u32) -> Came
        ensures { (s : TrialState) → TrialStands self.old s
            → (result ≡ (directing.go_to (directing.place_at number s) s).0)
            × TrialStands self.new (directing.go_to (directing.place_at number s) s).1 }
    {
        match self.place_at(number) {
            Some(at) => {
                self.at = at;
                Came::Done
            }
            None => Came::Refused(DirectiveRefusal::NoStation),
        }
    }

    /// The console is opened anew under a call that is no member's.
    fn open(&mut self, word: &[u8]) -> Result<Came, NoMemory>
        ensures { IfOk result (λ came. (s : TrialState) → TrialStands self.old s
            → (came ≡ (directing.open_by (directing.call_of word.now) s).0)
            × TrialStands self.new (directing.open_by (directing.call_of word.now) s).1) }
    {
        match call_in(self.alloc, word)? {
            Some(call) => self.reopen(call),
            None => Ok(Came::Refused(DirectiveRefusal::BadCall)),
        }
    }

    fn reopen(&mut self, call: Call) -> Result<Came, NoMemory>
        ensures { IfOk result (λ came. (s : TrialState) → TrialStands self.old s
            → (came ≡ (directing.open_by (Some call) s).0) × TrialStands self.new (directing.open_by (Some call) s).1) }
    {
        match self.is_members(&call) {
            Some(true) => Ok(Came::Refused(DirectiveRefusal::MembersCall)),
            Some(false) => {
                self.set_call(call);
                self.give(self.at, Given::Open(call), &[])?;
                Ok(Came::Done)
            }
            None => Ok(Came::Refused(DirectiveRefusal::NoStation)),
        }
    }

    /// Whether the call is one of a member of the station at whose console is typed, where there is one.
    fn is_members(&self, call: &Call) -> Option<bool>
        ensures { (s : TrialState) → TrialStands self.now s → result ≡ directing.is_members call.now s }
    {
        match self.tried.get(self.at) {
            Some(one) => Some(one.station.member_of(call).is_some()),
            None => None,
        }
    }

    fn set_call(&mut self, call: Call)
        ensures { TrialGoes (directing.set_call call) self.old self.new }
    {
        if self.at < self.tried.len() {
            self.tried[self.at].call = Some(call);
        }
    }

    /// A frame is heard at a port of the station at whose console is typed.
    fn hear(&mut self, port: &[u8], digits: &[u8]) -> Result<Came, NoMemory>
        ensures { IfOk result (λ came. (s : TrialState) → TrialStands self.old s
            → (came ≡ (directing.heard port.now digits.now s).0)
            × TrialStands self.new (directing.heard port.now digits.now s).1) }
    {
        let Some(port) = self.port_named(port) else {
            return Ok(Came::Refused(DirectiveRefusal::NoPort));
        };
        match hex::decode(self.alloc, digits) {
            Ok(octets) => self.hear_on(port, octets.as_slice()),
            Err(FromHexError::OutOfMemory) => Err(NoMemory),
            Err(_) => Ok(Came::Refused(DirectiveRefusal::BadHex)),
        }
    }

    fn hear_on(&mut self, port: u8, octets: &[u8]) -> Result<Came, NoMemory>
        ensures { IfOk result (λ came. (s : TrialState) → TrialStands self.old s
            → (came ≡ outcomes.Done) × TrialStands self.new (directing.hear_at port octets.now s)) }
    {
        self.give(self.at, Given::Heard(port), octets)?;
        Ok(Came::Done)
    }

    /// The port that a word names, of the station at whose console is typed.
    fn port_named(&self, word: &[u8]) -> Option<u8>
        ensures { (s : TrialState) → TrialStands self.now s → result ≡ directing.port_at word.now s }
    {
        match self.tried.get(self.at) {
            Some(one) => one.port_named(word),
            None => None,
        }
    }

    /// A station starts again.
    fn restart(&mut self, number: u32) -> Result<Came, NoMemory>
        ensures { IfOk result (λ came. (s : TrialState) → TrialStands self.old s
            → (after : TrialState) × directing.RestartsAt (directing.place_at number s) s came after × TrialStands self.new after) }
    {
        match self.place_at(number) {
            Some(at) => {
                self.tried[at].restart(self.alloc)?;
                Ok(Came::Done)
            }
            None => Ok(Came::Refused(DirectiveRefusal::NoStation)),
        }
    }

    /// A station goes down.
    fn stop(&mut self, number: u32) -> Result<Came, NoMemory>
        ensures { IfOk result (λ came. (s : TrialState) → TrialStands self.old s
            → (came ≡ (directing.stop_at (directing.place_at number s) s).0)
            × TrialStands self.new (directing.stop_at (directing.place_at number s) s).1) }
    {
        match self.place_at(number) {
            Some(at) => {
                self.give(at, Given::Stop, &[])?;
                Ok(Came::Done)
            }
            None => Ok(Came::Refused(DirectiveRefusal::NoStation)),
        }
    }
}

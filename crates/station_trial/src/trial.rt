//! A trial. Called by whoever reads its lines.
ghost use Rattle.std.specs.Prelude.{◌≡◌, ◌≤◌, length, string_bytes, IfOk, List, OnOk};
ghost use Rattle.std.specs.Option.{option_map};
ghost use Rattle.station_screen.specs.Screens.{Spells};
ghost use Rattle.station_trial.specs.Directing as directing;
ghost use Rattle.station_trial.specs.Gifts as gifts;
ghost use Rattle.station_trial.specs.Standing.{AllStand, TrialGoes, TrialStands};
ghost use Rattle.station_trial.specs.Starting.{AllStart};
ghost use Rattle.station_trial.specs.Stations.{TriedState};
ghost use Rattle.station_trial.specs.Trials as trials;
ghost use Rattle.station_trial.specs.Trials.{TrialState};

use crate::air::Flight;
use crate::given::{Deal, Given};
use crate::outlet::Outlet;
use crate::places::deal;
use crate::tried::{CONSOLE, Tried};
use ax_address::Call;
use radio_base::{Moment, NoMemory, TextOut};
use station_file::StationFile;
use station_script::{DirectiveRefusal, directive_of};
use std::alloc::Global;
use std::marker::Model;
use text_lines::words_of;

/// How much later each line is than the one before, in milliseconds.
const LINE_MS: u64 = 1_000;

/// The most frames that are heard at a time: others stay in the air until the next time (this project's profile).
const MOST_HEARD: u32 = 1_000_000;

/// What came of a line.
#[derive(Clone, Copy, Debug, PartialEq, Eq)]
pub enum Came {
    Done,
    /// The trial is over.
    Quit,
    /// A directive was refused.
    Refused(DirectiveRefusal),
}

/// Stations that hear each other, and what is typed at their consoles.
#[derive(Drop)]
pub struct Trial {
    pub(crate) alloc: Global,
    pub(crate) tried: Vec<Tried>,
    pub(crate) outlet: Outlet,
    /// In milliseconds.
    pub(crate) time: u64,
    /// The place of the station at whose console is typed.
    pub(crate) at: usize,
}

impl Model for Trial {
    ghost use Rattle.std.specs.Prelude.{◌≤◌, length};
    ghost use Rattle.std.specs.Coded.{codes};
    ghost use Rattle.station.specs.contracts.station.Station.{the_row as station_row};
    ghost use Rattle.station_trial.specs.Standing.{Kept, view_of};

    ghost Value = { Kept };

    ghost coded = { Prim.hlevel (codes, station_row.coded) };

    ghost invariant = { λ t. length t.tried.items ≤ 8 };

    ghost view = { λ t. view_of t.tried.items t.outlet t.time t.at };
}

impl Trial {
    /// The stations of these files, of which there are at most 8, as they start.
    pub fn new(alloc: Global, files: Vec<StationFile>) -> Result<Trial, NoMemory>
        requires { length files.items ≤ 8 }
        ensures { IfOk result (λ trial. (ts : List TriedState) × AllStart files.items ts
            × TrialStands trial (trials.new_trial ts)) }
    {
        let numbers = files.len() > 1;
        let tried = start_all(alloc, files)?;
        Ok(Trial {
            alloc,
            tried,
            outlet: Outlet::new(alloc, numbers),
            time: 0,
            at: 0,
        })
    }

    /// A line: the air is emptied, a second goes by, the air is emptied again, and what the line says is typed, or done where it is a
    /// directive; then the air is emptied once more.
    pub fn take_line(&mut self, line: &[u8]) -> Result<Came, NoMemory>
        ensures { IfOk result (λ came. (s : TrialState) → TrialStands self.old s
            → (after : TrialState) × directing.TakesLine line.now s came after × TrialStands self.new after) }
    {
        self.begin_line()?;
        let came = self.do_line(line)?;
        self.clear_air()?;
        Ok(came)
    }

    /// A line that is open is ended.
    pub fn end(&mut self) -> Result<(), NoMemory>
        ensures { OnOk result (TrialGoes trials.end_screen self.old self.new) }
    {
        self.outlet.screen.end_line()?;
        Ok(())
    }

    /// What is shown since this was called last.
    pub fn take_text(&mut self) -> TextOut
        ensures text { (s : TrialState) → TrialStands self.old s → Spells s.outlet.shown.pieces result }
        ensures goes { TrialGoes trials.take_text self.old self.new }
    {
        self.outlet.screen.take_text()
    }

    fn begin_line(&mut self) -> Result<(), NoMemory>
        ensures { OnOk result (TrialGoes trials.begin_line self.old self.new) }
    {
        self.clear_air()?;
        self.pass(LINE_MS)?;
        self.clear_air()?;
        Ok(())
    }

    fn do_line(&mut self, line: &[u8]) -> Result<Came, NoMemory>
        ensures { IfOk result (λ came. (s : TrialState) → TrialStands self.old s
            → (after : TrialState) × directing.DoesLine line.now s came after × TrialStands self.new after) }
    {
        match line {
            [b'!', rest @ ..] => self.do_directive(rest),
            typed => {
                self.type_line(typed)?;
                Ok(Came::Done)
            }
        }
    }

    /// A line is typed, at a console that is opened where it is closed.
    fn type_line(&mut self, line: &[u8]) -> Result<(), NoMemory>
        ensures { OnOk result (TrialGoes (trials.type_line line.now) self.old self.new) }
    {
        self.need_console()?;
        let mut text = line.to_vec(self.alloc)?;
        text.push(b'\r')?;
        self.give(self.at, Given::Typed, text.as_slice())?;
        Ok(())
    }

    fn need_console(&mut self) -> Result<(), NoMemory>
        ensures { OnOk result (TrialGoes trials.need_console self.old self.new) }
    {
        match self.tried.get(self.at) {
            Some(one) => {
                if one.station.is_open(CONSOLE) {
                    return Ok(());
                }
                let call = one.call;
                self.open_as(call)?;
                Ok(())
            }
            None => Ok(()),
        }
    }

    fn open_as(&mut self, call: Option<Call>) -> Result<(), NoMemory>
        ensures { OnOk result (TrialGoes (trials.open_as call) self.old self.new) }
    {
        match call {
            Some(call) => {
                self.give(self.at, Given::Open(call), &[])?;
                Ok(())
            }
            None => Ok(()),
        }
    }

    /// A directive is done, or refused.
    fn do_directive(&mut self, rest: &[u8]) -> Result<Came, NoMemory>
        ensures { IfOk result (λ came. (s : TrialState) → TrialStands self.old s
            → (after : TrialState) × directing.DirectsLine rest.now s came after × TrialStands self.new after) }
    {
        if let [b' ', ..] = rest {
            return Ok(Came::Refused(DirectiveRefusal::NoDirective));
        }
        let words = words_of(self.alloc, rest)?;
        match directive_of(&words) {
            Ok(directive) => self.direct(&directive),
            Err(why) => Ok(Came::Refused(why)),
        }
    }

    /// So many milliseconds go by.
    pub(crate) fn pass(&mut self, ms: u64) -> Result<(), NoMemory>
        ensures { OnOk result (TrialGoes (trials.pass ms) self.old self.new) }
    {
        self.time = self.time.saturating_add(ms);
        self.deal(&Deal::All(Given::Tick), &[])?;
        Ok(())
    }

    /// Each station is given what it is dealt.
    pub(crate) fn deal(&mut self, dealt: &Deal, octets: &[u8]) -> Result<(), NoMemory>
        ensures { OnOk result (TrialGoes (trials.deal (gifts.dealt_by dealt.now octets.now)) self.old self.new) }
    {
        deal(
            &mut self.outlet,
            0,
            &mut self.tried,
            dealt,
            octets,
            Moment(self.time),
        )?;
        Ok(())
    }

    /// The station at a place is given this.
    pub(crate) fn give(&mut self, at: usize, given: Given, octets: &[u8]) -> Result<(), NoMemory>
        ensures { OnOk result (TrialGoes (trials.give at (gifts.gift_of octets.now given)) self.old self.new) }
    {
        self.deal(&Deal::To { at, given }, octets)?;
        Ok(())
    }

    /// All frames in the air are heard, and those that come of them.
    #[tactic(auto, unfolding(crate::specs::Trials::clear_air))]
    fn clear_air(&mut self) -> Result<(), NoMemory>
        ensures { OnOk result (TrialGoes trials.clear_air self.old self.new) }
    {
        for _ in 0..MOST_HEARD {
            let Some(flight) = self.outlet.land() else {
                return Ok(());
            };
            self.deliver(&flight)?;
        }
        Ok(())
    }

    /// A frame is heard at each other station that has a port of its port's name.
    fn deliver(&mut self, flight: &Flight) -> Result<(), NoMemory>
        ensures { OnOk result (TrialGoes (trials.deliver flight.now) self.old self.new) }
    {
        match self.name_of(flight)? {
            Some(name) => {
                let dealt = Deal::Over {
                    from: flight.from,
                    name,
                };
                self.deal(&dealt, flight.frame.octets.as_slice())?;
                Ok(())
            }
            None => Ok(()),
        }
    }

    /// The name of the port on which a frame goes.
    fn name_of(&self, flight: &Flight) -> Result<Option<String>, NoMemory>
        ensures { IfOk result (λ name. (s : TrialState) → TrialStands self.now s
            → option_map (λ n. string_bytes n) name ≡ trials.name_of flight.now s.tried) }
    {
        let Some(sender) = self.tried.get(flight.from) else {
            return Ok(None);
        };
        match sender.file.ports().get(flight.frame.port as usize) {
            Some(port) => Ok(Some(String::from_str(self.alloc, port.name.as_str())?)),
            None => Ok(None),
        }
    }
}

/// The stations of these files, as they start.
fn start_all(alloc: Global, mut files: Vec<StationFile>) -> Result<Vec<Tried>, NoMemory>
    ensures { IfOk result (λ tried. (ts : List TriedState) × AllStart files.items ts × AllStand tried.items ts
        × (length tried.items ≡ length files.items)) }
{
    let mut tried = Vec::new(alloc);
    while !files.is_empty() {
        let file = files.remove(0);
        tried.push(Tried::new(alloc, file)?)?;
    }
    Ok(tried)
}

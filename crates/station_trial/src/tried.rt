//! A station of a trial. Called by `places` and `trial`.
ghost use Rattle.std.specs.Prelude.{◌≡◌, ◌<◌, ◌≤◌, length, position, is_some, IfOk, IfSome, OnOk};
ghost use Rattle.circuit_table.specs.Pairs.{IsPair};
ghost use Rattle.station.specs.Standing.{StationStand};
ghost use Rattle.station.specs.States.{StationState, members_of};
ghost use Rattle.station_looks.specs.declared.about.About.{About};
ghost use Rattle.station_members.specs.Looks.{place_of};
ghost use Rattle.station_start.specs.Starts.{IsAbout};
ghost use Rattle.station_trial.specs.Directing as directing;
ghost use Rattle.station_trial.specs.Gifts as gifts;
ghost use Rattle.station_trial.specs.Standing.{TriedGoes, TriedStands};
ghost use Rattle.station_trial.specs.Starting as starting;
ghost use Rattle.station_trial.specs.Stations as stations;
ghost use Rattle.station_trial.specs.Stations.{TriedState};

use crate::given::Given;
use ax_address::{Call, read_net_call, write_net_call};
use circuit_l4::Pair;
use radio_base::{Moment, NoMemory};
use station::Station;
use station_file::{Member, Port, StationFile};
use station_start::station_of;
use std::alloc::Global;
use text_lines::number_of;

/// The console of each station at which is typed.
pub(crate) const CONSOLE: u8 = 0;

/// A station of a trial.
#[derive(Drop)]
pub(crate) struct Tried {
    pub(crate) file: StationFile,
    pub(crate) station: Station,
    /// How often it has started, less one.
    pub(crate) restarts: u64,
    /// Under which call its console opens. (each file has a member, whose call it is at first)
    pub(crate) call: Option<Call>,
}

impl Tried {
    /// The station of a file as it starts.
    pub(crate) fn new(alloc: Global, file: StationFile) -> Result<Tried, NoMemory>
        ensures { IfOk result (λ tried. (who : About) × IsAbout file who × TriedStands tried (starting.new_tried who file)) }
    {
        let station = station_of(alloc, &file, pair_at(0))?;
        let call = console_call(file.members(), &station);
        Ok(Tried {
            file,
            station,
            restarts: 0,
            call,
        })
    }

    /// It starts again, with the next pair.
    pub(crate) fn restart(&mut self, alloc: Global) -> Result<(), NoMemory>
        ensures { OnOk result ((who : About) × IsAbout self.old.file who
            × TriedGoes (starting.restarted who) self.old self.new) }
    {
        self.restarts = self.restarts.saturating_add(1);
        self.station = station_of(alloc, &self.file, pair_at(self.restarts))?;
        Ok(())
    }

    /// It is given this.
    pub(crate) fn give(&mut self, given: Given, octets: &[u8], now: Moment) -> Result<(), NoMemory>
        ensures { OnOk result (TriedGoes (stations.with_gift (gifts.gift_of octets.now given) now) self.old self.new) }
    {
        match given {
            Given::Heard(port) => {
                self.station.hear(port, octets, now)?;
                Ok(())
            }
            Given::Tick => {
                self.station.tick(now)?;
                Ok(())
            }
            Given::Round => {
                self.station.round(now)?;
                Ok(())
            }
            Given::Open(call) => {
                self.station.open(CONSOLE, &call, now)?;
                Ok(())
            }
            Given::Typed => {
                self.station.type_text(CONSOLE, octets, now)?;
                Ok(())
            }
            Given::Stop => {
                self.station.stop(now)?;
                Ok(())
            }
        }
    }

    /// The port, from 0, that a word names: by its number, or by its name without regard to case.
    pub(crate) fn port_named(&self, word: &[u8]) -> Option<u8>
        ensures { result ≡ directing.port_named word.now self.now.file }
    {
        match number_of(1, 8, word) {
            Some(number) if number as usize <= self.file.ports().len() => Some((number - 1) as u8),
            _ => self.port_of_name(word),
        }
    }

    /// The first port of that name, from 0.
    pub(crate) fn port_of_name(&self, name: &[u8]) -> Option<u8>
        ensures { result ≡ gifts.port_of_name name.now self.now.file }
    {
        match place_of(self.file.ports(), name) {
            Some(at) => Some(at as u8),
            None => None,
        }
    }
}

fn place_of(ports: &[Port], name: &[u8]) -> Option<usize>
    ensures place { result ≡ position (gifts.is_named name.now) ports.now }
    ensures within { IfSome result (λ at. at < length ports.now) }
{
    ports.iter().position(|port| is_named(port, name))
}

fn is_named(port: &Port, name: &[u8]) -> bool
    ensures { result ≡ gifts.is_named name.now port.now }
{
    port.name.as_str().as_bytes().eq_ignore_ascii_case(name)
}

/// The first pair after so many restarts: the first numbers from 1 to 255, again and again.
fn pair_at(restarts: u64) -> Pair
    ensures value { result ≡ starting.pair_at restarts }
    ensures good { IsPair result }
{
    Pair {
        index: 1,
        ident: (restarts % 255 + 1) as u8,
    }
}

/// The call of a console where none is named: the first member's without SSID, or with 15 where a member has that.
fn console_call(members: &[Member], station: &Station) -> Option<Call>
    ensures { (s : StationState) → StationStand station.now s → result ≡ starting.console_call members.now s }
{
    match members {
        [] => None,
        [first, ..] => Some(bare_call(&first.declared.call, station)),
    }
}

fn bare_call(call: &Call, station: &Station) -> Call
    ensures { (s : StationState) → StationStand station.now s
        → result ≡ starting.bare_unless (is_some (place_of (starting.with_ssid call.now 0) (members_of s))) call.now }
{
    let bare = with_ssid(call, 0);
    if station.member_of(&bare).is_some() {
        with_ssid(call, 15)
    } else {
        bare
    }
}

/// A call with another SSID, which is at most 15 (AX.25 2.2, section 3.12).
fn with_ssid(call: &Call, ssid: u8) -> Call
    requires { ssid ≤ 15 }
    ensures { result ≡ starting.with_ssid call.now ssid }
{
    let mut octets = write_net_call(call);
    octets[6] = 2 * ssid;
    match read_net_call(&octets) {
        Ok(call) => call,
        Err(_) => *call,
    }
}

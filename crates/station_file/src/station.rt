//! What the file of a station says. It is read by `refusal`, and used by `check` and the crates that run a station.
ghost use Rattle.std.specs.Prelude.{◌≡◌, ◌≤◌, option_map, Ok, Err, MatchResult};
ghost use Rattle.toml.specs.View.{view, table_view};
ghost use Rattle.station_file.specs.Stations as stations;

use crate::beacons::{Beacon, read_beacons};
use crate::fault::{Stop, at, text_at};
use crate::file_key::FileKey;
use crate::file_text::FileText;
use crate::items::denied::read_denied;
use crate::limits::{DAY_SECONDS, MAX_DENY, MAX_INFO, MAX_NAME};
use crate::nodes::{Member, need_few_qualities, read_members};
use crate::ports::{Port, read_ports};
use crate::posts::{Post, read_post};
use crate::section::Section;
use crate::tables::{know_keys, value_at};
use crate::values::{number, table, text, text_or_none};
use crate::why::Why;
use arrayvec::ArrayVec;
use ax_address::Call;
use std::alloc::Global;
use std::marker::Model;
use toml::{Table, Value};

/// What the file of a station says.
#[derive(Debug, Drop)]
pub struct StationFile {
    name: FileText,
    info: FileText,
    status: u32,
    idle: u32,
    denied: ArrayVec<Call, MAX_DENY>,
    ports: Vec<Port>,
    members: Vec<Member>,
    post: Option<Post>,
    beacons: Vec<Beacon>,
}

impl Model for StationFile {
    ghost use Rattle.std.specs.Prelude.{◌≤◌, length, IsTrue};
    ghost use Rattle.std.specs.List.{list_all};
    ghost use Rattle.station_file.specs.Station.{Station};
    ghost use Rattle.station_file.specs.Stations.{has_short_text, has_small_pieces};

    ghost Value = { Station };

    ghost invariant = { λ f. (length f.ports.items ≤ 8) × (length f.members.items ≤ 8)
        × IsTrue (list_all has_small_pieces f.members.items) × IsTrue (list_all has_short_text f.beacons.items) };

    ghost view = { λ f. record {
      name = f.name;
      info = f.info;
      status = f.status;
      idle = f.idle;
      denied = f.denied.items;
      ports = f.ports.items;
      members = f.members.items;
      post = f.post;
      beacons = f.beacons.items;
    } };
}

impl StationFile {
    ghost use Rattle.std.specs.Prelude.{◌≡◌, ◌≤◌, length, option_copied, Ok, IsTrue, MatchResult};
    ghost use Rattle.std.specs.List.{list_all};
    ghost use Rattle.toml.specs.View.{table_view};
    ghost use Rattle.station_file.specs.Stations as stations;
    ghost use Rattle.station_file.specs.Tables.{TellsOf};

    /// What the tables of a file say of a station, or what is wrong with them.
    #[tactic(auto, unfolding(crate::specs::Stations::station_of))]
    pub(crate) fn read(alloc: Global, table: &Table) -> Result<StationFile, Stop>
        ensures { MatchResult result (λ f. stations.station_of (table_view table.now) ≡ Ok f)
            (λ e. TellsOf e (stations.station_of (table_view table.now))) }
    {
        let section = Section::Station;
        know_keys(alloc, section, table)?;
        let name = text(value_at(table, FileKey::Name), 1, MAX_NAME);
        let name = text_at(alloc, section, FileKey::Name, name)?;
        let info = text_or_none(value_at(table, FileKey::Info), MAX_INFO);
        let info = text_at(alloc, section, FileKey::Info, info)?;
        let status = number(value_at(table, FileKey::Status), 0, DAY_SECONDS, 60);
        let status = at(alloc, section, FileKey::Status, status)?;
        let idle = number(value_at(table, FileKey::Idle), 0, DAY_SECONDS, 3_600);
        let idle = at(alloc, section, FileKey::Idle, idle)?;
        let denied = read_denied(value_at(table, FileKey::Deny));
        let denied = at(alloc, section, FileKey::Deny, denied)?;
        let hub = know_hub(value_at(table, FileKey::Hub));
        at(alloc, section, FileKey::Hub, hub)?;
        let ports = read_ports(alloc, table)?;
        let members = read_members(alloc, table, &ports)?;
        let post = read_post(alloc, table, &members)?;
        let left = qualities_left(members.len(), post.is_some());
        need_few_qualities(alloc, &members, left)?;
        let beacons = read_beacons(alloc, table, &ports, &members)?;
        Ok(StationFile {
            name,
            info,
            status,
            idle,
            denied,
            ports,
            members,
            post,
            beacons,
        })
    }

    /// The station's name.
    pub fn name(&self) -> &str
        ensures { result.now ≡ self.now.name }
    {
        self.name.as_str()
    }

    /// What the station says of itself.
    pub fn info(&self) -> &str
        ensures { result.now ≡ self.now.info }
    {
        self.info.as_str()
    }

    /// How many seconds stand between two entries of its status, 0 for none.
    pub fn status(&self) -> u32
        ensures { result ≡ self.now.status }
    {
        self.status
    }

    /// After how many seconds without a line a user is let go, 0 for never.
    pub fn idle(&self) -> u32
        ensures { result ≡ self.now.idle }
    {
        self.idle
    }

    /// The calls that aren't heard.
    pub fn denied(&self) -> &[Call]
        ensures { result.now ≡ self.now.denied }
    {
        self.denied.as_slice()
    }

    /// The ports, in the order of the file: at most 8.
    pub fn ports(&self) -> &[Port]
        ensures ports { result.now ≡ self.now.ports }
        ensures few { length result.now ≤ 8 }
    {
        &self.ports
    }

    /// The members that serve users, in the order of the file: with the post 1 to 8. Pieces of a text have at most 256 bytes.
    pub fn members(&self) -> &[Member]
        ensures members { result.now ≡ self.now.members }
        ensures few { length result.now ≤ 8 }
        ensures small { IsTrue (list_all stations.has_small_pieces result.now) }
    {
        &self.members
    }

    /// The member that keeps mail, where there is one.
    pub fn post(&self) -> Option<&Post>
        ensures { option_copied result ≡ self.now.post }
    {
        self.post.as_ref()
    }

    /// The beacons, in the order of the file. Each has at most 256 bytes of text.
    pub fn beacons(&self) -> &[Beacon]
        ensures beacons { result.now ≡ self.now.beacons }
        ensures short { IsTrue (list_all stations.has_short_text result.now) }
    {
        &self.beacons
    }
}

/// How many qualities a member has left for its neighbours beside those of the other members.
fn qualities_left(members: usize, has_post: bool) -> usize
    requires { members ≤ 8 }
    ensures { result ≡ stations.qualities_left (stations.count_if has_post members) }
{
    17 - members - has_post as usize
}

/// What is for the hub is a table.
fn know_hub(value: Option<&Value>) -> Result<(), Why>
    ensures { result ≡ stations.hub_in (option_map (λ v. view v.now) value.entry) }
{
    match value {
        None => Ok(()),
        Some(value) => {
            table(value)?;
            Ok(())
        }
    }
}

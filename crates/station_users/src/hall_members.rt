//! What members are given and what is fetched from them and from consoles. Called by `users`.
ghost use Rattle.std.specs.Prelude.{◌≡◌, slice_get, IfOk, OnOk};
ghost use Rattle.std.specs.Option.{option_map};
ghost use Rattle.station_members.specs.Standing.{told_by};
ghost use Rattle.station_members.specs.States as members;
ghost use Rattle.station_users.specs.Consoles as consoles;
ghost use Rattle.station_users.specs.Standing.{HallGoes, HallStands};
ghost use Rattle.station_users.specs.States.{UsersState, at_members};

use crate::hall::Hall;
use node_core::NodeEntry;
use radio_base::{Moment, NoMemory};
use station_places::ConsoleOut;
use station_ports::PortFrame;

impl Hall {
    pub(crate) fn hear_frame(
        &mut self,
        port: u8,
        octets: &[u8],
        now: Moment,
    ) -> Result<(), NoMemory>
        ensures { OnOk result (HallGoes (at_members (members.hear port octets.now now)) self.old self.new) }
    {
        self.sides.members.hear(port, octets, now)?;
        Ok(())
    }

    pub(crate) fn tick_members(&mut self, now: Moment) -> Result<(), NoMemory>
        ensures { OnOk result (HallGoes (at_members (members.tick now)) self.old self.new) }
    {
        self.sides.members.tick(now)?;
        Ok(())
    }

    pub(crate) fn round(&mut self, now: Moment) -> Result<(), NoMemory>
        ensures { OnOk result (HallGoes (at_members (members.round now)) self.old self.new) }
    {
        self.sides.members.round(now)?;
        Ok(())
    }

    pub(crate) fn settle_frames(&mut self, now: Moment) -> Result<bool, NoMemory>
        ensures goes { OnOk result (HallGoes (at_members (members.send_all now)) self.old self.new) }
        ensures sent { IfOk result (λ sent. (u : UsersState) → HallStands self.old u
            → sent ≡ members.sends_any now u.sides.members) }
    {
        let sent = self.sides.members.settle_frames(now)?;
        Ok(sent)
    }

    pub(crate) fn next_entry(&mut self) -> Option<(usize, NodeEntry)>
        ensures answer { (u : UsersState) → HallStands self.old u
            → option_map told_by result ≡ members.first_told u.sides.members }
        ensures goes { HallGoes (at_members members.fetch_told) self.old self.new }
    {
        self.sides.members.next_entry()
    }

    pub(crate) fn next_frame(&mut self) -> Option<PortFrame>
        ensures answer { (u : UsersState) → HallStands self.old u → result ≡ slice_get u.sides.members.desk.air.frames 0 }
        ensures goes { HallGoes (at_members members.fetch_frame) self.old self.new }
    {
        self.sides.members.next_frame()
    }

    pub(crate) fn next_out(&mut self) -> Option<ConsoleOut>
        ensures answer { (u : UsersState) → HallStands self.old u → result ≡ slice_get u.sides.outs 0 }
        ensures goes { HallGoes consoles.fetch_out self.old self.new }
    {
        self.sides.outs.next()
    }
}

//! The three moves of which every line is made: something reaches a node, events are told, a node's frames are put in the air. Called by
//! the files of lines: `acting`, `bursting`, `delivering`, `mailing` and `restarting`.
ghost use Rattle.std.specs.Prelude.{◌≡◌, ◌∷◌, [], ℕ, List, true, false, IfOk, OnOk, length, slice_get, ◌<◌};
ghost use Rattle.std.specs.List.{position_or_len};
ghost use Rattle.std.specs.Option.{option_map};
ghost use Rattle.node_core.specs.Acts.{act_of};
ghost use Rattle.node_core.specs.Broadcasts.{broadcast_octets};
ghost use Rattle.nodes_broadcast.specs.Nodes.{view};
ghost use Rattle.net_model.specs.declared.air.Aired.{Aired};
ghost use Rattle.net_model.specs.Events.{event_of};
ghost use Rattle.net_model.specs.Lines.{kiss_bytes};
ghost use Rattle.net_world.specs.Running as running;
ghost use Rattle.net_world.specs.Running.{GoesOn, Runs, Stands, course};
ghost use Rattle.net_model.specs.Answers.{IsAnswerTo};
ghost use Rattle.net_model.specs.Standing.{is_member};
ghost use Rattle.net_model.specs.World as worlds;

use crate::world::World;
use ax_address::Call;
use link_table::Written;
use net_model::{
    Answer, Event, NumberedEvent, ReplayRefusal, answer_of, datagram_event, entry_event, place_of,
};
use network_file::is_on_air;
use node_core::{UserAct, broadcast_frame};
use nodes_broadcast::Nodes;
use radio_base::{LinkModulus, NoMemory};

impl World<'_> {
    /// The place of the node of that number, or how many nodes there are.
    pub(crate) fn place_of(&self, number: u8) -> usize
        ensures { result ≡ position_or_len (is_member number) self.now.members.items }
    {
        place_of(&self.members, number)
    }

    /// The frame at a place in the air reaches the node at a place, and its entries are told. Its frames stay with it.
    pub(crate) fn frame_reaches(
        &mut self,
        line: u32,
        frame_at: usize,
        at: usize,
    ) -> Result<(), NoMemory>
        ensures { (f : Aired) → slice_get self.old.air frame_at ≡ Some f
            → OnOk result (GoesOn (course self.old) (course self.new)
            (worlds.reach line at (worlds.Bytes (kiss_bytes f.octets.items)))) }
    {
        match self.air.frames().get(frame_at) {
            Some(frame) => {
                if at < self.members.len() {
                    self.members[at]
                        .node
                        .kiss_frame(frame.octets.as_slice(), self.time)?;
                    self.tell_entries(line, at)?;
                    Ok(())
                } else {
                    Ok(())
                }
            }
            None => Ok(()),
        }
    }

    /// A broadcast reaches the node at a place, and its entries are told. Its frames stay with it. It stands by itself, so that only a
    /// line that is one makes room for its frame.
    #[inline(never)]
    pub(crate) fn broadcast_reaches(
        &mut self,
        line: u32,
        at: usize,
        call: &Call,
        nodes: &Nodes,
    ) -> Result<(), NoMemory>
        ensures { OnOk result (GoesOn (course self.old) (course self.new)
            (worlds.reach line at (worlds.Bytes (kiss_bytes (broadcast_octets call.now (view nodes.now)))))) }
    {
        if at < self.members.len() {
            let octets = broadcast_frame(call, nodes);
            self.members[at]
                .node
                .kiss_frame(octets.as_slice(), self.time)?;
            self.tell_entries(line, at)?;
            Ok(())
        } else {
            Ok(())
        }
    }

    /// The time reaches the node at a place, and its entries are told. Its frames stay with it.
    pub(crate) fn time_reaches(&mut self, line: u32, at: usize) -> Result<(), NoMemory>
        ensures { OnOk result (GoesOn (course self.old) (course self.new) (worlds.reach line at worlds.Time)) }
    {
        if at < self.members.len() {
            self.members[at].node.tick(self.time)?;
            self.tell_entries(line, at)?;
            Ok(())
        } else {
            Ok(())
        }
    }

    /// A user's act reaches the node at a place, and its entries are told: what was done, or why it wasn't. Its frames stay
    /// with it.
    pub(crate) fn act_reaches(
        &mut self,
        line: u32,
        at: usize,
        act: &UserAct,
    ) -> Result<Answer, NoMemory>
        ensures goes { OnOk result (GoesOn (course self.old) (course self.new)
            (worlds.reach line at (worlds.Act (act_of act.now)))) }
        ensures answer { IfOk result (λ answer. (w : worlds.World) → Stands (course self.old) w
            → IsAnswerTo answer (worlds.answer at (act_of act.now) w)) }
    {
        if at < self.members.len() {
            let outcome = self.members[at].node.act(act, self.time);
            let answer = answer_of(outcome)?;
            self.tell_entries(line, at)?;
            Ok(answer)
        } else {
            Ok(Answer::Done)
        }
    }

    /// Tells what the node at a place has to tell.
    fn tell_entries(&mut self, line: u32, at: usize) -> Result<(), NoMemory>
        requires { at < length self.old.members.items }
        ensures { OnOk result (GoesOn (course self.old) (course self.new) (running.all_entries line at)) }
    {
        // So it mostly is, and then no room is made for what could be told.
        if !self.members[at].node.has_entries() {
            return Ok(());
        }
        self.tell_all_entries(line, at)?;
        Ok(())
    }

    #[inline(never)]
    fn tell_all_entries(&mut self, line: u32, at: usize) -> Result<(), NoMemory>
        requires { at < length self.old.members.items }
        ensures { OnOk result (GoesOn (course self.old) (course self.new) (running.all_entries line at)) }
    {
        loop {
            match self.first_event(at)? {
                Some(event) => {
                    // (the entry was lent, and is taken now)
                    if self.members[at].node.trace_entry().is_none() {
                        return Ok(());
                    }
                    self.tell(line, event)?;
                }
                None => {
                    if !self.tell_one(line, at)? {
                        return Ok(());
                    }
                }
            }
        }
    }

    /// The first thing that the node at a place has to tell, as an event, where it is a datagram that an end has sent or taken in.
    fn first_event(&self, at: usize) -> Result<Option<Event>, NoMemory>
        requires { at < length self.now.members.items }
        ensures { IfOk result (λ event. (w : worlds.World) → Stands (course self.now) w
            → running.IsFirst (option_map event_of event) (slice_get w.nodes at)) }
    {
        let member = &self.members[at];
        match member.node.first_entry() {
            Some(entry) => datagram_event(self.alloc, member.declared.node, entry),
            None => Ok(None),
        }
    }

    /// Tells the first thing that the node at a place has to tell. Whether there was one. Few entries are no datagrams, so no other
    /// call makes room for what this one needs.
    #[inline(never)]
    fn tell_one(&mut self, line: u32, at: usize) -> Result<bool, NoMemory>
        requires { at < length self.old.members.items }
        ensures told { IfOk result (λ told. told ≡ true → (w : worlds.World) → Stands (course self.old) w
            → (v : worlds.World) × Stands (course self.new) v
            × (running.all_entries line at v ≡ running.all_entries line at w)) }
        ensures none { IfOk result (λ told. told ≡ false
            → GoesOn (course self.old) (course self.new) (running.all_entries line at)) }
        ensures left { IfOk result (λ told. told ≡ true
            → running.entries_at at self.new.members.items < running.entries_at at self.old.members.items) }
        ensures count { length self.new.members.items ≡ length self.old.members.items }
    {
        let node = self.members[at].declared.node;
        match self.members[at].node.trace_entry() {
            Some(entry) => {
                let event = entry_event(self.alloc, node, entry)?;
                self.tell(line, event)?;
                Ok(true)
            }
            None => Ok(false),
        }
    }

    /// Tells an event. There are three for a frame, so that callers take this in, and `put_in_air` too.
    #[inline(always)]
    pub(crate) fn tell(&mut self, line: u32, event: Event) -> Result<(), NoMemory>
        ensures goes { OnOk result (GoesOn (course self.old) (course self.new)
            (worlds.tell line (event_of event ∷ []))) }
        ensures members { self.new.members.items ≡ self.old.members.items }
        ensures air { self.new.air ≡ self.old.air }
    {
        self.ends.note(&event)?;
        self.events.push(NumberedEvent { line, event })?;
        Ok(())
    }

    /// Puts all frames of the node at a place in the air, where it is on a channel. A frame that is repeated was written as the
    /// frame that came.
    #[inline(always)]
    pub(crate) fn put_in_air(
        &mut self,
        line: u32,
        at: usize,
        came: LinkModulus,
    ) -> Result<(), ReplayRefusal>
        ensures { Runs (course self.old) (course self.new) (worlds.put line at came) result }
    {
        if at < self.members.len() {
            let node = self.members[at].declared.node;
            let on_air = is_on_air(self.channels, node);
            self.put_frames(line, at, node, on_air, came)
        } else {
            Ok(())
        }
    }

    fn put_frames(
        &mut self,
        line: u32,
        at: usize,
        node: u8,
        on_air: bool,
        came: LinkModulus,
    ) -> Result<(), ReplayRefusal>
        requires { at < length self.old.members.items }
        ensures { Runs (course self.old) (course self.new) (running.put_by line at node on_air came) result }
    {
        while let Some(written) = self.members[at].node.next_frame() {
            self.put_frame(line, node, on_air, came, written)?;
        }
        Ok(())
    }

    /// Puts a frame of a node in the air, where the node is on a channel.
    fn put_frame(
        &mut self,
        line: u32,
        node: u8,
        on_air: bool,
        came: LinkModulus,
        written: Written,
    ) -> Result<(), ReplayRefusal>
        ensures runs { Runs (course self.old) (course self.new)
            (running.airs line (running.aired_one on_air node came written)) result }
        ensures members { self.new.members.items ≡ self.old.members.items }
    {
        if on_air {
            let modulus = written.modulus.unwrap_or(came);
            self.air.put(node, written.octets, modulus)?;
            let frame = self.air.frames().len() as u32;
            self.tell(line, Event::InAir { frame })?;
            Ok(())
        } else {
            Ok(())
        }
    }
}

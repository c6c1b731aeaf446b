//! The lines at one node: what its user does, and its table; and time, which goes on at all of them. Called by `doing`.
ghost use Rattle.std.specs.Prelude.{◌≡◌, [], ℕ, false, OnOk, IfOk, length, slice_get};
ghost use Rattle.std.specs.Option.{option_map};
ghost use Rattle.radio_base.specs.declared.modulus.LinkModulus.TheVariants.{Modulo8};
ghost use Rattle.node_core.specs.Broadcasts.{broadcast_octets};
ghost use Rattle.node_core.specs.Acts as acts;
ghost use Rattle.node_core.specs.Acts.{act_of};
ghost use Rattle.nodes_broadcast.specs.Nodes.{view};
ghost use Rattle.net_model.specs.Lines as lines;
ghost use Rattle.net_model.specs.Mailing as mailing;
ghost use Rattle.net_model.specs.Answers as answers_to;
ghost use Rattle.net_world.specs.Running.{GoesOn, Runs, Stands, course};
ghost use Rattle.net_model.specs.World as worlds;

use crate::world::World;
use ax_address::Call;
use net_model::{Answer, Event, LineRefusal, ReplayRefusal, Table, shown};
use node_core::UserAct;
use nodes_broadcast::Nodes;
use radio_base::{LinkModulus, Moment, NoMemory};

impl World<'_> {
    /// The node of that number hears a broadcast.
    pub(crate) fn hear_broadcast(
        &mut self,
        line: u32,
        number: u8,
        call: &Call,
        nodes: &Nodes,
    ) -> Result<(), ReplayRefusal>
        ensures { Runs (course self.old) (course self.new)
            (lines.hear line number (lines.kiss_bytes (broadcast_octets call.now (view nodes.now))) Modulo8) result }
    {
        let at = self.place_of(number);
        self.broadcast_reaches(line, at, call, nodes)?;
        self.put_in_air(line, at, LinkModulus::Modulo8)
    }

    /// A node's user acts, or it is told why that isn't done.
    pub(crate) fn act(&mut self, line: u32, number: u8, act: &UserAct) -> Result<(), ReplayRefusal>
        ensures { Runs (course self.old) (course self.new)
            (lines.do_act line number (act_of act.now) lines.events_of_act) result }
    {
        let at = self.place_of(number);
        let answer = self.act_reaches(line, at, act)?;
        self.tell_answer(line, &answer)?;
        self.put_in_air(line, at, LinkModulus::Modulo8)
    }

    /// Tells why an act isn't done.
    fn tell_answer(&mut self, line: u32, answer: &Answer) -> Result<(), NoMemory>
        ensures { OnOk result (GoesOn (course self.old) (course self.new)
            (worlds.tell line (answers_to.answer_events answer.now))) }
    {
        match answer.refusal() {
            None => Ok(()),
            Some(why) => {
                self.tell(line, Event::Refused { why })?;
                Ok(())
            }
        }
    }

    /// The link of a node with a neighbour fails.
    pub(crate) fn fail_link(
        &mut self,
        line: u32,
        number: u8,
        peer: Call,
    ) -> Result<(), ReplayRefusal>
        ensures { Runs (course self.old) (course self.new)
            (lines.do_act line number (acts.LinkFail peer) lines.events_of_act) result }
    {
        self.act(line, number, &UserAct::LinkFail(peer))
    }

    /// An end is closed.
    pub(crate) fn close(&mut self, line: u32, number: u8, end: u32) -> Result<(), ReplayRefusal>
        ensures { Runs (course self.old) (course self.new)
            (lines.do_act line number (acts.Close end) lines.events_of_act) result }
    {
        self.act(line, number, &UserAct::Close { id: end as u64 })
    }

    /// A text is written at an end, as a message, unless the end is an agent's.
    pub(crate) fn say(
        &mut self,
        line: u32,
        number: u8,
        end: u32,
        text: &[u8],
    ) -> Result<(), ReplayRefusal>
        ensures { Runs (course self.old) (course self.new)
            (mailing.unless_agents line number end []
            (lines.do_act line number (acts.Write end text.now) lines.events_of_act)) result }
    {
        if self.is_agents(number, end) {
            self.refuse(line, LineRefusal::Served)?;
            return Ok(());
        }
        let act = UserAct::Write {
            id: end as u64,
            message: text,
        };
        self.act(line, number, &act)
    }

    /// A message is taken from an end, unless the end is an agent's.
    pub(crate) fn take(&mut self, line: u32, number: u8, end: u32) -> Result<(), ReplayRefusal>
        ensures { Runs (course self.old) (course self.new)
            (mailing.unless_agents line number end []
            (lines.do_act line number (acts.Take end) (lines.took_of number end))) result }
    {
        if self.is_agents(number, end) {
            self.refuse(line, LineRefusal::Served)?;
            return Ok(());
        }
        self.take_there(line, number, end)
    }

    /// The same at an end that isn't an agent's.
    fn take_there(&mut self, line: u32, number: u8, end: u32) -> Result<(), ReplayRefusal>
        ensures { Runs (course self.old) (course self.new)
            (lines.do_act line number (acts.Take end) (lines.took_of number end)) result }
    {
        let at = self.place_of(number);
        let answer = self.act_reaches(line, at, &UserAct::Take { id: end as u64 })?;
        self.tell_taken(line, number, end, answer)?;
        self.put_in_air(line, at, LinkModulus::Modulo8)
    }

    /// Tells the message that was taken, or why none was.
    fn tell_taken(&mut self, line: u32, node: u8, end: u32, answer: Answer) -> Result<(), NoMemory>
        ensures { OnOk result (GoesOn (course self.old) (course self.new)
            (worlds.tell line (answers_to.taken_events node end answer))) }
    {
        match answer {
            Answer::Took(message) => {
                let message = Box::new(self.alloc, message)?;
                self.tell(line, Event::Took { node, end, message })?;
                Ok(())
            }
            Answer::Done => Ok(()),
            Answer::Refused(why) => {
                self.tell(line, Event::Refused { why })?;
                Ok(())
            }
        }
    }

    /// The table of the node of that number is shown.
    pub(crate) fn show(&mut self, line: u32, number: u8) -> Result<(), NoMemory>
        ensures { OnOk result (GoesOn (course self.old) (course self.new) (lines.show line number)) }
    {
        let at = self.place_of(number);
        match self.table_at(at)? {
            Some(table) => {
                let table = Box::new(self.alloc, table)?;
                self.tell(line, Event::Shown { table })?;
                Ok(())
            }
            None => Ok(()),
        }
    }

    /// The table of the node at a place, as it is shown.
    fn table_at(&self, at: usize) -> Result<Option<Table>, NoMemory>
        ensures { IfOk result (λ table. (w : worlds.World) → Stands (course self.now) w
            → table ≡ option_map lines.table_of (slice_get w.nodes at)) }
    {
        if at < self.members.len() {
            let member = &self.members[at];
            let table = shown(self.alloc, &member.declared, &member.node)?;
            Ok(Some(table))
        } else {
            Ok(None)
        }
    }

    /// Time goes on, and each node is told, by number.
    pub(crate) fn tick(&mut self, line: u32, milliseconds: u32) -> Result<(), ReplayRefusal>
        ensures { Runs (course self.old) (course self.new) (lines.tick line milliseconds) result }
    {
        self.time = Moment(self.time.0.saturating_add(milliseconds as u64));
        self.tick_nodes(line)
    }

    fn tick_nodes(&mut self, line: u32) -> Result<(), ReplayRefusal>
        ensures { Runs (course self.old) (course self.new) (λ w. lines.tick_from line 0 (length w.nodes) w) result }
    {
        for at in 0..self.members.len() {
            self.tick_node(line, at)?;
        }
        Ok(())
    }

    fn tick_node(&mut self, line: u32, at: usize) -> Result<(), ReplayRefusal>
        ensures { Runs (course self.old) (course self.new) (lines.tick_node line at) result }
    {
        self.time_reaches(line, at)?;
        self.put_in_air(line, at, LinkModulus::Modulo8)
    }
}

//! The lines of mail: posts, and turns of the agent of a node. Called by `doing`.
mod held;
mod offering;
mod taking;

ghost use Rattle.std.specs.Prelude.{◌≡◌, ◌∷◌, [], OnOk, IfOk, IfErr, map};
ghost use Rattle.node_core.specs.Acts.{act_of};
ghost use Rattle.net_model.specs.Events as events;
ghost use Rattle.net_model.specs.Events.{event_of};
ghost use Rattle.net_model.specs.Mailing as mailing;
ghost use Rattle.net_world.specs.Running.{GoesOn, Runs, Stands, Stops, course};
ghost use Rattle.net_model.specs.Answers.{IsAnswerTo};
ghost use Rattle.net_model.specs.World as worlds;

use crate::world::World;
use ax_address::Call;
use net_model::{
    Answer, Event, LineAt, LineRefusal, Posting, ReplayRefusal, keeps_mail, of_post, post_at,
};
use node_core::UserAct;
use radio_base::{LinkModulus, NoMemory};

impl World<'_> {
    /// A mail is posted at the node of that number, or it is told why it isn't.
    pub(crate) fn post(
        &mut self,
        line: u32,
        node: u8,
        to: &Call,
        dest: &Call,
        text: &[u8],
    ) -> Result<(), NoMemory>
        ensures { OnOk result (GoesOn (course self.old) (course self.new)
            (mailing.post line node to.now dest.now text.now)) }
    {
        let at = self.place_of(node);
        match post_at(&mut self.members, at, to, dest, text) {
            Posting::NoMail => self.refuse(line, LineRefusal::NoMail),
            Posting::Posted(number) => {
                self.tell(line, Event::Posted { node, number })?;
                Ok(())
            }
            Posting::Refused(why) => match of_post(why) {
                Some(why) => self.refuse(line, why),
                None => Err(NoMemory),
            },
        }
    }

    /// Tells why a line isn't done.
    pub(crate) fn refuse(&mut self, line: u32, why: LineRefusal) -> Result<(), NoMemory>
        ensures { OnOk result (GoesOn (course self.old) (course self.new)
            (worlds.tell line (events.Refused why ∷ []))) }
    {
        self.tell(line, Event::Refused { why })?;
        Ok(())
    }

    /// Whether the node of that number keeps mail and holds that end: so the end is its agent's.
    pub(crate) fn is_agents(&self, number: u8, end: u32) -> bool
        ensures { (w : worlds.World) → Stands (course self.now) w → result ≡ mailing.is_agents number end w }
    {
        let at = self.place_of(number);
        keeps_mail(&self.members, at) && self.end_at(at, end as u64).is_some()
    }

    /// A turn of the agent of the node of that number. It takes in what waits at its ends, and offers what is queued.
    pub(crate) fn mail(&mut self, line: u32, node: u8) -> Result<(), ReplayRefusal>
        ensures { Runs (course self.old) (course self.new) (mailing.mail line node) result }
    {
        let at = self.place_of(node);
        if keeps_mail(&self.members, at) {
            self.agent_turn(LineAt { line, node, at })
        } else {
            self.refuse(line, LineRefusal::NoMail)?;
            Ok(())
        }
    }

    fn agent_turn(&mut self, here: LineAt) -> Result<(), ReplayRefusal>
        ensures { Runs (course self.old) (course self.new) (mailing.agent_turn here.line here.node here.at) result }
    {
        let mut answers = Vec::new(self.alloc);
        self.take_at_ends(here, &mut answers)?;
        self.offer_at_ends(here)?;
        self.tell_each(here.line, answers)?;
        self.put_in_air(here.line, here.at, LinkModulus::Modulo8)
    }

    fn tell_each(&mut self, line: u32, events: Vec<Event>) -> Result<(), NoMemory>
        ensures { OnOk result (GoesOn (course self.old) (course self.new)
            (worlds.tell line (map event_of events.items))) }
    {
        for event in events {
            self.tell(line, event)?;
        }
        Ok(())
    }

    /// An act of the agent is an input of its node: what the inputs before it have put out is put in the air first.
    fn input(&mut self, here: LineAt, act: &UserAct) -> Result<Answer, ReplayRefusal>
        ensures goes { OnOk result (GoesOn (course self.old) (course self.new)
            (mailing.input here.line here.at (act_of act.now))) }
        ensures answer { IfOk result (λ answer. (w : worlds.World) → Stands (course self.old) w
            → IsAnswerTo answer (worlds.answer here.at (act_of act.now) (mailing.aired_before here.line here.at w))) }
        ensures err { IfErr result (λ e. Stops (course self.old) e (mailing.input here.line here.at (act_of act.now))) }
    {
        self.put_in_air(here.line, here.at, LinkModulus::Modulo8)?;
        let answer = self.act_reaches(here.line, here.at, act)?;
        Ok(answer)
    }

    /// Writes a message at an end, where the end takes it: a refused one is no input. Whether it was written.
    fn write_if_taken(
        &mut self,
        here: LineAt,
        id: u64,
        message: &[u8],
    ) -> Result<bool, ReplayRefusal>
        ensures goes { OnOk result (GoesOn (course self.old) (course self.new)
            (mailing.write_if_taken here.line here.at id message.now)) }
        ensures answer { IfOk result (λ written. (w : worlds.World) → Stands (course self.old) w
            → written ≡ mailing.may_write here.at id message.now w) }
        ensures err { IfErr result (λ e. Stops (course self.old) e
            (mailing.write_if_taken here.line here.at id message.now)) }
    {
        if !self.may_write(here.at, id, message) {
            return Ok(false);
        }
        self.input(here, &UserAct::Write { id, message })?;
        Ok(true)
    }
}

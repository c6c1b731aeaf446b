//! Bursts: many messages that are written at an end. Called by `doing`.
ghost use Rattle.std.specs.Prelude.{◌≡◌, ◌≤◌, ◌+◌, ◌∷◌, [], ℕ, OnOk, IfOk, IfErr, suc};
ghost use Rattle.std.specs.Fmt.{decimal};
ghost use Rattle.node_core.specs.Acts as acts;
ghost use Rattle.net_model.specs.Events.{Wrote};
ghost use Rattle.net_model.specs.Lines as lines;
ghost use Rattle.net_model.specs.Mailing as mailing;
ghost use Rattle.net_world.specs.Running as running;
ghost use Rattle.net_world.specs.Running.{GoesOn, Runs, Stands, Stops, course};
ghost use Rattle.net_model.specs.Answers.{IsAnswerTo};
ghost use Rattle.net_model.specs.World as worlds;

use crate::world::World;
use net_model::{Answer, Event, LineAt, LineRefusal, ReplayRefusal};
use node_core::UserAct;
use radio_base::{LinkModulus, NoMemory};

impl World<'_> {
    /// The decimal texts from 1 to `count` are written at an end, up to the first that is refused; none where the end is an agent's.
    pub(crate) fn burst(
        &mut self,
        line: u32,
        number: u8,
        end: u32,
        count: u32,
    ) -> Result<(), ReplayRefusal>
        ensures { Runs (course self.old) (course self.new)
            (mailing.unless_agents line number end (Wrote number end 0 ∷ []) (lines.burst line number end count))
            result }
    {
        if self.is_agents(number, end) {
            let none = Event::Wrote {
                node: number,
                end,
                count: 0,
            };
            self.tell(line, none)?;
            self.refuse(line, LineRefusal::Served)?;
            return Ok(());
        }
        self.burst_there(line, number, end, count)
    }

    /// The same at an end that isn't an agent's.
    fn burst_there(
        &mut self,
        line: u32,
        number: u8,
        end: u32,
        count: u32,
    ) -> Result<(), ReplayRefusal>
        ensures { Runs (course self.old) (course self.new) (lines.burst line number end count) result }
    {
        let at = self.place_of(number);
        let here = LineAt {
            line,
            node: number,
            at,
        };
        self.burst_at(here, end, count)
    }

    fn burst_at(&mut self, here: LineAt, end: u32, count: u32) -> Result<(), ReplayRefusal>
        ensures { Runs (course self.old) (course self.new)
            (lines.burst_from here.line here.at here.node end 1 count) result }
    {
        for before in 0..count {
            let nth = before + 1;
            let is_refused = self.burst_once(here, end, nth, count - nth)?;
            if is_refused {
                return Ok(());
            }
        }
        Ok(())
    }

    /// Writes a text of a burst, behind which there are so many more. It answers whether that text was refused.
    fn burst_once(
        &mut self,
        here: LineAt,
        end: u32,
        nth: u32,
        more: u32,
    ) -> Result<bool, ReplayRefusal>
        requires { 1 ≤ nth }
        ensures ok { IfOk result (running.BurstGoes (course self.old) (course self.new)
            (lines.burst_from here.line here.at here.node end nth (suc more))
            (lines.burst_from here.line here.at here.node end (nth + 1) more)) }
        ensures err { IfErr result (λ e. Stops (course self.old) e
            (lines.burst_from here.line here.at here.node end nth (suc more))) }
    {
        let answer = self.write_nth(here, end, nth)?;
        match answer.refusal() {
            None => {
                self.tell_written(here, end, nth, more)?;
                self.put_in_air(here.line, here.at, LinkModulus::Modulo8)?;
                Ok(false)
            }
            Some(why) => {
                let node = here.node;
                let count = nth - 1;
                self.tell(here.line, Event::Wrote { node, end, count })?;
                self.tell(here.line, Event::Refused { why })?;
                self.put_in_air(here.line, here.at, LinkModulus::Modulo8)?;
                Ok(true)
            }
        }
    }

    /// Writes the decimal text of a number at an end.
    fn write_nth(&mut self, here: LineAt, end: u32, nth: u32) -> Result<Answer, NoMemory>
        ensures goes { OnOk result (GoesOn (course self.old) (course self.new)
            (worlds.reach here.line here.at (worlds.Act (acts.Write end (decimal nth))))) }
        ensures answer { IfOk result (λ answer. (w : worlds.World) → Stands (course self.old) w
            → IsAnswerTo answer (worlds.answer here.at (acts.Write end (decimal nth)) w)) }
    {
        let text = nth.to_string(self.alloc)?;
        let act = UserAct::Write {
            id: end as u64,
            message: text.as_str().as_bytes(),
        };
        let answer = self.act_reaches(here.line, here.at, &act)?;
        Ok(answer)
    }

    /// Tells of the last text of a burst that all were written.
    fn tell_written(&mut self, here: LineAt, end: u32, nth: u32, more: u32) -> Result<(), NoMemory>
        ensures { OnOk result (GoesOn (course self.old) (course self.new)
            (worlds.tell here.line (lines.all_wrote here.node end nth more))) }
    {
        if more == 0 {
            let all = Event::Wrote {
                node: here.node,
                end,
                count: nth,
            };
            self.tell(here.line, all)?;
            Ok(())
        } else {
            Ok(())
        }
    }
}

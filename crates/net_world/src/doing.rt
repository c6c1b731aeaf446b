//! What each line does: something reaches a node, events are told, a node's frames are put in the air. Called by `replaying`.
ghost use Rattle.std.specs.Prelude.{◌≡◌, ◌∷◌, [], OnOk};
ghost use Rattle.std.specs.List.{AllByRecursion};
ghost use Rattle.circuit_table.specs.Pairs.{IsPair};
ghost use Rattle.node_core.specs.Acts as acts;
ghost use Rattle.node_core.specs.Acts.{act_of};
ghost use Rattle.net_model.specs.SoundPlans.{IsInstruction, IsLine};
ghost use Rattle.net_model.specs.Lines as lines;
ghost use Rattle.net_world.specs.Running.{GoesOn, Runs, course};
ghost use Rattle.net_world.specs.Running as running;
ghost use Rattle.net_model.specs.World as worlds;

use crate::world::World;
use ax_address::{Alias, Call};
use circuit_l4::Pair;
use net_model::{ReplayRefusal, is_callsign};
use network_file::{FirstPair, Instruction, Network, NumberedInstruction};
use node_core::UserAct;

impl World<'_> {
    /// Does one instruction after another.
    pub(crate) fn do_all(
        &mut self,
        network: &Network,
        instructions: &[NumberedInstruction],
    ) -> Result<(), ReplayRefusal>
        ensures runs { Runs (course self.old) (course self.new) (lines.do_lines network.now instructions.now) result }
        ensures sound { OnOk result (AllByRecursion IsLine instructions.now) }
    {
        for numbered in instructions {
            is_instruction(&numbered.instruction);
            self.do_line(network, numbered.line, &numbered.instruction)?;
        }
        Ok(())
    }

    /// Does what a line says.
    fn do_line(
        &mut self,
        network: &Network,
        line: u32,
        instruction: &Instruction,
    ) -> Result<(), ReplayRefusal>
        ensures { Runs (course self.old) (course self.new) (lines.do_line network.now line instruction.now) result }
    {
        match instruction {
            Instruction::Heard { node, call, nodes } => {
                self.hear_broadcast(line, *node, call, nodes.as_nodes())
            }
            Instruction::Lock {
                node,
                dest,
                alias,
                neighbour,
                quality,
            } => self.act(line, *node, &lock_act(*dest, *alias, *neighbour, *quality)),
            Instruction::Round { node } => self.act(line, *node, &UserAct::Round),
            Instruction::LinkFail { node, call } => self.fail_link(line, *node, *call),
            Instruction::Show { node } => Ok(self.show(line, *node)?),
            Instruction::Tick { milliseconds } => self.tick(line, *milliseconds),
            Instruction::Restart { node, pair } => {
                Ok(self.restart(network, line, *node, pair_of(pair))?)
            }
            Instruction::Open { node, dest } => self.act(line, *node, &UserAct::Connect(*dest)),
            Instruction::Post {
                node,
                to,
                dest,
                text,
            } => { Ok(self.post(line, *node, to, dest, text.as_slice())?) }
            Instruction::Mail { node } => self.mail(line, *node),
            Instruction::Say { node, end, text } => self.say(line, *node, *end, text.as_slice()),
            Instruction::Burst { node, end, count } => self.burst(line, *node, *end, *count),
            Instruction::Take { node, end } => self.take(line, *node, *end),
            Instruction::Close { node, end } => self.close(line, *node, *end),
            Instruction::Deliver { frame, node } => self.deliver(line, *frame, *node),
            Instruction::Again { frame, node } => self.repeat(line, *frame, *node),
            Instruction::Lose { frame } => Ok(self.lose(line, *frame)?),
            Instruction::Flow { count } => self.flow(line, *count),
            Instruction::Cut { count } => Ok(self.cut(line, *count)?),
        }
    }
}

/// An operator locks a route in.
fn lock_act(dest: Call, alias: Alias, neighbour: Call, quality: u8) -> UserAct<'static>
    ensures { act_of result ≡ acts.Lock dest alias neighbour quality }
{
    UserAct::Lock {
        dest,
        alias,
        neighbour,
        quality,
    }
}

/// The pair that a node gives first when it starts again.
fn pair_of(named: &FirstPair) -> Pair
    ensures value { result ≡ record { index = named.now.index; ident = named.now.ident } }
    ensures good { IsPair result }
{
    Pair {
        index: named.index(),
        ident: named.ident(),
    }
}

/// What holds of every instruction: a circuit is asked for with a callsign, and a node starts again with a pair.
fn is_instruction(instruction: &Instruction)
    ensures { IsInstruction instruction.now }
{
    match instruction {
        Instruction::Open { dest, .. } => is_callsign(dest),
        Instruction::Restart { pair, .. } => {
            let _ = pair.index();
            let _ = pair.ident();
        }
        _ => {}
    }
}

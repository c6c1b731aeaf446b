//! The top call. Called by `wursthatch`.
ghost use Rattle.std.specs.Prelude.{ℕ, ◌≡◌, ◌≢◌, ◌↔◌, ◌⊎◌};
ghost use Rattle.tool_cmd.specs.declared.ip.gateway.Gateway.{Gateway};
ghost use Rattle.tool_cmd.specs.declared.lives.settings.LifeSettings.{LifeSettings};
ghost use Rattle.node_cmd.specs.declared.ran.Ran.TheVariants as rans;
ghost use Rattle.node_cmd.specs.declared.command.RunCommand.{RunCommand};
ghost use Rattle.radio_base.specs.declared.modulus.LinkModulus.{LinkModulus};
ghost use Rattle.network_file.specs.declared.plan.live.LiveNode.{LiveNode};
ghost use Rattle.node_cmd.specs.Words.{AskFor, AskForLife, AskForNode, AskForStream};
ghost use Rattle.radio_base.specs.Modulus.{modulus_size};
ghost use Rattle.tool_cmd.specs.Standing.{state_of};
ghost use Rattle.cmd_streams.specs.Told.{SaysTo, output_by, told_by, UnlessItWrote};
ghost use Rattle.cmd_streams.specs.StatusNotes.{HasNote, IsSilent};
ghost use Rattle.node_cmd.specs.Usage.{usage_note};
ghost use Rattle.tool_cmd.specs.Run.{FramesEnd, IpEnds, LifeEnds};
ghost use Rattle.node_cmd.specs.Run.{NodeEnds, ReplayEnds, SoakEnds};

use crate::command::{RunCommand, command_of};
use crate::live::run_node;
use crate::ran::Ran;
use crate::replays::replay_file;
use crate::soaks::soak;
use crate::usage::USAGE;
use cmd_streams::{Status, say};
use radio_base::{Clock, Sink, Source};
use std::alloc::Global;
use tool_cmd::{frames_of_stream, ip_over_stream, life_of_file};

/// Does what the words ask for: `replay` reads a network file from the source and writes the report of
/// that network to the sink, and leaves what ran in `ran`, in which nothing is before; `node` runs a node on a KISS stream, and leaves it
/// likewise; `frames` lists the frames of a KISS stream; `soak` replays the network that a number is made to, writes the line on it, and
/// leaves what ran likewise; `life` reads the script of a life of a link, and writes its report; `ip` forwards the packets of a KISS stream.
///
/// The status says how it ended, and where words, input or lines were refused the notes say why.
pub fn run<S: Source, K: Sink, N: Sink, C: Clock>(
    alloc: Global,
    words: &[String],
    source: &mut S,
    sink: &mut K,
    notes: &mut N,
    clock: &mut C,
    ran: &mut Ran,
) -> Status
    requires { ran.old ≡ rans.Nothing }

    // Words that are no command's are refused before anything is read or written.
    ensures usage { (result ≡ Status.Usage) ↔ ((c : RunCommand) → ¬ AskFor words.now c) }
    ensures unread { result ≡ Status.Usage → source.new ≡ source.old }
    ensures unwritten { result ≡ Status.Usage → sink.new ≡ sink.old }

    // How each command ends.
    ensures replay { AskFor words.now RunCommand.Replay → ReplayEnds
        (told_by S.Source K.Sink N.Sink source.old sink.old notes.old)
        (told_by S.Source K.Sink N.Sink source.new sink.new notes.new)
        ran.new result }
    ensures frames { (m : LinkModulus) → AskFor words.now (RunCommand.Frames m) → FramesEnd (modulus_size m)
        (told_by S.Source K.Sink N.Sink source.old sink.old notes.old)
        (told_by S.Source K.Sink N.Sink source.new sink.new notes.new) result }
    ensures soak { (seed : ℕ) → AskFor words.now (RunCommand.Soak seed) → SoakEnds seed
        (output_by K.Sink N.Sink sink.old notes.old)
        (output_by K.Sink N.Sink sink.new notes.new) ran.new result }
    ensures life { (s : LifeSettings) → AskFor words.now (RunCommand.Life s) → LifeEnds s
        (told_by S.Source K.Sink N.Sink source.old sink.old notes.old)
        (told_by S.Source K.Sink N.Sink source.new sink.new notes.new) result }
    ensures node { (declared : LiveNode) → AskFor words.now (RunCommand.Node declared) → NodeEnds declared
        (C.given clock.old) (C.given clock.new)
        (told_by S.Source K.Sink N.Sink source.old sink.old notes.old)
        (told_by S.Source K.Sink N.Sink source.new sink.new notes.new)
        ran.new result }
    ensures ip { (g : Gateway) → AskFor words.now (RunCommand.Ip g) → IpEnds (state_of g)
        (told_by S.Source K.Sink N.Sink source.old sink.old notes.old)
        (told_by S.Source K.Sink N.Sink source.new sink.new notes.new) result }

    // `soak` reads nothing.
    ensures sourceless { (seed : ℕ) → AskFor words.now (RunCommand.Soak seed) → source.new ≡ source.old }

    // `replay`, `soak` and `life` write at the end: elsewhere they write nothing.
    ensures whole { ¬ AskForStream words.now → ¬ AskForNode words.now → UnlessItWrote result (sink.new ≡ sink.old) }

    // What ran is left after `replay`, `node` and `soak`: where they are done, and where it is too late.
    ensures nothing { result ≢ Status.Done → result ≢ Status.TooLate → ran.new ≡ ran.old }
    ensures no_network { AskForStream words.now ⊎ AskForLife words.now → ran.new ≡ ran.old }

    // The notes are those of the status, and no others.
    ensures noted { HasNote result (SaysTo N.Sink notes.old notes.new) }
    ensures usage_noted { result ≡ Status.Usage → SaysTo N.Sink notes.old notes.new usage_note }
    ensures silent { IsSilent result → notes.new ≡ notes.old }

    // No command but `node` asks the clock.
    ensures timeless { ¬ AskForNode words.now → clock.new ≡ clock.old }
{
    tool_cmd::laws::words_ask_for_one();
    match command_of(words) {
        Some(RunCommand::Replay) => replay_file(alloc, source, sink, notes, ran),
        Some(RunCommand::Frames { modulus }) => frames_of_stream(
            alloc, modulus, source, sink, notes,
        ),
        Some(RunCommand::Node { declared }) => {
            run_node(alloc, &declared, source, sink, notes, clock, ran)
        }
        Some(RunCommand::Soak { seed }) => soak(alloc, seed, sink, notes, ran),
        Some(RunCommand::Life { settings }) => life_of_file(alloc, settings, source, sink, notes),
        Some(RunCommand::Ip { gateway }) => ip_over_stream(alloc, gateway, source, sink, notes),
        None => {
            say(notes, USAGE);
            Status::Usage
        }
    }
}

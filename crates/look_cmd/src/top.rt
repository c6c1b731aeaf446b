//! The top call. Called by `wursthatch_look`.
ghost use Rattle.std.specs.Prelude.{◌≡◌, ◌↔◌, Option};
ghost use Rattle.cmd_streams.specs.StatusNotes.{HasNote, IsSilent};
ghost use Rattle.cmd_streams.specs.Told.{SaysTo, told_by, UnlessItWrote};
ghost use Rattle.radio_base.specs.declared.modulus.LinkModulus.{LinkModulus};
ghost use Rattle.look_cmd.specs.declared.command.LookCommand.{LookCommand};
ghost use Rattle.look_cmd.specs.Look.{ListenEnds, TraceEnds};
ghost use Rattle.look_cmd.specs.Usage.{usage_note};
ghost use Rattle.look_cmd.specs.Words.{AskFor};

use crate::command::{LookCommand, command_of};
use crate::listens::listen_to_stream;
use crate::traces::trace_file;
use crate::usage::USAGE;
use cmd_streams::{Status, say};
use radio_base::{Sink, Source};
use std::alloc::Global;

/// Does what the words ask for: `listen` tells what each frame of a KISS stream carries; `trace` reads a network file from the source and
/// writes the trace of that network to the sink.
///
/// The status says how it ended, and where words or input were refused the notes say why.
pub fn look<S: Source, K: Sink, N: Sink>(
    alloc: Global,
    words: &[String],
    source: &mut S,
    sink: &mut K,
    notes: &mut N,
) -> Status
    // Words that are no command's are refused before anything is read or written.
    ensures usage { (result ≡ Status.Usage) ↔ ((c : LookCommand) → ¬ AskFor words.now c) }
    ensures unread { result ≡ Status.Usage → source.new ≡ source.old }
    ensures unwritten { result ≡ Status.Usage → sink.new ≡ sink.old }

    // How each command ends.
    ensures listen { (m : Option LinkModulus) → AskFor words.now (LookCommand.Listen m) → ListenEnds m
        (told_by S.Source K.Sink N.Sink source.old sink.old notes.old)
        (told_by S.Source K.Sink N.Sink source.new sink.new notes.new) result }

    ensures trace { AskFor words.now LookCommand.Trace → TraceEnds
        (told_by S.Source K.Sink N.Sink source.old sink.old notes.old)
        (told_by S.Source K.Sink N.Sink source.new sink.new notes.new) result }

    // `trace` writes at the end: elsewhere it writes nothing.
    ensures whole { AskFor words.now LookCommand.Trace → UnlessItWrote result (sink.new ≡ sink.old) }

    // The notes are those of the status, and no others.
    ensures noted { HasNote result (SaysTo N.Sink notes.old notes.new) }
    ensures usage_noted { result ≡ Status.Usage → SaysTo N.Sink notes.old notes.new usage_note }
    ensures silent { IsSilent result → notes.new ≡ notes.old }
{
    match command_of(words) {
        Some(LookCommand::Listen { modulus }) => {
            listen_to_stream(alloc, modulus, source, sink, notes)
        }
        Some(LookCommand::Trace) => trace_file(alloc, source, sink, notes),
        None => {
            say(notes, USAGE);
            Status::Usage
        }
    }
}

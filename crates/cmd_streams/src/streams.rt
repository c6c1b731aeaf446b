//! A stream is read to its end, and each read is answered before the next. Called by `items`, and by `node_cmd`.
ghost use Rattle.std.specs.Prelude.{◌≡◌, ◌++◌, ◌∷◌, ◌<◌, [], List, ℕ, length, OnOk, IfErr};
ghost use Rattle.std.specs.Io.KnownBytes.{Appends};
ghost use Rattle.cmd_streams.specs.declared.status.Status.TheVariants.{Done};
ghost use Rattle.cmd_streams.specs.Answering.{WhyNoAnswer};
ghost use Rattle.cmd_streams.specs.StatusNotes.{HasNote, IsSilent};
ghost use Rattle.cmd_streams.specs.StreamEnds.{StreamEnds};
ghost use Rattle.cmd_streams.specs.Streams.{Read, AnswersAll, WhyUnanswered, input_of, read_of};
ghost use Rattle.cmd_streams.specs.Told.{told_by, Says};

use crate::notes::{READ_FAULT, TOO_LONG, say};
use crate::status::Status;
use crate::taker::Taker;
use crate::writing::write_all;
use radio_base::{Clock, Moment, NoMemory, Sink, Source, TextOut};
use std::alloc::Global;

/// The most bytes that a stream may have: one less than 2^32.
const MAX_STREAM: u64 = 4_294_967_295;

/// Why a stream wasn't answered to its end.
#[derive(Clone, Copy, Debug, PartialEq, Eq)]
pub enum StreamRefusal {
    ReadFault,
    WriteFault,
    TooLong,
    NoMemory,
}

/// Reads a stream to its end, at most as many bytes at a time as the buffer has, and writes the answer to each read before the
/// next, so that no earlier read is wanted any more. The clock is asked once behind each read that gave bytes.
///
/// The status says how it ended, and where the input was refused the notes say why.
pub fn answer_stream<T: Taker, S: Source, K: Sink, N: Sink, C: Clock>(
    alloc: Global,
    buf: &mut [u8],
    taker: &mut T,
    source: &mut S,
    sink: &mut K,
    notes: &mut N,
    clock: &mut C,
) -> Status
    requires room { 0 < length buf.old }
    requires start { T.took taker.old taker.old [] [] }

    // How it ends: what was written is what the taker answered, and each status has its reason.
    ensures ends { StreamEnds (length buf.old)
        (λ reads text. (last : T) × T.took taker.old last reads text) (C.given clock.old) (C.given clock.new)
        (told_by S.Source K.Sink N.Sink source.old sink.old notes.old)
        (told_by S.Source K.Sink N.Sink source.new sink.new notes.new) result }
    ensures taken { result ≡ Done
        → AnswersAll (length buf.old) (λ reads text. T.took taker.old taker.new reads text)
        (input_of (S.left source.old) (S.reads source.old) (C.given clock.old))
        (input_of (S.left source.new) (S.reads source.new) (C.given clock.new))
        (K.written sink.old) (K.written sink.new) }

    // Nothing else is noted.
    ensures noted { HasNote result (Says (N.written notes.old) (N.written notes.new)
        (N.faults notes.old) (N.faults notes.new)) }
    ensures silent { IsSilent result → notes.new ≡ notes.old }
{
    match answer_reads(alloc, buf, taker, source, sink, clock) {
        Ok(()) => Status::Done,
        Err(StreamRefusal::ReadFault) => {
            say(notes, READ_FAULT);
            Status::ReadFault
        }
        Err(StreamRefusal::TooLong) => {
            say(notes, TOO_LONG);
            Status::TooLong
        }
        Err(StreamRefusal::WriteFault) => Status::WriteFault,
        Err(StreamRefusal::NoMemory) => Status::NoMemory,
    }
}

/// Reads a stream to its end, and answers each read.
fn answer_reads<T: Taker, S: Source, K: Sink, C: Clock>(
    alloc: Global,
    buf: &mut [u8],
    taker: &mut T,
    source: &mut S,
    sink: &mut K,
    clock: &mut C,
) -> Result<(), StreamRefusal>
    requires room { 0 < length buf.old }
    requires start { T.took taker.old taker.old [] [] }
    ensures all { OnOk result (AnswersAll (length buf.old) (λ reads text. T.took taker.old taker.new reads text)
        (input_of (S.left source.old) (S.reads source.old) (C.given clock.old))
        (input_of (S.left source.new) (S.reads source.new) (C.given clock.new))
        (K.written sink.old) (K.written sink.new)) }
    ensures read_same { OnOk result (S.faults source.new ≡ S.faults source.old) }
    ensures write_same { OnOk result (K.faults sink.new ≡ K.faults sink.old) }
    ensures err { IfErr result (λ e. WhyUnanswered (length buf.old)
        (λ reads text. (last : T) × T.took taker.old last reads text)
        (input_of (S.left source.old) (S.reads source.old) (C.given clock.old))
        (input_of (S.left source.new) (S.reads source.new) (C.given clock.new))
        (K.written sink.old) (K.written sink.new) (S.faults source.old) (S.faults source.new)
        (K.faults sink.old) (K.faults sink.new) e) }
{
    let mut room = MAX_STREAM;
    loop {
        let count = match source.read(buf) {
            Ok(count) => count,
            Err(_) => return Err(StreamRefusal::ReadFault),
        };
        if count == 0 {
            return Ok(());
        }
        let now = clock.now();
        if count as u64 > room {
            return Err(StreamRefusal::TooLong);
        }
        room -= count as u64;
        match answer_read(alloc, &buf[..count], now, taker, sink) {
            Ok(()) => {}
            Err(refusal) => return Err(refusal),
        }
    }
}

/// Takes a read, and writes the answer to it.
fn answer_read<T: Taker, K: Sink>(
    alloc: Global,
    bytes: &[u8],
    now: Moment,
    taker: &mut T,
    sink: &mut K,
) -> Result<(), StreamRefusal>
    ensures answered { OnOk result ((more : List ℕ) × Appends (K.written sink.old) (K.written sink.new) more
        × ((first : T) (reads : List Read) (text : List ℕ) → T.took first taker.old reads text
        → T.took first taker.new (reads ++ read_of bytes.now now.0 ∷ []) (text ++ more))) }
    ensures same { OnOk result (K.faults sink.new ≡ K.faults sink.old) }
    ensures err { IfErr result (λ e. WhyNoAnswer
        (λ (more : List ℕ). (first : T) (reads : List Read) (text : List ℕ) → T.took first taker.old reads text
        → T.took first taker.new (reads ++ read_of bytes.now now.0 ∷ []) (text ++ more))
        (K.written sink.old) (K.written sink.new) (K.faults sink.old) (K.faults sink.new) e) }
{
    let mut answer = TextOut::new(alloc);
    match taker.take(bytes, now, &mut answer) {
        Ok(()) => match write_all(sink, answer.bytes()) {
            Ok(()) => Ok(()),
            Err(_) => Err(StreamRefusal::WriteFault),
        },
        Err(_) => Err(StreamRefusal::NoMemory),
    }
}

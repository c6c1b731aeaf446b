//! A stream is read to its end, or until no more is wanted. Called by who runs stations.
ghost use Rattle.std.specs.Prelude.{◌≡◌, ◌++◌, ◌∷◌, ◌⊎◌, ◌<◌, [], Bool, List, ℕ, length, IfErr, IsTrue, OnOk};
ghost use Rattle.std.specs.Io.KnownBytes.{Appends, IsAtEnd};
ghost use Rattle.radio_base.specs.Causes.{Rose};
ghost use Rattle.cmd_streams.specs.StreamEnds.{input_at};
ghost use Rattle.cmd_streams.specs.Streams.{Answers, Read, read_of};
ghost use Rattle.cmd_streams.specs.Told.{AppendsFront, SaysTo, told_by};
ghost use Rattle.station_streams.specs.Ends.{TellerEnds};
ghost use Rattle.station_streams.specs.Stopping.{WhyStopped, WhyUnwritten};
ghost use Rattle.station_streams.specs.Telling.{Notes};
ghost use Rattle.station_streams.specs.declared.reads.StreamStop.TheVariants.{WriteFault};

use crate::teller::Teller;
use cmd_streams::{ReadRefusal, Status, refuse_input, write_all};
use radio_base::{Clock, Moment, Sink, Source, TextOut};
use std::alloc::Global;

/// The most bytes that a stream may have: one less than 2^32.
const MAX_STREAM: u64 = 4_294_967_295;

/// Why a stream wasn't answered to its end.
#[derive(Clone, Copy, Debug, PartialEq, Eq)]
pub enum StreamStop {
    ReadFault,
    WriteFault,
    TooLong,
    NoMemory,
}

/// Reads a stream to its end, or until no more is wanted, at most as many bytes at a time as the buffer has. What each read brings is told
/// to the notes and answered to the sink before the next read; a fault of the notes changes nothing else. The clock is asked once behind
/// each read that gave bytes.
///
/// The status says how it ended, and where the input was refused the notes say why.
pub fn answer_and_tell<T: Teller, S: Source, K: Sink, N: Sink, C: Clock>(
    alloc: Global,
    buf: &mut [u8],
    teller: &mut T,
    source: &mut S,
    sink: &mut K,
    notes: &mut N,
    clock: &mut C,
) -> Status
    requires room { 0 < length buf.old }
    requires start { T.took teller.old teller.old [] [] [] }

    // How it ends: what was written and noted is what the teller answered and told, and each status has its reason.
    ensures ends { TellerEnds (length buf.old)
        (λ reads text texts. (last : T) × T.took teller.old last reads text texts)
        (λ over reads text texts. (last : T) × T.ended teller.old last over reads text texts)
        (C.given clock.old) (C.given clock.new)
        (told_by S.Source K.Sink N.Sink source.old sink.old notes.old)
        (told_by S.Source K.Sink N.Sink source.new sink.new notes.new) result }
{
    match answer_whole(alloc, buf, teller, source, sink, notes, clock) {
        Ok(()) => Status::Done,
        Err(StreamStop::ReadFault) => refuse_input(ReadRefusal::Fault, notes),
        Err(StreamStop::TooLong) => refuse_input(ReadRefusal::TooLong, notes),
        Err(StreamStop::WriteFault) => Status::WriteFault,
        Err(StreamStop::NoMemory) => Status::NoMemory,
    }
}

/// Reads a stream, answers each read, and ends.
fn answer_whole<T: Teller, S: Source, K: Sink, N: Sink, C: Clock>(
    alloc: Global,
    buf: &mut [u8],
    teller: &mut T,
    source: &mut S,
    sink: &mut K,
    notes: &mut N,
    clock: &mut C,
) -> Result<(), StreamStop>
    requires room { 0 < length buf.old }
    requires start { T.took teller.old teller.old [] [] [] }
    ensures all { OnOk result ((over : Bool)
        × Answers (length buf.old) (Notes (λ reads text texts. (last : T) × T.ended teller.old last over reads text texts)
        (told_by S.Source K.Sink N.Sink source.old sink.old notes.old)
        (told_by S.Source K.Sink N.Sink source.new sink.new notes.new))
        (input_at (C.given clock.old) (told_by S.Source K.Sink N.Sink source.old sink.old notes.old))
        (input_at (C.given clock.new) (told_by S.Source K.Sink N.Sink source.new sink.new notes.new))
        (K.written sink.old) (K.written sink.new)
        × (IsTrue over ⊎ IsAtEnd (S.left source.new))) }
    ensures read_same { OnOk result (S.faults source.new ≡ S.faults source.old) }
    ensures write_same { OnOk result (K.faults sink.new ≡ K.faults sink.old) }
    ensures err { IfErr result (λ e. WhyStopped (length buf.old)
        (Notes (λ reads text texts. (last : T) × T.took teller.old last reads text texts)
        (told_by S.Source K.Sink N.Sink source.old sink.old notes.old)
        (told_by S.Source K.Sink N.Sink source.new sink.new notes.new))
        (λ over. Notes (λ reads text texts. (last : T) × T.ended teller.old last over reads text texts)
        (told_by S.Source K.Sink N.Sink source.old sink.old notes.old)
        (told_by S.Source K.Sink N.Sink source.new sink.new notes.new))
        (input_at (C.given clock.old) (told_by S.Source K.Sink N.Sink source.old sink.old notes.old))
        (input_at (C.given clock.new) (told_by S.Source K.Sink N.Sink source.new sink.new notes.new))
        (K.written sink.old) (K.written sink.new)
        (S.faults source.old) (S.faults source.new) (K.faults sink.old) (K.faults sink.new) e) }
{
    match answer_reads(alloc, buf, teller, source, sink, notes, clock) {
        Ok(()) => {}
        Err(stop) => return Err(stop),
    }
    match answer_end(alloc, teller, sink, notes) {
        Ok(()) => Ok(()),
        Err(stop) => Err(stop),
    }
}

/// Reads a stream to its end, or until no more is wanted, and answers each read.
fn answer_reads<T: Teller, S: Source, K: Sink, N: Sink, C: Clock>(
    alloc: Global,
    buf: &mut [u8],
    teller: &mut T,
    source: &mut S,
    sink: &mut K,
    notes: &mut N,
    clock: &mut C,
) -> Result<(), StreamStop>
    requires room { 0 < length buf.old }
    requires start { T.took teller.old teller.old [] [] [] }
    ensures all { OnOk result (Answers (length buf.old) (Notes (T.took teller.old teller.new)
        (told_by S.Source K.Sink N.Sink source.old sink.old notes.old)
        (told_by S.Source K.Sink N.Sink source.new sink.new notes.new))
        (input_at (C.given clock.old) (told_by S.Source K.Sink N.Sink source.old sink.old notes.old))
        (input_at (C.given clock.new) (told_by S.Source K.Sink N.Sink source.new sink.new notes.new))
        (K.written sink.old) (K.written sink.new)
        × (IsTrue (T.over teller.new) ⊎ IsAtEnd (S.left source.new))) }
    ensures read_same { OnOk result (S.faults source.new ≡ S.faults source.old) }
    ensures write_same { OnOk result (K.faults sink.new ≡ K.faults sink.old) }
    ensures err { IfErr result (λ e. WhyStopped (length buf.old)
        (Notes (λ reads text texts. (last : T) × T.took teller.old last reads text texts)
        (told_by S.Source K.Sink N.Sink source.old sink.old notes.old)
        (told_by S.Source K.Sink N.Sink source.new sink.new notes.new))
        (λ over. Notes (λ reads text texts. (last : T) × T.ended teller.old last over reads text texts)
        (told_by S.Source K.Sink N.Sink source.old sink.old notes.old)
        (told_by S.Source K.Sink N.Sink source.new sink.new notes.new))
        (input_at (C.given clock.old) (told_by S.Source K.Sink N.Sink source.old sink.old notes.old))
        (input_at (C.given clock.new) (told_by S.Source K.Sink N.Sink source.new sink.new notes.new))
        (K.written sink.old) (K.written sink.new)
        (S.faults source.old) (S.faults source.new) (K.faults sink.old) (K.faults sink.new) e) }
{
    let mut room = MAX_STREAM;
    while !teller.is_over() {
        let count = match source.read(buf) {
            Ok(count) => count,
            Err(_) => return Err(StreamStop::ReadFault),
        };
        if count == 0 {
            return Ok(());
        }
        let now = clock.now();
        if count as u64 > room {
            return Err(StreamStop::TooLong);
        }
        room -= count as u64;
        match answer_read(alloc, &buf[..count], now, teller, sink, notes) {
            Ok(()) => {}
            Err(stop) => return Err(stop),
        }
    }
    Ok(())
}

/// Takes a read, tells of it, and writes the answer to it.
fn answer_read<T: Teller, K: Sink, N: Sink>(
    alloc: Global,
    bytes: &[u8],
    now: Moment,
    teller: &mut T,
    sink: &mut K,
    notes: &mut N,
) -> Result<(), StreamStop>
    ensures answered { OnOk result ((more note : List ℕ) × Appends (K.written sink.old) (K.written sink.new) more
        × SaysTo N.Sink notes.old notes.new note
        × ((first : T) (reads : List Read) (text : List ℕ) (texts : List (List ℕ)) → T.took first teller.old reads text texts
        → T.took first teller.new (reads ++ read_of bytes.now now.0 ∷ []) (text ++ more) (texts ++ note ∷ []))) }
    ensures same { OnOk result (K.faults sink.new ≡ K.faults sink.old) }
    ensures err { IfErr result (λ e. WhyUnwritten
        (λ (more : List ℕ). (note : List ℕ) × SaysTo N.Sink notes.old notes.new note
        × ((first : T) (reads : List Read) (text : List ℕ) (texts : List (List ℕ)) → T.took first teller.old reads text texts
        → T.took first teller.new (reads ++ read_of bytes.now now.0 ∷ []) (text ++ more) (texts ++ note ∷ [])))
        ((N.written notes.new ≡ N.written notes.old) × (N.faults notes.new ≡ N.faults notes.old))
        (K.written sink.old) (K.written sink.new) (K.faults sink.old) (K.faults sink.new) e) }
{
    let mut answer = TextOut::new(alloc);
    let mut told = TextOut::new(alloc);
    match teller.take(bytes, now, &mut answer, &mut told) {
        Ok(()) => write_both(&answer, &told, sink, notes),
        Err(_) => Err(StreamStop::NoMemory),
    }
}

/// Takes the end, tells of it, and writes the answer to it.
fn answer_end<T: Teller, K: Sink, N: Sink>(
    alloc: Global,
    teller: &mut T,
    sink: &mut K,
    notes: &mut N,
) -> Result<(), StreamStop>
    ensures answered { OnOk result ((more note : List ℕ) × Appends (K.written sink.old) (K.written sink.new) more
        × SaysTo N.Sink notes.old notes.new note
        × ((first : T) (reads : List Read) (text : List ℕ) (texts : List (List ℕ)) → T.took first teller.old reads text texts
        → T.ended first teller.new (T.over teller.old) reads (text ++ more) (texts ++ note ∷ []))) }
    ensures same { OnOk result (K.faults sink.new ≡ K.faults sink.old) }
    ensures err { IfErr result (λ e. WhyUnwritten
        (λ (more : List ℕ). (note : List ℕ) × SaysTo N.Sink notes.old notes.new note
        × ((first : T) (reads : List Read) (text : List ℕ) (texts : List (List ℕ)) → T.took first teller.old reads text texts
        → T.ended first teller.new (T.over teller.old) reads (text ++ more) (texts ++ note ∷ [])))
        ((N.written notes.new ≡ N.written notes.old) × (N.faults notes.new ≡ N.faults notes.old))
        (K.written sink.old) (K.written sink.new) (K.faults sink.old) (K.faults sink.new) e) }
{
    let mut answer = TextOut::new(alloc);
    let mut told = TextOut::new(alloc);
    match teller.end(&mut answer, &mut told) {
        Ok(()) => write_both(&answer, &told, sink, notes),
        Err(_) => Err(StreamStop::NoMemory),
    }
}

/// What is told goes to the notes, and the answer to the sink.
fn write_both<K: Sink, N: Sink>(
    answer: &TextOut,
    told: &TextOut,
    sink: &mut K,
    notes: &mut N,
) -> Result<(), StreamStop>
    ensures noted { SaysTo N.Sink notes.old notes.new told.now }
    ensures written { OnOk result (Appends (K.written sink.old) (K.written sink.new) answer.now) }
    ensures same { OnOk result (K.faults sink.new ≡ K.faults sink.old) }
    ensures err { IfErr result (λ e. (e ≡ WriteFault) × AppendsFront (K.written sink.old) (K.written sink.new) answer.now
        × Rose (K.faults sink.old) (K.faults sink.new)) }
{
    let _ = write_all(notes, told.bytes());
    match write_all(sink, answer.bytes()) {
        Ok(()) => Ok(()),
        Err(_) => Err(StreamStop::WriteFault),
    }
}

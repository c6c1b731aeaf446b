//! A KISS stream is taken in item by item, and each item is answered. Called by `tool_cmd` and `look_cmd`.
ghost use Rattle.std.specs.Prelude.{◌≡◌, ◌++◌, ◌≤◌, ◌<◌, [], List, ℕ, length, take, None, Some, OnOk, IfOk};
ghost use Rattle.kiss_framing.specs.Stream.{StandsFor, Item, items};
ghost use Rattle.kiss_framing.specs.Feeding.{handed_out};
ghost use Rattle.cmd_streams.specs.StatusNotes.{HasNote, IsSilent};
ghost use Rattle.cmd_streams.specs.StreamEnds.{StreamEnds};
ghost use Rattle.cmd_streams.specs.Streams.{bytes_of};
ghost use Rattle.cmd_streams.specs.Told.{told_by, Says};

use crate::status::Status;
use crate::streams::answer_stream;
use crate::taker::Taker;
use kiss_framing::{Deframer, KissItem};
use radio_base::{Clock, Moment, NoMemory, Sink, Source, TextOut};
use std::alloc::Global;

/// What takes the items of a KISS stream in, one after another, and answers each. No clock is asked.
pub trait ItemTaker {
    /// From the first value to the second it has taken these items, and answered them with this text.
    ghost took: { Self → Self → List Item → List ℕ → Type 0 };

    /// Takes one item more, and adds the answer.
    fn take_item(&mut self, item: &KissItem<'_>, answer: &mut TextOut) -> Result<(), NoMemory>
        ensures added { OnOk result ((more : List ℕ) × (answer.new ≡ answer.old ++ more)) }
        ensures takes { OnOk result ((first : Self) (before : List Item) (text more : List ℕ)
            → answer.new ≡ answer.old ++ more → took first self.old before text
            → took first self.new (before ++ handed_out (Some item.now)) (text ++ more)) };
}

/// Takes the bytes of a KISS stream in, and hands its items on.
#[derive(Drop)]
struct Deframed<T: ItemTaker + Drop> {
    deframer: Deframer,
    taker: T,
}

impl<T: ItemTaker + Drop> Taker for Deframed<T> {
    ghost use Rattle.std.specs.Prelude.{◌≡◌};
    ghost use Rattle.kiss_framing.specs.Stream.{StandsFor, items};
    ghost use Rattle.cmd_streams.specs.Streams.{bytes_of};

    ghost took = { λ first last reads text. StandsFor last.deframer (bytes_of reads)
        × T.took first.taker last.taker (items (bytes_of reads)) text };

    fn take(&mut self, bytes: &[u8], now: Moment, answer: &mut TextOut) -> Result<(), NoMemory> {
        let _ = now;
        take_items(bytes, &mut self.deframer, &mut self.taker, answer)?;
        Ok(())
    }
}

/// A clock that tells no time.
#[derive(Drop)]
struct NoClock;

impl Clock for NoClock {
    ghost use Rattle.std.specs.Prelude.{None};

    ghost given = { λ _. None };

    ghost least = { λ _. 0 };

    fn now(&mut self) -> Moment {
        Moment(0)
    }
}

/// Takes the items that these bytes end.
fn take_items<T: ItemTaker>(
    bytes: &[u8],
    deframer: &mut Deframer,
    taker: &mut T,
    answer: &mut TextOut,
) -> Result<(), NoMemory>
    ensures fed { OnOk result ((stream : List ℕ) → StandsFor deframer.old stream
        → StandsFor deframer.new (stream ++ bytes.now)) }
    ensures takes { OnOk result ((stream : List ℕ) → StandsFor deframer.old stream → (first : T) (text more : List ℕ)
        → answer.new ≡ answer.old ++ more → T.took first taker.old (items stream) text
        → T.took first taker.new (items (stream ++ bytes.now)) (text ++ more)) }
    ensures added { OnOk result ((more : List ℕ) × (answer.new ≡ answer.old ++ more)) }
{
    let mut taken = 0;
    while taken < bytes.len() {
        taken += take_next(&bytes[taken..], deframer, taker, answer)?;
    }
    Ok(())
}

/// Takes in bytes up to the first that ends an item and takes that item, or takes in all where none does.
/// Answers with how many it took in.
fn take_next<T: ItemTaker>(
    bytes: &[u8],
    deframer: &mut Deframer,
    taker: &mut T,
    answer: &mut TextOut,
) -> Result<usize, NoMemory>
    ensures fed { IfOk result (λ count. (stream : List ℕ) → StandsFor deframer.old stream
        → StandsFor deframer.new (stream ++ take count bytes.now)) }
    ensures takes { IfOk result (λ count. (stream : List ℕ) → StandsFor deframer.old stream
        → (first : T) (text more : List ℕ) → answer.new ≡ answer.old ++ more
        → T.took first taker.old (items stream) text
        → T.took first taker.new (items (stream ++ take count bytes.now)) (text ++ more)) }
    ensures added { OnOk result ((more : List ℕ) × (answer.new ≡ answer.old ++ more)) }
    ensures within { IfOk result (λ count. count ≤ length bytes.now) }
    ensures moves { IfOk result (λ count. 0 < length bytes.now → 0 < count) }
{
    let (count, item) = deframer.feed_until_item(bytes);
    match item {
        Some(item) => {
            taker.take_item(&item, answer)?;
            Ok(count)
        }
        None => Ok(count),
    }
}

/// Reads a KISS stream to its end, at most as many bytes at a time as the buffer has, and writes the answer to the items of each read
/// before the next.
///
/// The status says how it ended, and where the input was refused the notes say why.
pub fn answer_items<T: ItemTaker + Drop, S: Source, K: Sink, N: Sink>(
    alloc: Global,
    buf: &mut [u8],
    taker: T,
    source: &mut S,
    sink: &mut K,
    notes: &mut N,
) -> Status
    requires room { 0 < length buf.old }
    requires start { T.took taker taker [] [] }

    // How it ends: what was written is what the taker answered, and each status has its reason.
    ensures ends { StreamEnds (length buf.old)
        (λ reads text. (last : T) × T.took taker last (items (bytes_of reads)) text) None None
        (told_by S.Source K.Sink N.Sink source.old sink.old notes.old)
        (told_by S.Source K.Sink N.Sink source.new sink.new notes.new) result }

    // Nothing else is noted.
    ensures noted { HasNote result (Says (N.written notes.old) (N.written notes.new)
        (N.faults notes.old) (N.faults notes.new)) }
    ensures silent { IsSilent result → notes.new ≡ notes.old }
{
    let mut deframed = Deframed {
        deframer: Deframer::new(),
        taker,
    };
    answer_stream(alloc, buf, &mut deframed, source, sink, notes, &mut NoClock)
}

//! The command `listen`. Called by `top`.
ghost use Rattle.std.specs.Prelude.{◌≡◌};
ghost use Rattle.cmd_streams.specs.StatusNotes.{HasNote, IsSilent};
ghost use Rattle.cmd_streams.specs.Told.{SaysTo, told_by};
ghost use Rattle.look_cmd.specs.Look.{ListenEnds};

use cmd_streams::{ItemTaker, Status, answer_items};
use frame_lines::Listener;
use kiss_framing::KissItem;
use radio_base::{LinkModulus, NoMemory, Sink, Source, TextOut};
use std::alloc::Global;

/// The most bytes that are read at a time.
const READ_SIZE: usize = 16_384;

/// Listens to the items of a stream.
#[derive(Drop)]
struct Hearer {
    listener: Listener,
}

impl ItemTaker for Hearer {
    ghost use Rattle.std.specs.Prelude.{◌≡◌};
    ghost use Rattle.frame_lines.specs.Hearing.{by_items};

    ghost took = { λ first last items text. by_items first.listener items ≡ (last.listener, text) };

    fn take_item(&mut self, item: &KissItem<'_>, answer: &mut TextOut) -> Result<(), NoMemory> {
        self.listener.hear(item, answer)?;
        Ok(())
    }
}

/// Tells what a KISS stream carries, read from the source to its end: the lines of each read are written before the next read.
///
/// The status says how it ended, and where the input was refused the notes say why.
pub(crate) fn listen_to_stream<S: Source, K: Sink, N: Sink>(
    alloc: Global,
    modulus: Option<LinkModulus>,
    source: &mut S,
    sink: &mut K,
    notes: &mut N,
) -> Status
    // How it ends: the lines written are those of the stream, and each status has its reason.
    ensures ends { ListenEnds modulus
        (told_by S.Source K.Sink N.Sink source.old sink.old notes.old)
        (told_by S.Source K.Sink N.Sink source.new sink.new notes.new) result }

    // Nothing else is noted.
    ensures noted { HasNote result (SaysTo N.Sink notes.old notes.new) }
    ensures silent { IsSilent result → notes.new ≡ notes.old }
{
    let mut buf = [0u8; READ_SIZE];
    let listener = Listener::new(alloc, modulus);
    answer_items(alloc, &mut buf, Hearer { listener }, source, sink, notes)
}

//! The command `frames`. Called by `node_cmd`.
ghost use Rattle.std.specs.Prelude.{◌≡◌};
ghost use Rattle.cmd_streams.specs.Told.{SaysTo, told_by};
ghost use Rattle.cmd_streams.specs.StatusNotes.{HasNote, IsSilent};
ghost use Rattle.tool_cmd.specs.Run.{FramesEnd};
ghost use Rattle.radio_base.specs.Modulus.{modulus_size};

use cmd_streams::{ItemTaker, Status, answer_items};
use frame_lines::add_item;
use kiss_framing::KissItem;
use radio_base::{LinkModulus, M8, M128, NoMemory, Sink, Source, TextOut};
use std::alloc::Global;

/// The most bytes that are read at a time.
const READ_SIZE: usize = 16_384;

/// Lists the frames of a stream.
#[derive(Drop)]
struct Lister {
    modulus: LinkModulus,
}

impl ItemTaker for Lister {
    ghost use Rattle.std.specs.Prelude.{◌≡◌};
    ghost use Rattle.frame_lines.specs.Listing.{Lists};
    ghost use Rattle.radio_base.specs.Modulus.{modulus_size};

    ghost took = { λ first last items text. (last.modulus ≡ first.modulus) × Lists (modulus_size first.modulus) items text };

    fn take_item(&mut self, item: &KissItem<'_>, answer: &mut TextOut) -> Result<(), NoMemory> {
        match self.modulus {
            LinkModulus::Modulo8 => add_item::<M8>(item, answer)?,
            LinkModulus::Modulo128 => add_item::<M128>(item, answer)?,
        }
        Ok(())
    }
}

/// Lists the frames of a KISS stream, read from the source to its end: the lines of each read are written before the next read.
///
/// The status says how it ended, and where the input was refused the notes say why.
pub fn frames_of_stream<S: Source, K: Sink, N: Sink>(
    alloc: Global,
    modulus: LinkModulus,
    source: &mut S,
    sink: &mut K,
    notes: &mut N,
) -> Status
    // How it ends: the lines written are those of the stream, and each status has its reason.
    ensures ends { FramesEnd (modulus_size modulus)
        (told_by S.Source K.Sink N.Sink source.old sink.old notes.old)
        (told_by S.Source K.Sink N.Sink source.new sink.new notes.new) result }

    // Nothing else is noted.
    ensures noted { HasNote result (SaysTo N.Sink notes.old notes.new) }
    ensures silent { IsSilent result → notes.new ≡ notes.old }
{
    let mut buf = [0u8; READ_SIZE];
    answer_items(alloc, &mut buf, Lister { modulus }, source, sink, notes)
}

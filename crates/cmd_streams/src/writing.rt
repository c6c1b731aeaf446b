//! All of a text is written, piece by piece, and a sink over any writer. Called by `notes`, `program` and `streams`, and by `tool_cmd`,
//! `node_cmd` and `look_cmd`.
ghost use Rattle.std.specs.Prelude.{◌≡◌, OnOk, OnErr};
ghost use Rattle.std.specs.Io.KnownBytes.{Appends};
ghost use Rattle.radio_base.specs.Causes.{Rose};
ghost use Rattle.cmd_streams.specs.Told.{AppendsFront};

use radio_base::{Failed, Sink};
use std::io::Write;

/// A sink over any writer. It tells of the bytes that were written what the writer tells. An error of the writer is a fault, and so is a
/// write of no bytes of a piece.
#[derive(Drop)]
pub struct Writing<W: Write + Drop> {
    writer: W,
    faults: u64,
}

impl<W: Write + Drop> Writing<W> {
    pub fn new(writer: W) -> Self
        ensures writer { result.writer ≡ writer }
        ensures faults { result.faults ≡ 0 }
    {
        Writing { writer, faults: 0 }
    }

    /// How many writes have failed.
    pub fn faults(&self) -> u64
        ensures { result ≡ self.now.faults }
    {
        self.faults
    }
}

impl<W: Write + Drop> Sink for Writing<W> {
    ghost written = { λ s. W.contents s.writer };

    ghost faults = { λ s. s.faults };

    fn write(&mut self, piece: &[u8]) -> Result<usize, Failed> {
        if piece.is_empty() {
            return Ok(0);
        }
        match self.writer.write(piece) {
            Ok(count) if count > 0 => Ok(count),
            _ => {
                self.faults = self.faults.saturating_add(1);
                Err(Failed)
            }
        }
    }
}

/// Writes the whole text.
pub fn write_all<K: Sink>(sink: &mut K, text: &[u8]) -> Result<(), Failed>
    ensures all { OnOk result (Appends (K.written sink.old) (K.written sink.new) text.now) }
    ensures same { OnOk result (K.faults sink.new ≡ K.faults sink.old) }
    ensures front { OnErr result (AppendsFront (K.written sink.old) (K.written sink.new) text.now) }
    ensures cause { OnErr result (Rose (K.faults sink.old) (K.faults sink.new)) }
{
    let mut rest = text;
    while !rest.is_empty() {
        let count = sink.write(rest)?;
        rest = &rest[count..];
    }
    Ok(())
}

//! The command `life`. Called by `node_cmd`.
ghost use Rattle.std.specs.Prelude.{◌≡◌, ◌≢◌, ◌≤◌, length, Ok, Err, IfOk, IfErr};
ghost use Rattle.link_life.specs.Lines.{ReadAs, script_of};
ghost use Rattle.tool_cmd.specs.Lives.{IsScript, report_of};
ghost use Rattle.cmd_streams.specs.Reading.{max_file};
ghost use Rattle.tool_cmd.specs.Run.{LifeEnds};
ghost use Rattle.cmd_streams.specs.StatusNotes.{HasNote, IsSilent};
ghost use Rattle.cmd_streams.specs.Told.{SaysTo, told_by};

pub mod settings;

use cmd_streams::{Status, read_file, refuse_input, refuse_line, write_all};
use link_life::{LifeFileRefusal, LifeScript, read_life, run_life};
use radio_base::{LinkModulus, M8, M128, NoMemory, Sink, Source, TextOut};
use settings::LifeSettings;
use std::alloc::Global;

/// Reads a script from the source to its end, and writes the report of that life to the sink.
///
/// The status says how it ended, and where the input or a line was refused the notes say why.
pub fn life_of_file<S: Source, K: Sink, N: Sink>(
    alloc: Global,
    settings: LifeSettings,
    source: &mut S,
    sink: &mut K,
    notes: &mut N,
) -> Status
    // How it ends: the report is that of the script's life, and each status has its reason.
    ensures ends { LifeEnds settings
        (told_by S.Source K.Sink N.Sink source.old sink.old notes.old)
        (told_by S.Source K.Sink N.Sink source.new sink.new notes.new) result }

    // What isn't said above to be written isn't, and nothing else is noted.
    ensures unwritten { result ≢ Status.Done → result ≢ Status.WriteFault → sink.new ≡ sink.old }
    ensures noted { HasNote result (SaysTo N.Sink notes.old notes.new) }
    ensures silent { IsSilent result → notes.new ≡ notes.old }
{
    let bytes = match read_file(alloc, source) {
        Ok(bytes) => bytes,
        Err(why) => return refuse_input(why, notes),
    };
    let text = match report_of_file(alloc, &bytes, settings) {
        Ok(text) => text,
        Err(LifeFileRefusal::BadLine { line, what }) => {
            return refuse_line(alloc, line, what, notes);
        }
        Err(LifeFileRefusal::NoMemory) => return Status::NoMemory,
    };
    match write_all(sink, text.bytes()) {
        Ok(()) => Status::Done,
        Err(_) => Status::WriteFault,
    }
}

/// The report of the life of the script that a file spells.
fn report_of_file(
    alloc: Global,
    bytes: &[u8],
    settings: LifeSettings,
) -> Result<TextOut, LifeFileRefusal>
    requires { length bytes.now ≤ max_file }
    ensures ok { IfOk result (λ text. IsScript bytes.now (λ acts. text ≡ report_of settings acts)) }
    ensures err { IfErr result (λ e. ReadAs e (script_of bytes.now)) }
{
    let script = read_life(alloc, bytes)?;
    match report_of(alloc, &script, settings) {
        Ok(text) => Ok(text),
        Err(_) => Err(LifeFileRefusal::NoMemory),
    }
}

fn report_of(
    alloc: Global,
    script: &LifeScript<'_>,
    settings: LifeSettings,
) -> Result<TextOut, NoMemory>
    ensures { IfOk result (λ text. text ≡ report_of settings script.now) }
{
    let LifeSettings {
        modulus,
        srej,
        delay,
    } = settings;
    let mut text = TextOut::new(alloc);
    match modulus {
        LinkModulus::Modulo8 => run_life::<M8>(alloc, script, srej, delay, &mut text)?,
        LinkModulus::Modulo128 => run_life::<M128>(alloc, script, srej, delay, &mut text)?,
    }
    Ok(text)
}

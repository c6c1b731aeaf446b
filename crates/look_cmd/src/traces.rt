//! The command `trace`. Called by `top`.
ghost use Rattle.std.specs.Prelude.{◌≡◌, ◌≤◌, length, Ok, IfOk, IfErr};
ghost use Rattle.cmd_streams.specs.Reading.{max_file};
ghost use Rattle.cmd_streams.specs.StatusNotes.{HasNote, IsSilent};
ghost use Rattle.cmd_streams.specs.Told.{SaysTo, output_by, told_by, UnlessItWrote};
ghost use Rattle.network_file.specs.Networks.{network_of};
ghost use Rattle.network_file.specs.Plan.{Plan};
ghost use Rattle.net_model.specs.World.{most_frames};
ghost use Rattle.net_verdict.specs.Causes.{IsCauseOf};
ghost use Rattle.net_model.specs.Circuits.{IsVerdictOn, IsNetwork};
ghost use Rattle.net_model.specs.Lines.{world};
ghost use Rattle.net_model.specs.Traces.{left_of};
ghost use Rattle.look_cmd.specs.Look.{TraceEnds};
ghost use Rattle.look_cmd.specs.Traced.{IfTraceOf, IsTraced, NotTraced, TracedEnds};

use circuit_verdict::Late;
use cmd_streams::{Status, TOO_LONG, read_file, refuse_input, refuse_line, say, write_all};
use net_model::{ReplayRefusal, Trace};
use net_verdict::{LateCause, late_cause, too_late};
use net_world::replay;
use network_file::{Network, NetworkRefusal, What, read_network};
use radio_base::{NoMemory, Sink, Source, TextOut};
use std::alloc::Global;
use trace_lines::{TraceVerdict, trace_text};

/// Why there is nothing to write.
#[derive(Clone, Copy, Debug, PartialEq, Eq)]
enum TraceRefusal {
    /// The first bad line, counted from 1.
    BadLine { line: u32, what: What },
    /// A frame would be put in the air after the last that may be there.
    TooManyFrames,
    NoMemory,
}

impl From<NoMemory> for TraceRefusal {
    ghost use Rattle.std.specs.Prelude.{◌≡◌};
    ghost use Rattle.look_cmd.specs.declared.traces.TraceRefusal.TheVariants as refusals;

    ghost from_gives = { λ _ e. e ≡ refusals.NoMemory };

    fn from(_: NoMemory) -> Self {
        TraceRefusal::NoMemory
    }
}

/// What is written of a network, with the verdict on it.
#[derive(Drop)]
struct Traced {
    late: Option<Late>,
    text: TextOut,
}

/// Reads a network file from the source to its end, and writes the trace of that network to the sink.
///
/// The status says how it ended, and where the input or a line was refused the notes say why.
pub(crate) fn trace_file<S: Source, K: Sink, N: Sink>(
    alloc: Global,
    source: &mut S,
    sink: &mut K,
    notes: &mut N,
) -> Status
    // How it ends: the trace is that of the file, and each status has its reason.
    ensures ends { TraceEnds
        (told_by S.Source K.Sink N.Sink source.old sink.old notes.old)
        (told_by S.Source K.Sink N.Sink source.new sink.new notes.new) result }

    // What isn't said above to be written isn't, and nothing else is noted.
    ensures unwritten { UnlessItWrote result (sink.new ≡ sink.old) }
    ensures noted { HasNote result (SaysTo N.Sink notes.old notes.new) }
    ensures silent { IsSilent result → notes.new ≡ notes.old }
{
    match read_file(alloc, source) {
        Ok(bytes) => print_trace(alloc, &bytes, sink, notes),
        Err(why) => refuse_input(why, notes),
    }
}

/// Writes the trace of the network that a file spells.
fn print_trace<K: Sink, N: Sink>(alloc: Global, bytes: &[u8], sink: &mut K, notes: &mut N) -> Status
    requires { length bytes.now ≤ max_file }
    ensures ends { TracedEnds bytes.now
        (output_by K.Sink N.Sink sink.old notes.old)
        (output_by K.Sink N.Sink sink.new notes.new) result }
    ensures unwritten { UnlessItWrote result (sink.new ≡ sink.old) }
    ensures noted { HasNote result (SaysTo N.Sink notes.old notes.new) }
    ensures silent { IsSilent result → notes.new ≡ notes.old }
{
    let Traced { late, text } = match traced_file(alloc, bytes) {
        Ok(traced) => traced,
        Err(TraceRefusal::BadLine { line, what }) => {
            return refuse_line(alloc, line, what, notes);
        }
        Err(TraceRefusal::TooManyFrames) => {
            say(notes, TOO_LONG);
            return Status::TooLong;
        }
        Err(TraceRefusal::NoMemory) => return Status::NoMemory,
    };
    match write_all(sink, text.bytes()) {
        Ok(()) => match late {
            None => Status::Done,
            Some(_) => Status::TooLate,
        },
        Err(_) => Status::WriteFault,
    }
}

/// The trace of the network that a file spells.
fn traced_file(alloc: Global, bytes: &[u8]) -> Result<Traced, TraceRefusal>
    requires { length bytes.now ≤ max_file }
    ensures ok { IfOk result (λ t. IsNetwork bytes.now (IsTraced bytes.now t.text t.late)) }
    ensures err { IfErr result (λ e. NotTraced e (network_of bytes.now)) }
{
    match read_network(alloc, bytes) {
        Ok(network) => traced_network(alloc, bytes, &network),
        Err(NetworkRefusal::BadLine { line, what }) => Err(TraceRefusal::BadLine { line, what }),
        Err(NetworkRefusal::NoMemory) => Err(TraceRefusal::NoMemory),
    }
}

fn traced_network(alloc: Global, bytes: &[u8], network: &Network) -> Result<Traced, TraceRefusal>
    ensures ok { IfOk result (λ t. IsTraced bytes.now t.text t.late network.now) }
    ensures err { IfErr result (λ e. NotTraced e (Ok network.now)) }
{
    match replay(alloc, network) {
        Ok(trace) => {
            let traced = traced_trace(alloc, bytes, network, &trace)?;
            Ok(traced)
        }
        Err(ReplayRefusal::FramesFull) => Err(TraceRefusal::TooManyFrames),
        Err(ReplayRefusal::NoMemory) => Err(TraceRefusal::NoMemory),
    }
}

fn traced_trace(
    alloc: Global,
    bytes: &[u8],
    network: &Network,
    trace: &Trace,
) -> Result<Traced, NoMemory>
    ensures { IfOk result (λ t. IfTraceOf trace.now network.now
        (length (left_of trace.now).air ≤ most_frames → IsTraced bytes.now t.text t.late network.now)) }
{
    let late = too_late(alloc, trace)?;
    let cause = cause_of(alloc, trace, late)?;
    let text = trace_text(alloc, bytes, network, trace, TraceVerdict { late, cause })?;
    Ok(Traced { late, text })
}

/// The cause of a verdict, where something came too late.
fn cause_of(alloc: Global, trace: &Trace, late: Option<Late>) -> Result<Option<LateCause>, NoMemory>
    ensures { IfOk result (λ cause. (plan : Plan) → IfTraceOf trace.now plan
        (IsVerdictOn plan (world plan) late → IsCauseOf plan (world plan) late cause)) }
{
    match late {
        Some(_) => late_cause(alloc, trace),
        None => Ok(None),
    }
}

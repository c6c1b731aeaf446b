//! The text of the trace of a network. Called by `look_cmd`.
ghost use Rattle.std.specs.Prelude.{◌≡◌, ◌++◌, OnOk, OnErr, IfOk};
ghost use Rattle.net_model.specs.Standing.{IsTraceOf};
ghost use Rattle.net_model.specs.Traces.{left_of};
ghost use Rattle.net_model.specs.World.{World};
ghost use Rattle.trace_lines.specs.Texts as texts;

use crate::causes::{write_cause, write_verdict};
use crate::events::write_events;
use crate::heads::{write_lines, write_network};
use crate::left::write_nodes;
use crate::lines::Lines;
use crate::marks::repeat_marks;
use circuit_verdict::Late;
use net_model::Trace;
use net_verdict::LateCause;
use network_file::Network;
use radio_base::{NoMemory, TextOut};
use std::alloc::Global;

/// The verdict on a trace, and where something came too late its cause.
#[derive(Clone, Copy, Debug, PartialEq, Eq)]
pub struct TraceVerdict {
    pub late: Option<Late>,
    pub cause: Option<LateCause>,
}

/// The text of a trace: the network that was read, the lines of its file, all events, each node as it was left, and the verdict with its
/// cause.
pub fn trace_text(
    alloc: Global,
    file: &[u8],
    network: &Network,
    trace: &Trace,
    verdict: TraceVerdict,
) -> Result<TextOut, NoMemory>
    ensures { IfOk result (λ out. (w : World) → IsTraceOf (left_of trace.now) w
        → out ≡ texts.trace_text file.now network.now w verdict.late verdict.cause) }
{
    let mut out = Lines::new(alloc);
    write_network(network, &mut out)?;
    write_lines(file, &mut out)?;
    let marks = repeat_marks(alloc, network.instructions())?;
    write_events(&marks, trace.frames(), trace.events(), &mut out)?;
    write_nodes(trace, trace.members(), &mut out)?;
    write_verdict(verdict.late, &mut out)?;
    write_cause(verdict.cause, &mut out)?;
    Ok(out.into_text())
}

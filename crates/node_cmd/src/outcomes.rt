//! What comes of a network: its run, the verdict on it, and the text that is written of it. Called by `replays` and `soaks`.
ghost use Rattle.std.specs.Prelude.{◌≡◌, ◌≢◌, ◌≤◌, ◌++◌, length, None, Ok, OnOk, IfOk, IfErr};
ghost use Rattle.network_file.specs.Networks.{network_of};
ghost use Rattle.network_file.specs.Plan.{Plan};
ghost use Rattle.net_model.specs.SoundPlans.{IsSound};
ghost use Rattle.net_laws.specs.Promises.{MailOnceThroughout, RetriesAreTold, SafeThroughout};
ghost use Rattle.net_model.specs.Standing.{IsTraceOf};
ghost use Rattle.net_model.specs.Traces.{left_of};
ghost use Rattle.net_model.specs.World.{World};
ghost use Rattle.node_cmd.specs.Outcomes.{IfReplayed, IsOutcome, NetworkEnds, NotReported, text_of};
ghost use Rattle.cmd_streams.specs.Reading.{max_file};
ghost use Rattle.cmd_streams.specs.StatusNotes.{HasNote, IsSilent};
ghost use Rattle.cmd_streams.specs.Told.{SaysTo, output_by, UnlessItWrote};
ghost use Rattle.node_cmd.specs.declared.report_refusal.ReportRefusal.TheVariants as Refusal;
ghost use Rattle.node_cmd.specs.declared.ran.Ran.TheVariants as rans;

use crate::ran::Ran;
use crate::report_refusal::ReportRefusal;
use cmd_streams::{Status, TOO_LONG, refuse_line, say, write_all};
use net_replay::{
    Late, Network, NetworkRefusal, ReplayRefusal, Trace, read_network, replay, report, soak_line,
    too_late,
};
use radio_base::{NoMemory, Sink, TextOut};
use std::alloc::Global;

/// What is written of a network.
#[derive(Clone, Copy, Debug, PartialEq, Eq)]
pub enum Printed {
    /// Its report.
    Report,
    /// The line on the soak of that number.
    SoakLine { seed: u64 },
}

/// What came of a network: what ran, the verdict on it, and what is written of it.
#[derive(Drop)]
pub struct NetworkOutcome {
    pub trace: Trace,
    pub late: Option<Late>,
    pub text: TextOut,
}

/// Writes what is asked for of the network that a file spells, and leaves what ran.
pub(crate) fn print_network<K: Sink, N: Sink>(
    alloc: Global,
    bytes: &[u8],
    what: Printed,
    sink: &mut K,
    notes: &mut N,
    ran: &mut Ran,
) -> Status
    requires short { length bytes.now ≤ max_file }
    requires nothing { ran.old ≡ rans.Nothing }

    // How it ends: the text is that of the file's network, and each status has its reason.
    ensures ends { NetworkEnds what bytes.now
        (output_by K.Sink N.Sink sink.old notes.old)
        (output_by K.Sink N.Sink sink.new notes.new) ran.new result }

    // What isn't said above to be written or left isn't, and nothing else is noted.
    ensures unwritten { UnlessItWrote result (sink.new ≡ sink.old) }
    ensures nothing { result ≢ Status.Done → result ≢ Status.TooLate → ran.new ≡ ran.old }
    ensures noted { HasNote result (SaysTo N.Sink notes.old notes.new) }
    ensures silent { IsSilent result → notes.new ≡ notes.old }
{
    let NetworkOutcome { trace, late, text } = match outcome_of(alloc, bytes, what) {
        Ok(outcome) => outcome,
        Err(ReportRefusal::BadLine { line, what }) => {
            return refuse_line(alloc, line, what, notes);
        }
        Err(ReportRefusal::TooManyFrames) => {
            say(notes, TOO_LONG);
            return Status::TooLong;
        }
        Err(ReportRefusal::NoMemory) => return Status::NoMemory,
    };
    match write_all(sink, text.bytes()) {
        Ok(()) => {
            *ran = Ran::Replayed(trace);
            match late {
                None => Status::Done,
                Some(_) => Status::TooLate,
            }
        }
        Err(_) => Status::WriteFault,
    }
}

/// What comes of the network that a file spells.
fn outcome_of(alloc: Global, bytes: &[u8], what: Printed) -> Result<NetworkOutcome, ReportRefusal>
    requires { length bytes.now ≤ max_file }
    ensures ok { IfOk result (λ o. (network : Plan) × (network_of bytes.now ≡ Ok network) × IsOutcome what o network
        × RetriesAreTold network × (o.late ≡ None → SafeThroughout network × MailOnceThroughout network)) }
    ensures err { IfErr result (λ e. NotReported e (network_of bytes.now)) }
{
    net_replay::laws::in_time_is_safe();
    net_replay::laws::mail_in_time();
    net_replay::laws::retries_are_told();
    match read_network(alloc, bytes) {
        Ok(network) => outcome_of_network(alloc, &network, what),
        Err(NetworkRefusal::BadLine { line, what }) => Err(ReportRefusal::BadLine { line, what }),
        Err(NetworkRefusal::NoMemory) => Err(ReportRefusal::NoMemory),
    }
}

fn outcome_of_network(
    alloc: Global,
    network: &Network,
    what: Printed,
) -> Result<NetworkOutcome, ReportRefusal>
    ensures ok { IfOk result (λ o. IsOutcome what o network.now × IsSound network.now) }
    ensures err { IfErr result (λ e. NotReported e (Ok network.now)) }
{
    match replay(alloc, network) {
        Ok(trace) => outcome_of_trace(alloc, trace, what),
        Err(ReplayRefusal::FramesFull) => Err(ReportRefusal::TooManyFrames),
        Err(ReplayRefusal::NoMemory) => Err(ReportRefusal::NoMemory),
    }
}

fn outcome_of_trace(
    alloc: Global,
    trace: Trace,
    what: Printed,
) -> Result<NetworkOutcome, ReportRefusal>
    ensures ok { IfOk result (λ o. (plan : Plan) → IfReplayed trace plan (IsOutcome what o plan)) }
    ensures err { IfErr result (λ e. e ≡ Refusal.NoMemory) }
{
    let late = match too_late(alloc, &trace) {
        Ok(late) => late,
        Err(_) => return Err(ReportRefusal::NoMemory),
    };
    let mut text = TextOut::new(alloc);
    match write_text(alloc, what, &trace, late, &mut text) {
        Ok(()) => Ok(NetworkOutcome { trace, late, text }),
        Err(_) => Err(ReportRefusal::NoMemory),
    }
}

/// Appends what is asked for, with the verdict on it.
fn write_text(
    alloc: Global,
    what: Printed,
    trace: &Trace,
    late: Option<Late>,
    text: &mut TextOut,
) -> Result<(), NoMemory>
    ensures { OnOk result ((w : World) → IsTraceOf (left_of trace.now) w → text.new ≡ text.old ++ text_of what w late) }
{
    match what {
        Printed::Report => report(alloc, trace, late, text),
        Printed::SoakLine { seed } => soak_line(alloc, seed, trace, late, text),
    }
}

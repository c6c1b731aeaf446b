//! The command `soak`. Called by `top`.
ghost use Rattle.std.specs.Prelude.{◌≡◌, ◌≢◌};
ghost use Rattle.cmd_streams.specs.Told.{SaysTo, output_by, UnlessItWrote};
ghost use Rattle.cmd_streams.specs.StatusNotes.{HasNote, IsSilent};
ghost use Rattle.node_cmd.specs.Run.{SoakEnds};
ghost use Rattle.node_cmd.specs.declared.ran.Ran.TheVariants as rans;

use crate::outcomes::{Printed, print_network};
use crate::ran::Ran;
use cmd_streams::Status;
use net_replay::soak_file;
use radio_base::Sink;
use std::alloc::Global;

/// Runs the network that a number is made to, writes the line on it to the sink, and leaves what ran. Nothing is read.
pub(crate) fn soak<K: Sink, N: Sink>(
    alloc: Global,
    seed: u64,
    sink: &mut K,
    notes: &mut N,
    ran: &mut Ran,
) -> Status
    requires { ran.old ≡ rans.Nothing }

    // How it ends: the line is that of the number's network, and each status has its reason.
    ensures ends { SoakEnds seed
        (output_by K.Sink N.Sink sink.old notes.old)
        (output_by K.Sink N.Sink sink.new notes.new) ran.new result }

    // What isn't said above to be written or left isn't, and nothing else is noted.
    ensures unwritten { UnlessItWrote result (sink.new ≡ sink.old) }
    ensures nothing { result ≢ Status.Done → result ≢ Status.TooLate → ran.new ≡ ran.old }
    ensures noted { HasNote result (SaysTo N.Sink notes.old notes.new) }
    ensures silent { IsSilent result → notes.new ≡ notes.old }
{
    network_soak::laws::soak_files_are_networks();
    match soak_file(alloc, seed) {
        Ok(bytes) => print_network(alloc, &bytes, Printed::SoakLine { seed }, sink, notes, ran),
        Err(_) => Status::NoMemory,
    }
}

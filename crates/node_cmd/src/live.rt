//! The command `node`: a live node, which reads KISS bytes and writes its frames. Called by `top`.
ghost use Rattle.std.specs.Prelude.{◌≡◌, ◌≢◌, ◌++◌, ◌≤◌, List, ℕ, false, length, OnOk};
ghost use Rattle.node_core.specs.Bounds.{IsWithin};
ghost use Rattle.node_core.specs.Fetching.{without_entries, without_frames};
ghost use Rattle.node_core.specs.Standing.{NodeGoes};
ghost use Rattle.node_cmd.specs.Live as live;
ghost use Rattle.node_cmd.specs.Run.{NodeEnds};
ghost use Rattle.cmd_streams.specs.StatusNotes.{HasNote, IsSilent};
ghost use Rattle.cmd_streams.specs.Told.{SaysTo, told_by};
ghost use Rattle.node_cmd.specs.declared.ran.Ran.TheVariants as rans;

use crate::ran::Ran;
use crate::starting::live_node;
use arrayvec::ArrayVec;
use cmd_streams::{Status, Taker, answer_stream, put_data};
use link_table::Written;
use network_file::LiveNode;
use node_core::Node;
use radio_base::{Clock, Moment, NoMemory, Sink, Source, TextOut};
use std::alloc::Global;
use std::marker::Model;

/// The most bytes that are read at a time.
const READ_SIZE: usize = 4_096;

/// Room for a frame as KISS bytes: at most 1,024 bytes with the type byte, each of which may be escaped, between two FENDs.
type KissBytes = ArrayVec<u8, 2050>;

/// A node that lives on the reads of a stream. It is that node and nothing else, as `inverse` says: what it keeps is what the node keeps.
#[derive(Drop)]
struct Living {
    node: Node,
}

impl Model for Living {
    ghost use Rattle.std.specs.Coded.{codes};
    ghost use Rattle.node_core.specs.contracts.node.Node.{the_row as node_row};
    ghost use Rattle.node_core.specs.Standing.{Kept};

    ghost Value = { Kept };

    ghost coded = { Prim.hlevel (codes, node_row.coded) };

    ghost view = { λ living. living.node };

    ghost inverse = { λ node. record { node = node } };
}

impl Taker for Living {
    ghost use Rattle.node_cmd.specs.Live.{LivesThrough};

    ghost took = { LivesThrough };

    fn take(&mut self, bytes: &[u8], now: Moment, answer: &mut TextOut) -> Result<(), NoMemory> {
        self.node.kiss_bytes(bytes, now)?;
        self.node.tick(now)?;
        add_frames(&mut self.node, answer)?;
        drop_entries(&mut self.node);
        Ok(())
    }
}

/// Fetches all frames of the node, and adds them as KISS bytes.
fn add_frames(node: &mut Node, text: &mut TextOut) -> Result<(), NoMemory>
    ensures goes { OnOk result (NodeGoes (λ n. record n { station = without_frames n.station }) node.old node.new) }
    ensures added { OnOk result (live.AddsFrames node.old text.old text.new) }
    ensures grows { OnOk result ((more : List ℕ) × (text.new ≡ text.old ++ more)) }
{
    node_core::laws::fetching_empties();
    let mut bytes = KissBytes::new();
    while let Some(frame) = node.next_frame() {
        add_frame(&frame, &mut bytes, text)?;
    }
    Ok(())
}

/// Adds a frame as KISS bytes: data on port 0. The same room serves one frame after another.
fn add_frame(frame: &Written, bytes: &mut KissBytes, text: &mut TextOut) -> Result<(), NoMemory>
    ensures { OnOk result (text.new ≡ text.old ++ live.kiss_of_frame frame.now) }
{
    put_data(frame.octets.as_slice(), bytes);
    text.octets(bytes.as_slice())
}

/// Fetches all that the node has to tell. Nobody reads it.
fn drop_entries(node: &mut Node)
    ensures goes { NodeGoes (λ n. record n { station = without_entries n.station }) node.old node.new }
    ensures kept { node.new.spent ≡ false → IsWithin node.new }
{
    node_core::laws::fetching_empties();
    while let Some(_entry) = node.trace_entry() {}
}

/// Runs a node on a stream of KISS bytes: each read that gives bytes brings it these and then a tick, both at the moment behind the
/// read, and its frames are written before the next read. Where the stream was read to its end the node is left in `ran`.
///
/// The status says how it ended, and where the input was refused the notes say why.
pub(crate) fn run_node<S: Source, K: Sink, N: Sink, C: Clock>(
    alloc: Global,
    declared: &LiveNode,
    source: &mut S,
    sink: &mut K,
    notes: &mut N,
    clock: &mut C,
    ran: &mut Ran,
) -> Status
    requires { ran.old ≡ rans.Nothing }

    // How it ends: the bytes written are the frames of the node's machine, and each status has its reason.
    ensures ends { NodeEnds declared.now (C.given clock.old) (C.given clock.new)
        (told_by S.Source K.Sink N.Sink source.old sink.old notes.old)
        (told_by S.Source K.Sink N.Sink source.new sink.new notes.new)
        ran.new result }

    // What isn't said above to be left isn't, and nothing else is noted.
    ensures nothing { result ≢ Status.Done → ran.new ≡ ran.old }
    ensures noted { HasNote result (SaysTo N.Sink notes.old notes.new) }
    ensures silent { IsSilent result → notes.new ≡ notes.old }
{
    let node = match live_node(alloc, declared) {
        Ok(node) => node,
        Err(_) => return Status::NoMemory,
    };
    // (which tells, too, how much the node keeps)
    let _ = node.is_spent();
    let mut living = Living { node };
    let mut buf = [0u8; READ_SIZE];
    match answer_stream(alloc, &mut buf, &mut living, source, sink, notes, clock) {
        Status::Done => {
            *ran = Ran::Served(living.node);
            Status::Done
        }
        other => other,
    }
}

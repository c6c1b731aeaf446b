//! Who hears whom. Called by `declaring`, `lines` and `network`, and by the replay and `trace_lines`.
ghost use Rattle.std.specs.Prelude.{◌≡◌, ◌<◌, ◌==◌, ℕ, Bool, Some, ◌&&◌, ◌||◌, if◌then◌else◌, slice_get};
ghost use Rattle.network_file.specs.Plan as hearing;

use crate::limits::MAX_NODES;
use arrayvec::ArrayVec;

/// The numbers of nodes are below this one.
const NUMBERS: usize = MAX_NODES + 1;

/// Nodes that hear each other, 2 to 16 by their numbers.
#[derive(Debug, Drop)]
pub struct Channel {
    pub nodes: ArrayVec<u8, MAX_NODES>,
}

impl Channel {
    /// The node is on the channel.
    pub fn has(&self, node: u8) -> bool
        ensures { result ≡ hearing.is_on node self.now }
    {
        has_member(self.nodes.as_slice(), node)
    }
}

/// The node is one of these.
pub fn has_member(nodes: &[u8], node: u8) -> bool
    ensures { result ≡ hearing.has_member nodes.now node }
{
    nodes.iter().any(|member| *member == node)
}

/// The node is on a channel.
pub fn is_on_air(channels: &[Channel], node: u8) -> bool
    ensures { result ≡ hearing.is_on_air channels.now node }
{
    channels.iter().any(|channel| channel.has(node))
}

/// The nodes are two, and share a channel.
pub fn can_hear(channels: &[Channel], sender: u8, node: u8) -> bool
    ensures { result ≡ hearing.can_hear channels.now sender node }
{
    sender != node && share_channel(channels, sender, node)
}

fn share_channel(channels: &[Channel], sender: u8, node: u8) -> bool
    ensures { result ≡ hearing.share_channel channels.now sender node }
{
    channels
        .iter()
        .any(|channel| channel.has(sender) && channel.has(node))
}

/// Which nodes hear a sender, by number.
pub fn heard_by(channels: &[Channel], sender: u8) -> [bool; NUMBERS]
    ensures { (n : ℕ) → n < 17 → slice_get result n ≡ Some (hearing.can_hear channels.now sender n) }
{
    let mut marks = [false; NUMBERS];
    mark_near(channels, sender, &mut marks);
    set(sender, false, &mut marks);
    marks
}

/// Marks the nodes that share a channel with a sender.
fn mark_near(channels: &[Channel], sender: u8, marks: &mut [bool])
    ensures { (n : ℕ) (b : Bool) → slice_get marks.old n ≡ Some b
        → slice_get marks.new n ≡ Some (hearing.share_channel channels.now sender n || b) }
{
    match channels {
        [] => {}
        [channel, others @ ..] => {
            mark_with(channel, sender, marks);
            mark_near(others, sender, marks);
        }
    }
}

/// Marks the nodes of a channel, where the sender is on it.
fn mark_with(channel: &Channel, sender: u8, marks: &mut [bool])
    ensures { (n : ℕ) (b : Bool) → slice_get marks.old n ≡ Some b
        → slice_get marks.new n ≡ Some ((hearing.is_on sender channel.now && hearing.is_on n channel.now) || b) }
{
    if channel.has(sender) {
        mark(channel.nodes.as_slice(), marks);
    }
}

/// Marks these nodes.
fn mark(nodes: &[u8], marks: &mut [bool])
    ensures { (n : ℕ) (b : Bool) → slice_get marks.old n ≡ Some b
        → slice_get marks.new n ≡ Some (hearing.has_member nodes.now n || b) }
{
    match nodes {
        [] => {}
        [node, others @ ..] => {
            set(*node, true, marks);
            mark(others, marks);
        }
    }
}

/// Sets the mark of a node, where it has one.
fn set(node: u8, mark: bool, marks: &mut [bool])
    ensures { (n : ℕ) (b : Bool) → slice_get marks.old n ≡ Some b
        → slice_get marks.new n ≡ Some (if node == n then mark else b) }
{
    if (node as usize) < marks.len() {
        marks[node as usize] = mark;
    }
}

//! What is seen of an end of a circuit at a member. Called by `looks`.
ghost use Rattle.std.specs.Prelude.{◌≡◌, Option};
ghost use Rattle.std.specs.Option.{option_copied};
ghost use Rattle.node_core.specs.Standing.{NodeStands};
ghost use Rattle.node_core.specs.Waits as waits;
ghost use Rattle.node_model.specs.States.{NodeState};
ghost use Rattle.station_members.specs.Looks.{LentStands};
ghost use Rattle.station_places.specs.Ends as ends;

use circuit_l4::{EndFacts, EndPhase};
use node_core::Node;

/// With how many bytes queued at most an end has room for a text (this project's profile).
const MOST_QUEUED: usize = 57_344;

/// What the end of a number tells of itself, where it is held.
fn facts(node: Option<&Node>, id: u64) -> Option<EndFacts>
    ensures { (n : Option NodeState) → LentStands (option_copied node.entry) n → result ≡ ends.facts id n }
{
    match node {
        Some(node) => node.facts(id),
        None => None,
    }
}

/// Whether it has room for a text.
pub(crate) fn has_room(node: Option<&Node>, id: u64) -> bool
    ensures { (n : Option NodeState) → LentStands (option_copied node.entry) n → result ≡ ends.has_room id n }
{
    match facts(node, id) {
        Some(facts) => facts.phase == EndPhase::Up && facts.queued <= MOST_QUEUED,
        None => false,
    }
}

/// Whether its circuit has ended, or it isn't held.
pub(crate) fn has_ended(node: Option<&Node>, id: u64) -> bool
    ensures { (n : Option NodeState) → LentStands (option_copied node.entry) n → result ≡ ends.has_ended id n }
{
    match facts(node, id) {
        Some(facts) => facts.phase == EndPhase::Ended,
        None => true,
    }
}

/// Whether it is held.
pub(crate) fn is_held(node: Option<&Node>, id: u64) -> bool
    ensures { (n : Option NodeState) → LentStands (option_copied node.entry) n → result ≡ ends.is_held id n }
{
    facts(node, id).is_some()
}

/// Whether a message waits there.
pub(crate) fn has_message(node: Option<&Node>, id: u64) -> bool
    ensures { (n : Option NodeState) → LentStands (option_copied node.entry) n → result ≡ ends.has_message id n }
{
    match node {
        Some(node) => node_has_message(node, id),
        None => false,
    }
}

fn node_has_message(node: &Node, id: u64) -> bool
    ensures { (n : NodeState) → NodeStands node.now n → result ≡ waits.has_message id n.station }
{
    match node.circuits().end(id) {
        Some(end) => end.has_message(),
        None => false,
    }
}

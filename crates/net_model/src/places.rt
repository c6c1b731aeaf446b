//! The places of nodes by their numbers, and a line at one. Called by net_world and net_verdict.
ghost use Rattle.std.specs.Prelude.{◌≡◌};
ghost use Rattle.std.specs.List.{position_or_len};
ghost use Rattle.net_model.specs.Standing.{is_member};

use crate::members::Member;

/// Where a line is done: its number, and the number and the place of its node.
#[derive(Clone, Copy)]
pub struct LineAt {
    pub line: u32,
    pub node: u8,
    pub at: usize,
}

/// The place of the node of that number, or how many nodes there are.
pub fn place_of(members: &[Member], number: u8) -> usize
    ensures { result ≡ position_or_len (is_member number) members.now }
{
    for at in 0..members.len() {
        if members[at].declared.node == number {
            return at;
        }
    }
    members.len()
}

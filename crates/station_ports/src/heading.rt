//! Who is heard in a frame, and to whom it is on its way. Called by the crates that run a station.
ghost use Rattle.std.specs.Prelude.{◌≡◌, ◌≤◌, ◌++◌, List, ℕ, length, IfSome, Some};
ghost use Rattle.ax_frame.specs.Frames.{BeginsWith, SpellsHead};
ghost use Rattle.ax_frame.specs.declared.head.Head as of_frame;
ghost use Rattle.station_ports.specs.Headings as headings;

use ax_address::{Address, Call};
use ax_frame::{Head, is_command, read_head};

/// What the addresses of a frame say (AX.25 2.2, section 3.12).
#[derive(Clone, Copy, Debug, PartialEq, Eq)]
pub struct Heading {
    pub source: Call,
    pub dest: Call,
    /// Who was heard: the last repeater that has repeated the frame, else its source.
    pub hop: Call,
    /// To whom the frame is on its way: the first repeater that has not repeated it yet, else its destination.
    pub towards: Call,
    /// Whether every repeater has repeated it.
    pub has_come: bool,
    /// Whether it names no repeater.
    pub is_direct: bool,
    /// Whether it is a command (AX.25 2.2, section 6.1.2).
    pub is_command: bool,
    /// How many octets its addresses have.
    pub end: usize,
}

/// What the addresses of a frame say, where they can be read.
pub fn heading_of(octets: &[u8]) -> Option<Heading>
    ensures exact { result ≡ headings.heading_at octets.now }

    // The octets begin with the addresses that it tells of.
    ensures found { IfSome result (λ heading. (h : of_frame.Head) × BeginsWith octets.now h heading.end
        × (heading ≡ headings.heading h heading.end)) }

    // What begins with addresses is told of by them.
    ensures only { (h : of_frame.Head) (addresses rest : List ℕ) → SpellsHead h addresses
        → octets.now ≡ addresses ++ rest → result ≡ Some (headings.heading h (length addresses)) }
    ensures room { IfSome result (λ heading. (14 ≤ heading.end) × (heading.end ≤ length octets.now)) }
{
    match read_head(octets) {
        Ok((head, end)) => Some(heading_from(&head, end)),
        Err(_) => None,
    }
}

/// What addresses say that have so many octets.
fn heading_from(head: &Head, end: usize) -> Heading
    ensures { result ≡ headings.heading head.now end }
{
    let next = next_repeater(&head.path);
    Heading {
        source: head.source.call,
        dest: head.dest.call,
        hop: last_repeated(&head.path).unwrap_or(head.source.call),
        towards: next.unwrap_or(head.dest.call),
        has_come: next.is_none(),
        is_direct: head.path.is_empty(),
        is_command: is_command(head),
        end,
    }
}

/// The first repeater that has not repeated the frame yet.
fn next_repeater(path: &[Address]) -> Option<Call>
    ensures { result ≡ headings.next_repeater path.now }
{
    path.iter().find(|one| !one.bit7).map(|one| one.call)
}

/// The last repeater that has repeated the frame.
fn last_repeated(path: &[Address]) -> Option<Call>
    ensures { result ≡ headings.last_repeated path.now }
{
    path.iter().rev().find(|one| one.bit7).map(|one| one.call)
}

//! The lines of a soak's file. Called by `file`.
ghost use Rattle.std.specs.Prelude.{◌≡◌, IfOk, string_bytes};
ghost use Rattle.network_soak.specs.Files as files;
ghost use Rattle.network_soak.specs.declared.lines.LineKind.TheVariants as kinds;

use std::alloc::{AllocError, Global};

/// What is said of each node.
#[derive(Clone, Copy, Debug, PartialEq, Eq)]
pub enum LineKind {
    /// It is declared.
    Declare,
    /// It and the next one hear each other.
    Join,
    /// Its datagrams go in UI frames.
    WithoutLinks,
    /// It broadcasts its routes, and 100 frames go on.
    Round,
    /// It asks for a circuit with the node opposite.
    Open,
    /// It closes that circuit.
    Close,
}

/// The line of that kind for a node, from 1 to 6. After a round there is a second one.
pub fn line_of(alloc: Global, kind: LineKind, node: u8) -> Result<String, AllocError>
    ensures { IfOk result (λ s. string_bytes s ≡ files.line_of kind node) }
{
    match kind {
        LineKind::Declare => declare_line(alloc, node),
        LineKind::Join => {
            let next = node % 6 + 1;
            format!(in alloc; "channel {node} {next}\n")
        }
        LineKind::WithoutLinks => format!(in alloc; "set {node} links 0\n"),
        LineKind::Round => format!(in alloc; "round {node}\nflow 100\n"),
        LineKind::Open => {
            let far = call_of(((node as u16 + 2) % 6) as u8 + 1);
            format!(in alloc; "open {node} {far}\n")
        }
        LineKind::Close => format!(in alloc; "close {node} 1\n"),
    }
}

fn declare_line(alloc: Global, node: u8) -> Result<String, AllocError>
    ensures { IfOk result (λ s. string_bytes s ≡ files.line_of kinds.Declare node) }
{
    let call = call_of(node);
    let alias = alias_of(node);
    format!(in alloc; "node {node} {call} {alias}\n")
}

/// A message with its number is written at a node's circuit.
pub fn say_line(alloc: Global, node: u64, nth: u32) -> Result<String, AllocError>
    ensures { IfOk result (λ s. string_bytes s ≡ files.say_line node nth) }
{
    format!(in alloc; "say {node} 1 m{nth}\n")
}

/// So many frames go on.
pub fn flow_line(alloc: Global, count: u64) -> Result<String, AllocError>
    ensures { IfOk result (λ s. string_bytes s ≡ files.flow_line count) }
{
    format!(in alloc; "flow {count}\n")
}

fn call_of(node: u8) -> &'static str
    ensures { result.now ≡ files.call_of node }
{
    match node {
        1 => "N0AAA",
        2 => "N0BBB",
        3 => "N0CCC",
        4 => "N0DDD",
        5 => "N0EEE",
        _ => "N0FFF",
    }
}

fn alias_of(node: u8) -> &'static str
    ensures { result.now ≡ files.alias_of node }
{
    match node {
        1 => "NODEA",
        2 => "NODEB",
        3 => "NODEC",
        4 => "NODED",
        5 => "NODEE",
        _ => "NODEF",
    }
}

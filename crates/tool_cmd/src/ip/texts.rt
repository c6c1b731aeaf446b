//! Addresses and routes as texts. Called by `words`.
ghost use Rattle.std.specs.Prelude.{◌≡◌, ◌≤◌, ◌+◌, ◌^◌, true};
ghost use Rattle.text_lines.specs.Lines as lines;
ghost use Rattle.tool_cmd.specs.IpTexts as texts;

use text_lines::{is_digit, place_of};

/// What the text of a route gives.
#[derive(Clone, Copy, Debug, PartialEq, Eq)]
pub struct RouteText {
    pub prefix: u32,
    pub len: u8,
    pub hop: u32,
}

/// The address that the text is: four numbers with points between them.
#[tactic(auto, unfolding(crate::specs::IpTexts::address_at))]
pub fn read_address(text: &[u8]) -> Option<u32>
    ensures { result ≡ texts.address_at text.now }
{
    let (first, rest) = parts_of(b'.', text)?;
    let (second, rest) = parts_of(b'.', rest)?;
    let (third, fourth) = parts_of(b'.', rest)?;
    let a = read_octet(first)?;
    let b = read_octet(second)?;
    let c = read_octet(third)?;
    let d = read_octet(fourth)?;
    Some(16777216 * a as u32 + 65536 * b as u32 + 256 * c as u32 + d as u32)
}

/// The route that the text is: a prefix, its length from 0 to 255, and the next hop.
#[tactic(auto, unfolding(crate::specs::IpTexts::route_at))]
pub fn read_route(text: &[u8]) -> Option<RouteText>
    ensures { result ≡ texts.route_at text.now }
{
    let (front, hop) = parts_of(b',', text)?;
    let (prefix, len) = parts_of(b'/', front)?;
    let prefix = read_address(prefix)?;
    let len = read_octet(len)?;
    let hop = read_address(hop)?;
    Some(RouteText { prefix, len, hop })
}

/// What stands before and behind the first such character.
fn parts_of(mark: u8, text: &[u8]) -> Option<(&[u8], &[u8])>
    ensures { texts.Gives result (texts.parts_at mark text.now) (λ x. (x.0.now, x.1.now)) }
{
    match place_of(mark, text) {
        Some(at) => Some((&text[..at], &text[at + 1..])),
        None => None,
    }
}

/// A decimal number from 0 to 255 without leading zeros.
fn read_octet(text: &[u8]) -> Option<u8>
    ensures { result ≡ texts.octet_at text.now }
{
    match text {
        [a] if is_digit(*a) => Some(digit(*a)),
        [a, b] if is_digit(*a) && *a != b'0' && is_digit(*b) => Some(10 * digit(*a) + digit(*b)),
        [a, b, c] if is_digit(*a) && *a != b'0' && is_digit(*b) && is_digit(*c) => {
            small(100 * digit(*a) as u32 + 10 * digit(*b) as u32 + digit(*c) as u32)
        }
        _ => None,
    }
}

fn small(n: u32) -> Option<u8>
    ensures { result ≡ texts.small n }
{
    if n <= 255 { Some(n as u8) } else { None }
}

fn digit(b: u8) -> u8
    requires { lines.is_digit b ≡ true }
    ensures value { result + 48 ≡ b }
    ensures small { result ≤ 9 }
{
    b - b'0'
}

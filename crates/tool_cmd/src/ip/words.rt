//! The words of `ip`. Called by `node_cmd`.
ghost use Rattle.std.specs.Prelude.{◌≡◌, IfSome, IfNone, true, false};
ghost use Rattle.ax_ip.specs.Machine.{State};
ghost use Rattle.tool_cmd.specs.IpTexts.{Gives};
ghost use Rattle.tool_cmd.specs.IpWords as ips;
ghost use Rattle.tool_cmd.specs.Standing.{state_of};
ghost use Rattle.tool_cmd.specs.WordTexts.{texts_of};

use super::gateway::Gateway;
use super::texts::{RouteText, read_address, read_route};
use ax_address::Call;

/// The gateway that the words behind `ip` ask for: `call=CALL`, `addr=IP`, and then each of its routes.
pub fn gateway_of(words: &[String]) -> Option<Gateway>
    ensures found { IfSome result (λ g. ips.IsGateway (texts_of words.now) (state_of g)) }
    ensures none { IfNone result ((s : State) → ¬ ips.IsGateway (texts_of words.now) s) }
{
    match words {
        [call, addr, routes @ ..] => {
            let mut gateway = start_of(call.as_bytes(), addr.as_bytes())?;
            if add_routes(routes, &mut gateway) {
                Some(gateway)
            } else {
                None
            }
        }
        _ => None,
    }
}

/// The gateway by its call and its address, without routes.
#[tactic(auto, unfolding(crate::specs::IpWords::start_at))]
fn start_of(call: &[u8], addr: &[u8]) -> Option<Gateway>
    ensures { Gives result (ips.start_at call.now addr.now) (λ g. state_of g) }
{
    let call = behind(b"call=", call)?;
    let call = read_call(call)?;
    let addr = behind(b"addr=", addr)?;
    let addr = read_address(addr)?;
    Some(Gateway::new(call, addr))
}

/// Takes the routes in, until one is none, or isn't taken.
fn add_routes(words: &[String], gateway: &mut Gateway) -> bool
    ensures added { result ≡ true →
        ips.Adds (texts_of words.now) (state_of gateway.old) (state_of gateway.new) }
    ensures none { result ≡ false → (s : State) → ¬ ips.Adds (texts_of words.now) (state_of gateway.old) s }
{
    match words {
        [] => true,
        [word, rest @ ..] => add_route(word.as_bytes(), gateway) && add_routes(rest, gateway),
    }
}

/// Takes the route of a word in, if it is one.
fn add_route(word: &[u8], gateway: &mut Gateway) -> bool
    ensures added { result ≡ true → ips.AddsRoute word.now (state_of gateway.old) (state_of gateway.new) }
    ensures none { result ≡ false → (s : State) → ¬ ips.AddsRoute word.now (state_of gateway.old) s }
{
    match route_of(word) {
        Some(route) => gateway.route(route.prefix, route.len, route.hop).is_ok(),
        None => false,
    }
}

/// The route that a word is.
#[tactic(auto, unfolding(crate::specs::IpWords::route_word_at))]
fn route_of(word: &[u8]) -> Option<RouteText>
    ensures { result ≡ ips.route_word_at word.now }
{
    let text = behind(b"route=", word)?;
    read_route(text)
}

fn read_call(text: &[u8]) -> Option<Call>
    ensures { result ≡ ips.call_at text.now }
{
    Call::read(text).ok()
}

/// What stands behind the key of a word.
fn behind<'a>(key: &[u8], word: &'a [u8]) -> Option<&'a [u8]>
    ensures { Gives result (ips.behind key.now word.now) (λ x. x.now) }
{
    word.strip_prefix(key)
}

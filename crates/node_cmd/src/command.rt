//! The commands, and the words that ask for them. Called by `top`.
ghost use Rattle.std.specs.Prelude.{◌≡◌, ◌≢◌, ◌<◌, ◌^◌, ℕ, IfSome, IfNone, IsTrue, ◌↔◌, codes};
ghost use Rattle.node_cmd.specs.declared.command.RunCommand.{RunCommand};
ghost use Rattle.node_cmd.specs.Words.{AskFor, seed_word};

use network_file::{LiveNode, read_live_node};
use radio_base::LinkModulus;
use tool_cmd::{Gateway, LifeSettings, gateway_of, modulo_of, number_behind, settings_of};

/// What the program can do.
#[derive(Drop)]
pub enum RunCommand {
    /// `replay`
    Replay,
    /// `frames modulo=8`, `frames modulo=128`
    Frames { modulus: LinkModulus },
    /// `soak seed=N`
    Soak { seed: u64 },
    /// `life`, and `modulo=8` or `modulo=128`, `srej=0` or `srej=1` and `delay=D` in any order
    Life { settings: LifeSettings },
    /// `node call=CALL alias=ALIAS ..`
    Node { declared: LiveNode },
    /// `ip call=CALL addr=IP`, and then `route=IP/N,IP` for each route
    Ip { gateway: Gateway },
}

/// The command that the words ask for.
#[tactic(auto, unfolding(crate::specs::Words::Declare))]
pub(crate) fn command_of(words: &[String]) -> Option<RunCommand>
    ensures found { IfSome result (AskFor words.now) }
    ensures none { IfNone result ((c : RunCommand) → ¬ AskFor words.now c) }
{
    match words {
        [word] if is_replay(word.as_bytes()) => Some(RunCommand::Replay),
        [word, modulus] if is_frames(word.as_bytes()) => match modulo_of(modulus.as_str()) {
            Some(modulus) => Some(RunCommand::Frames { modulus }),
            None => None,
        },
        [word, seed] if is_soak(word.as_bytes()) => match seed_of(seed.as_str()) {
            Some(seed) => Some(RunCommand::Soak { seed }),
            None => None,
        },
        [word, rest @ ..] if is_life(word.as_bytes()) => match settings_of(rest) {
            Some(settings) => Some(RunCommand::Life { settings }),
            None => None,
        },
        [word, more @ ..] if is_node(word.as_bytes()) => match read_live_node(more) {
            Ok(declared) => Some(RunCommand::Node { declared }),
            Err(_) => None,
        },
        [word, rest @ ..] if is_ip(word.as_bytes()) => match gateway_of(rest) {
            Some(gateway) => Some(RunCommand::Ip { gateway }),
            None => None,
        },
        _ => None,
    }
}

fn is_replay(word: &[u8]) -> bool
    ensures { IsTrue result ↔ (word.now ≡ codes "replay") }
{
    word == b"replay".as_slice()
}

fn is_frames(word: &[u8]) -> bool
    ensures { IsTrue result ↔ (word.now ≡ codes "frames") }
{
    word == b"frames".as_slice()
}

fn is_soak(word: &[u8]) -> bool
    ensures { IsTrue result ↔ (word.now ≡ codes "soak") }
{
    word == b"soak".as_slice()
}

fn is_life(word: &[u8]) -> bool
    ensures { IsTrue result ↔ (word.now ≡ codes "life") }
{
    word == b"life".as_slice()
}

fn is_node(word: &[u8]) -> bool
    ensures { IsTrue result ↔ (word.now ≡ codes "node") }
{
    word == b"node".as_slice()
}

fn is_ip(word: &[u8]) -> bool
    ensures { IsTrue result ↔ (word.now ≡ codes "ip") }
{
    word == b"ip".as_slice()
}

/// The seed that the word gives.
fn seed_of(word: &str) -> Option<u64>
    ensures found { IfSome result (λ seed. word.now ≡ seed_word seed) }
    ensures none { IfNone result ((seed : ℕ) → seed < 2 ^ 64 → word.now ≢ seed_word seed) }
{
    number_behind("seed=", word)
}

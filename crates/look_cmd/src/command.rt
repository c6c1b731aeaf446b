//! The commands, and the words that ask for them. Called by `top`.
ghost use Rattle.std.specs.Prelude.{◌≡◌, ◌≢◌, IfSome, IfNone, IsTrue, Option, ◌↔◌, codes};
ghost use Rattle.radio_base.specs.declared.modulus.LinkModulus.{LinkModulus};
ghost use Rattle.look_cmd.specs.declared.command.LookCommand.{LookCommand};
ghost use Rattle.look_cmd.specs.Words.{AskFor, modulo_word};

use radio_base::LinkModulus;

/// What the program can do.
#[derive(Clone, Copy, Debug, PartialEq, Eq)]
pub enum LookCommand {
    /// `listen modulo=8`, `listen modulo=128`, or without a modulus `listen modulo=auto`
    Listen { modulus: Option<LinkModulus> },
    /// `trace`
    Trace,
}

/// The command that the words ask for.
pub(crate) fn command_of(words: &[String]) -> Option<LookCommand>
    ensures found { IfSome result (AskFor words.now) }
    ensures none { IfNone result ((c : LookCommand) → ¬ AskFor words.now c) }
{
    match words {
        [word] if is_trace(word.as_bytes()) => Some(LookCommand::Trace),
        [word, modulus] if is_listen(word.as_bytes()) => match modulo_of(modulus.as_str()) {
            Some(modulus) => Some(LookCommand::Listen { modulus }),
            None => None,
        },
        _ => None,
    }
}

fn is_trace(word: &[u8]) -> bool
    ensures { IsTrue result ↔ (word.now ≡ codes "trace") }
{
    word == b"trace".as_slice()
}

fn is_listen(word: &[u8]) -> bool
    ensures { IsTrue result ↔ (word.now ≡ codes "listen") }
{
    word == b"listen".as_slice()
}

/// The modulus that the word gives, or none where it leaves that to the stations.
fn modulo_of(word: &str) -> Option<Option<LinkModulus>>
    ensures found { IfSome result (λ m. word.now ≡ modulo_word m) }
    ensures none { IfNone result ((m : Option LinkModulus) → word.now ≢ modulo_word m) }
{
    match word {
        "modulo=auto" => Some(None),
        "modulo=8" => Some(Some(LinkModulus::Modulo8)),
        "modulo=128" => Some(Some(LinkModulus::Modulo128)),
        _ => None,
    }
}

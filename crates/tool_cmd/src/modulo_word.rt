//! The word that names a modulus. Called by `settings`, and by the programs' readers of words.
ghost use Rattle.std.specs.Prelude.{◌≡◌, ◌≢◌, IfSome, IfNone};
ghost use Rattle.radio_base.specs.declared.modulus.LinkModulus.{LinkModulus};
ghost use Rattle.tool_cmd.specs.Frames.{modulo_word};

use radio_base::LinkModulus;

/// The modulus that the word gives: of the links of a life, or of the frames of a stream, which no frame tells (AX.25 2.2, section 4.2.1).
pub fn modulo_of(word: &str) -> Option<LinkModulus>
    ensures found { IfSome result (λ m. word.now ≡ modulo_word m) }
    ensures none { IfNone result ((m : LinkModulus) → word.now ≢ modulo_word m) }
{
    match word {
        "modulo=8" => Some(LinkModulus::Modulo8),
        "modulo=128" => Some(LinkModulus::Modulo128),
        _ => None,
    }
}

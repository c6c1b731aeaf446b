//! The words of `life`. Called by `lives`, and by `node_cmd`.
ghost use Rattle.std.specs.Prelude.{◌≡◌, ◌≢◌, ◌≤◌, ◌∷◌, [], ℕ, Bool, IfSome, IfNone};
ghost use Rattle.tool_cmd.specs.declared.lives.settings.LifeSettings.{LifeSettings};
ghost use Rattle.tool_cmd.specs.LifeWords as lives;
ghost use Rattle.tool_cmd.specs.WordTexts.{texts_of};

use crate::modulo_word::modulo_of;
use crate::words::number_behind;
use radio_base::LinkModulus;

/// How a life is led.
#[derive(Clone, Copy, Debug, PartialEq, Eq)]
pub struct LifeSettings {
    pub modulus: LinkModulus,
    pub srej: bool,
    /// For how long a frame may be under way, in milliseconds.
    pub delay: u64,
}

/// The longest time for which a frame may be under way, in milliseconds.
const MAX_DELAY: u64 = 1_499;

/// The settings that the words behind `life` give: `modulo=8` or `modulo=128`, `srej=0` or `srej=1`, and `delay=D`, each once, in any order.
#[tactic(auto, unfolding(crate::specs::LifeWords::AreSettings))]
pub fn settings_of(words: &[String]) -> Option<LifeSettings>
    ensures found { IfSome result (λ s. lives.AreSettings (texts_of words.now) s) }
    ensures none { IfNone result ((s : LifeSettings) → ¬ lives.AreSettings (texts_of words.now) s) }
{
    match words {
        [x, y, z] => settings_in(x.as_str(), y.as_str(), z.as_str()),
        _ => None,
    }
}

#[tactic(auto, unfolding(crate::specs::LifeWords::AreSettings))]
fn settings_in(x: &str, y: &str, z: &str) -> Option<LifeSettings>
    ensures found { IfSome result (λ s. lives.AreSettings (x.now ∷ y.now ∷ z.now ∷ []) s) }
    ensures none { IfNone result ((s : LifeSettings) → ¬ lives.AreSettings (x.now ∷ y.now ∷ z.now ∷ []) s) }
{
    let modulus = modulo_of(x).or(modulo_of(y)).or(modulo_of(z))?;
    let srej = srej_of(x).or(srej_of(y)).or(srej_of(z))?;
    let delay = delay_of(x).or(delay_of(y)).or(delay_of(z))?;
    Some(LifeSettings {
        modulus,
        srej,
        delay,
    })
}

/// Whether a link uses SREJ.
fn srej_of(word: &str) -> Option<bool>
    ensures found { IfSome result (λ srej. word.now ≡ lives.srej_word srej) }
    ensures none { IfNone result ((srej : Bool) → word.now ≢ lives.srej_word srej) }
{
    match word {
        "srej=0" => Some(false),
        "srej=1" => Some(true),
        _ => None,
    }
}

fn delay_of(word: &str) -> Option<u64>
    ensures found { IfSome result (λ delay. word.now ≡ lives.delay_word delay) }
    ensures short { IfSome result (λ delay. delay ≤ 1499) }
    ensures none { IfNone result ((delay : ℕ) → delay ≤ 1499 → word.now ≢ lives.delay_word delay) }
{
    match number_behind("delay=", word) {
        Some(delay) if delay <= MAX_DELAY => Some(delay),
        _ => None,
    }
}

//! A number behind a key, which words of several commands have. Called by `settings`, and by `node_cmd`.
ghost use Rattle.std.specs.Prelude.{◌≡◌, ◌≢◌, ◌<◌, ◌^◌, ◌++◌, ℕ, IfSome, IfNone, IsTrue, ◌↔◌};
ghost use Rattle.std.specs.Fmt.{decimal};

use itoa::Buffer;

/// The number that stands behind the key of a word.
pub fn number_behind(key: &str, word: &str) -> Option<u64>
    ensures found { IfSome result (λ n. word.now ≡ key.now ++ decimal n) }
    ensures none { IfNone result ((n : ℕ) → n < 2 ^ 64 → word.now ≢ key.now ++ decimal n) }
{
    match word.strip_prefix(key) {
        Some(text) => number_of(text),
        None => None,
    }
}

/// The number of which the text is the one spelling: decimal, without a sign and without leading zeros.
fn number_of(text: &str) -> Option<u64>
    ensures found { IfSome result (λ n. text.now ≡ decimal n) }
    ensures none { IfNone result ((n : ℕ) → n < 2 ^ 64 → text.now ≢ decimal n) }
{
    match text.parse::<u64>() {
        Ok(n) if is_decimal(n, text) => Some(n),
        _ => None,
    }
}

fn is_decimal(n: u64, text: &str) -> bool
    ensures { IsTrue result ↔ (text.now ≡ decimal n) }
{
    Buffer::new().format(n) == text
}

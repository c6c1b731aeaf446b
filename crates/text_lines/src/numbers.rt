//! The numbers that words spell: decimal digits without a leading zero. Own profile. Called by `link_life`,
//! `network_file` and `tool_cmd`.
ghost use Rattle.std.specs.Prelude.{◌≡◌, nat_le, Some, None, if◌then◌else◌};
ghost use Rattle.std.specs.List.{list_all};
ghost use Rattle.text_lines.specs.Lines as numbers;

/// A decimal digit.
pub fn is_digit(b: u8) -> bool
    ensures { result ≡ numbers.is_digit b }
{
    b >= 48 && b <= 57
}

fn all_digits(word: &[u8]) -> bool
    ensures { result ≡ list_all numbers.is_digit word.now }
{
    word.iter().all(|b| is_digit(*b))
}

/// Decimal digits without a leading zero.
pub fn is_number(word: &[u8]) -> bool
    ensures { result ≡ numbers.is_number word.now }
{
    all_digits(word) && !word.is_empty() && (word.len() == 1 || word[0] != 48)
}

/// The number that the word spells, where it is one from `least` to `most`.
pub fn number_of(least: u32, most: u32, word: &[u8]) -> Option<u32>
    ensures { result ≡ numbers.number_of least most word.now }
{
    if !is_number(word) {
        return None;
    }
    match value_up_to(word, most) {
        Some(value) if value >= least => Some(value),
        _ => None,
    }
}

/// The number that the digits spell, where it is no larger than the bound.
#[tactic(auto, using(crate::proofs::Values::value_onto_ge))]
fn value_up_to(digits: &[u8], most: u32) -> Option<u32>
    ensures { result ≡ (if nat_le (numbers.value_onto 0 digits.now) most
        then Some (numbers.value_onto 0 digits.now) else None) }
{
    let mut value: u64 = 0;
    for digit in digits {
        value = value * 10 + digit.saturating_sub(48) as u64;
        if value > most as u64 {
            return None;
        }
    }
    Some(value as u32)
}

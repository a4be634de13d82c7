//! The number that a word of a schedule writes in a few digits.
ghost use Rattle.std.specs.Prelude.{◌≡◌};
ghost use Rattle.std.specs.Char.{is_ascii_digit};
ghost use Rattle.std.specs.List.{list_all};
ghost use Rattle.line_reasons.specs.Digits.{decimal_of};

use std::str;

fn are_digits(word: &[u8]) -> bool
    ensures { result ≡ list_all is_ascii_digit word.now }
{
    word.iter().all(|byte| byte.is_ascii_digit())
}

// The number that 1 to 8 digits write in decimal.
#[tactic(auto, unfolding(crate::specs::Digits::decimal_of))]
pub(crate) fn decimal_of(word: &[u8]) -> Option<u32>
    ensures { result ≡ decimal_of word.now }
{
    if (1..=8).contains(&word.len()) && are_digits(word) {
        match str::from_utf8(word) {
            Ok(digits) => digits.parse().ok(),
            Err(_) => None,
        }
    } else {
        None
    }
}

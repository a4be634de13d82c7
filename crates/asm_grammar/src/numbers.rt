//! Reads a number, decimal or hexadecimal, at the front of a text. Magnitudes past every range are read as one, so no
//! digit is too many.
ghost use Rattle.std.specs.Prelude.{◌≡◌, ◌⊎◌, ◌≤◌, ◌^◌, ◌<◌, length};
ghost use Rattle.std.specs.Str.Parse.{digits_value};
ghost use Rattle.asm_grammar.specs.Text.{Gives, front_of, behind};
ghost use Rattle.asm_grammar.specs.Numbers.{is_digit, AreDigits, held, numeral_at, magnitude_at, signed, signed_at, spelled_number_at};

use crate::syntax::Number;
use std::str;

// Whether the byte is a digit.
fn is_digit(base: u32, byte: u8) -> bool
    ensures { result ≡ is_digit base byte }
{
    (b'0' <= byte && byte <= b'9') || (base == 16 && b'a' <= byte && byte <= b'f')
}

fn digits_len(base: u32, text: &[u8]) -> usize
    ensures len { result ≡ length (front_of (is_digit base) text.now) }
    ensures within { result ≤ length text.now }
{
    for (i, byte) in text.iter().enumerate() {
        if !is_digit(base, *byte) {
            return i;
        }
    }
    text.len()
}

// The digits at the front, and the text after them.
#[tactic(auto, using(crate::proofs::Fronts::take_front, crate::proofs::Fronts::drop_front))]
fn split_digits(base: u32, text: &[u8]) -> (&[u8], &[u8])
    ensures front { result.0.now ≡ front_of (is_digit base) text.now }
    ensures rest { result.1.now ≡ behind (is_digit base) text.now }
{
    text.split_at(digits_len(base, text))
}

// The value of digits, as far as a range can hold it.
#[tactic(auto, using(crate::proofs::Digits::digits_utf8, crate::proofs::Digits::without_plus, crate::proofs::Digits::numeral))]
fn value_of(base: u32, digits: &[u8]) -> u64
    requires base { (base ≡ 10) ⊎ (base ≡ 16) }
    requires digits { AreDigits base digits.now }
    requires some { 0 < length digits.now }
    ensures { result ≡ held (digits_value base digits.now) }
{
    let Ok(digits) = str::from_utf8(digits) else {
        return 4294967296;
    };
    match u32::from_str_radix(digits, base) {
        Ok(value) => u64::from(value),
        Err(_) => 4294967296,
    }
}

#[tactic(auto, using(crate::proofs::Digits::are_digits), unfolding(crate::specs::Numbers::numeral_at))]
fn numeral_of(base: u32, text: &[u8]) -> Option<(u64, &[u8])>
    requires { (base ≡ 10) ⊎ (base ≡ 16) }
    ensures { Gives (λ x. (x.0, x.1.now)) result (numeral_at base text.now) }
{
    let (digits, rest) = split_digits(base, text);
    if digits.is_empty() {
        return None;
    }
    Some((value_of(base, digits), rest))
}

#[tactic(auto, unfolding(crate::specs::Numbers::magnitude_at))]
fn magnitude_of(text: &[u8]) -> Option<(u64, &[u8])>
    ensures { Gives (λ x. (x.0, x.1.now)) result (magnitude_at text.now) }
{
    match text {
        [b'0', b'x', rest @ ..] => numeral_of(16, rest),
        _ => numeral_of(10, text),
    }
}

#[tactic(auto, unfolding(crate::specs::Numbers::signed_at))]
fn signed_of(minus: bool, text: &[u8]) -> Option<(Number, &[u8])>
    ensures { Gives (λ x. (x.0, x.1.now)) result (signed_at minus text.now) }
{
    let (magnitude, rest) = magnitude_of(text)?;
    let negative = minus && magnitude != 0;
    Some((
        Number {
            negative,
            magnitude,
        },
        rest,
    ))
}

// A number, and the text after it.
#[tactic(auto, unfolding(crate::specs::Numbers::spelled_number_at))]
pub fn number_of(text: &[u8]) -> Option<(Number, &[u8])>
    ensures { Gives (λ x. (x.0, x.1.now)) result (spelled_number_at text.now) }
{
    match text {
        [] => None,
        [b'-', rest @ ..] => signed_of(true, rest),
        _ => signed_of(false, text),
    }
}

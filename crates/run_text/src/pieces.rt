//! Cuts texts: at a line's end, at a space, behind digits. It knows no kind of line.
ghost use Rattle.std.specs.Prelude.{◌≡◌, ◌≢◌, ℕ, ◌^◌, ◌<◌, ◌≤◌, ◌==◌, List, [], ◌∷◌, ◌++◌, length, take, drop, MatchOption, MatchBool, slice_index, codes, decimal};
ghost use Rattle.std.specs.Str.Parse.{IsNumeral, digits_value};
ghost use Rattle.run_text.specs.Pieces.{line_len, HasNo, AtSpace};

use std::str;

// Where the first line ends.
pub fn line_end(text: &[u8]) -> usize
    ensures len { result ≡ line_len text.now }
    ensures within { result ≤ length text.now }
{
    for (i, byte) in text.iter().enumerate() {
        if *byte == b'\n' {
            return i + 1;
        }
    }
    text.len()
}

/// The first line, and what stands after it.
pub fn first_line(text: &[u8]) -> (&[u8], &[u8])
    requires { 0 < length text.now }
    ensures line { result.0.now ≡ take (line_len text.now) text.now }
    ensures rest { result.1.now ≡ drop (line_len text.now) text.now }
    ensures shorter { length result.1.now < length text.now }
{
    text.split_at(line_end(text))
}

/// What stands after this beginning.
pub fn strip_front<'a>(text: &'a [u8], front: &[u8]) -> Option<&'a [u8]>
    ensures { MatchOption result ((rest : List ℕ) → text.now ≢ front.now ++ rest) (λ x. text.now ≡ front.now ++ x.now) }
{
    text.strip_prefix(front)
}

/// What stands before this end.
pub fn strip_end<'a>(text: &'a [u8], end: &[u8]) -> Option<&'a [u8]>
    ensures { MatchOption result ((rest : List ℕ) → text.now ≢ rest ++ end.now) (λ x. text.now ≡ x.now ++ end.now) }
{
    text.strip_suffix(end)
}

// What stands before and after the first space.
pub fn split_word(text: &[u8]) -> Option<(&[u8], &[u8])>
    ensures { MatchOption result (HasNo 32 text.now) (λ x. (text.now ≡ x.0.now ++ 32 ∷ x.1.now) × HasNo 32 x.0.now) }
{
    for (i, byte) in text.iter().enumerate() {
        if *byte == b' ' {
            return Some((&text[..i], &text[i + 1..]));
        }
    }
    None
}

// The number that digits write, of which there is at least one, where it fits.
pub fn read_digits(text: &[u8]) -> Option<u32>
    ensures { MatchOption result (IsNumeral 10 text.now → digits_value 10 text.now < 2 ^ 32 → ⊥)
        (λ n. IsNumeral 10 text.now × (digits_value 10 text.now ≡ n) × (n < 2 ^ 32)) }
{
    if text.is_empty() || !text[0].is_ascii_digit() {
        return None;
    }
    let Ok(text) = str::from_utf8(text) else {
        return None;
    };
    text.parse::<u32>().ok()
}

// The first word, and what stands from the first space on.
pub fn split_at_space(text: &[u8]) -> (&[u8], &[u8])
    ensures cut { text.now ≡ result.0.now ++ result.1.now }
    ensures word { HasNo 32 result.0.now }
    ensures rest { AtSpace result.1.now }
{
    for (i, byte) in text.iter().enumerate() {
        if *byte == b' ' {
            return text.split_at(i);
        }
    }
    text.split_at(text.len())
}

// Whether digits begin with a zero that isn't all of them.
fn has_zero_in_front(text: &[u8]) -> bool
    ensures { MatchBool result ((1 < length text.now) × (slice_index text.now 0 ≡ 48)) (slice_index text.now 0 ≡ 48 → length text.now ≤ 1) }
{
    text.len() > 1 && text[0] == b'0'
}

/// The number that this is the decimal of, without leading zeros.
pub fn read_decimal(text: &[u8]) -> Option<u32>
    ensures { MatchOption result ((n : ℕ) → n < 2 ^ 32 → text.now ≢ decimal n) (λ n. (text.now ≡ decimal n) × (n < 2 ^ 32)) }
{
    if has_zero_in_front(text) {
        return None;
    }
    let Some(number) = read_digits(text) else {
        return None;
    };
    Some(number)
}

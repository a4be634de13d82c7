//! Reads bytes that are written as pairs of hexadecimal digits.
ghost use Rattle.std.specs.Prelude.{◌≡◌, ◌≢◌, ℕ, ◌+◌, ◌*◌, ◌^◌, ◌<◌, ◌≤◌, List, [], ◌∷◌, ◌++◌, length, MatchOption, IfOk};
ghost use Rattle.run_text.specs.Text.{hex_digit, hex_pair, hex_text};
ghost use Rattle.run_text.specs.Transcript.{AllBelow};

use std::alloc::Global;
use vm_facts::NoMemory;

// The value of a hexadecimal digit in lower case.
fn read_hex_digit(byte: u8) -> Option<u8>
    ensures { MatchOption result ((d : ℕ) → d < 16 → byte ≢ hex_digit d) (λ d. (byte ≡ hex_digit d) × (d < 16)) }
{
    if b'0' <= byte && byte <= b'9' {
        return Some(byte - b'0');
    }
    if b'a' <= byte && byte <= b'f' {
        return Some(byte - b'a' + 10);
    }
    None
}

// The byte of the first pair of digits, and what stands after it.
fn read_hex_pair(text: &[u8]) -> Option<(u8, &[u8])>
    ensures { MatchOption result ((b : ℕ) (rest : List ℕ) → b < 256 → text.now ≡ hex_pair b ++ rest → ⊥)
        (λ x. (text.now ≡ hex_pair x.0 ++ x.1.now) × (x.0 < 256)) }
{
    if text.len() < 2 {
        return None;
    }
    let Some(high) = read_hex_digit(text[0]) else {
        return None;
    };
    let Some(low) = read_hex_digit(text[1]) else {
        return None;
    };
    Some((16 * high + low, &text[2..]))
}

// The bytes whose pairs of digits make the text.
pub fn read_hex(alloc: Global, text: &[u8]) -> Result<Option<Vec<u8>>, NoMemory>
    ensures { IfOk result
        (λ o. MatchOption o ((bs : List ℕ) → AllBelow 256 bs → text.now ≡ hex_text bs → ⊥) (λ v. (text.now ≡ hex_text v.items) × AllBelow 256 v.items)) }
{
    let mut bytes = Vec::new(alloc);
    let mut rest = text;
    while !rest.is_empty() {
        let Some((byte, more)) = read_hex_pair(rest) else {
            return Ok(None);
        };
        let Ok(()) = bytes.push(byte) else {
            return Err(NoMemory);
        };
        rest = more;
    }
    Ok(Some(bytes))
}

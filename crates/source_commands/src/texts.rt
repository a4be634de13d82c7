//! Small questions about a text: whether a byte is in it, what stands before one, how many commas it has. Nothing
//! here knows the grammar.
ghost use Rattle.std.specs.Prelude.{◌≡◌, ◌==◌, ◌≤◌, ◌<◌, IfSome, position, count_by, length, not};
ghost use Rattle.std.specs.List.{list_any};
ghost use Rattle.source_commands.specs.Mistakes.{up_to, past, has, begins, last_byte, is_capital, is_printable};

fn place_of(byte: u8, text: &[u8]) -> Option<usize>
    ensures place { result ≡ position (λ x. x == byte) text.now }
    ensures within { IfSome result (λ at. at < length text.now) }
{
    text.iter().position(|x| *x == byte)
}

/// The text before the first byte of a value, and the text after it: all and nothing where there is none.
#[tactic(auto, using(crate::proofs::Splits::before_found, crate::proofs::Splits::after_found, crate::proofs::Splits::before_missed, crate::proofs::Splits::after_missed))]
pub fn split_at_byte(byte: u8, text: &[u8]) -> (&[u8], &[u8])
    ensures before { result.0.now ≡ up_to byte text.now }
    ensures after { result.1.now ≡ past byte text.now }
{
    match place_of(byte, text) {
        Some(at) => (&text[..at], &text[at + 1..]),
        None => (text, &[]),
    }
}

pub fn has(byte: u8, text: &[u8]) -> bool
    ensures { result ≡ has byte text.now }
{
    text.iter().any(|x| *x == byte)
}

pub fn has_capital(text: &[u8]) -> bool
    ensures { result ≡ list_any is_capital text.now }
{
    text.iter().any(|x| b'A' <= *x && *x <= b'Z')
}

pub fn has_unprintable(text: &[u8]) -> bool
    ensures { result ≡ list_any (λ byte. not (is_printable byte)) text.now }
{
    text.iter().any(|x| !(b' ' <= *x && *x <= b'~'))
}

pub fn commas(text: &[u8]) -> usize
    ensures count { result ≡ count_by (λ x. x == 44) text.now }
    ensures few { result ≤ length text.now }
{
    text.iter().filter(|x| **x == b',').count()
}

pub fn begins(byte: u8, text: &[u8]) -> bool
    ensures { result ≡ begins byte text.now }
{
    match text {
        [] => false,
        [first, ..] => *first == byte,
    }
}

/// The last byte, 0 where there is none.
pub fn last_byte(text: &[u8]) -> u8
    ensures { result ≡ last_byte text.now }
{
    match text {
        [] => 0,
        [.., last] => *last,
    }
}

//! Reads labels, and values, which are numbers or labels. Whether a label is defined isn't asked here.
ghost use Rattle.std.specs.Prelude.{◌≡◌, ◌≤◌, ◌<◌, length};
ghost use Rattle.asm_grammar.specs.Text.{Gives, front_of, behind};
ghost use Rattle.asm_grammar.specs.Values.{is_label_start, is_word_byte, padded, label_of_word, label_at, value_label_at, value_number_at, value_at};

use crate::numbers::number_of;
use crate::syntax::{Label, Value};

fn is_label_start(byte: u8) -> bool
    ensures { result ≡ is_label_start byte }
{
    (b'a' <= byte && byte <= b'z') || byte == b'_'
}

fn is_word_byte(byte: u8) -> bool
    ensures { result ≡ is_word_byte byte }
{
    is_label_start(byte) || (b'0' <= byte && byte <= b'9')
}

fn word_len(text: &[u8]) -> usize
    ensures len { result ≡ length (front_of (is_word_byte) text.now) }
    ensures within { result ≤ length text.now }
{
    for (i, byte) in text.iter().enumerate() {
        if !is_word_byte(*byte) {
            return i;
        }
    }
    text.len()
}

// The word at the front, and the text after it.
#[tactic(auto, using(crate::proofs::Fronts::take_front, crate::proofs::Fronts::drop_front))]
pub fn split_word(text: &[u8]) -> (&[u8], &[u8])
    ensures word { result.0.now ≡ front_of is_word_byte text.now }
    ensures rest { result.1.now ≡ behind is_word_byte text.now }
{
    text.split_at(word_len(text))
}

// The word with zeros after it.
fn padded(word: &[u8]) -> [u8; 16]
    requires { length word.now ≤ 16 }
    ensures { result ≡ padded word.now }
{
    let mut bytes = [0; 16];
    bytes[..word.len()].copy_from_slice(word);
    bytes
}

// A label, and the text after it.
#[tactic(auto, unfolding(crate::specs::Values::label_at))]
pub fn label_of(text: &[u8]) -> Option<(Label, &[u8])>
    ensures { Gives (λ x. (x.0, x.1.now)) result (label_at text.now) }
{
    let (word, rest) = split_word(text);
    match word {
        [first, ..] if is_label_start(*first) && word.len() <= 16 => {
            let bytes = padded(word);
            Some((Label { bytes }, rest))
        }
        _ => None,
    }
}

#[tactic(auto, unfolding(crate::specs::Values::value_label_at))]
fn value_label_of(text: &[u8]) -> Option<(Value, &[u8])>
    ensures { Gives (λ x. (x.0, x.1.now)) result (value_label_at text.now) }
{
    let (label, rest) = label_of(text)?;
    Some((Value::Label(label), rest))
}

#[tactic(auto, unfolding(crate::specs::Values::value_number_at))]
fn value_number_of(text: &[u8]) -> Option<(Value, &[u8])>
    ensures { Gives (λ x. (x.0, x.1.now)) result (value_number_at text.now) }
{
    let (number, rest) = number_of(text)?;
    Some((Value::Number(number), rest))
}

// A value, and the text after it.
#[tactic(auto, unfolding(crate::specs::Values::value_at))]
pub fn value_of(text: &[u8]) -> Option<(Value, &[u8])>
    ensures { Gives (λ x. (x.0, x.1.now)) result (value_at text.now) }
{
    match text {
        [] => None,
        [first, ..] if is_label_start(*first) => value_label_of(text),
        _ => value_number_of(text),
    }
}

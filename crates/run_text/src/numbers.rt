//! A few numbers of a line, read each after a space.
ghost use Rattle.std.specs.Prelude.{◌≡◌, ℕ, ◌+◌, ◌^◌, ◌==◌, ◌<◌, ◌≤◌, List, [], ◌∷◌, ◌++◌, length, take, MatchOption};
ghost use Rattle.run_text.specs.Text.{part, parts};
ghost use Rattle.run_text.specs.Pieces.{AtSpace};
ghost use Rattle.run_text.specs.Transcript.{AllBelow};

use crate::pieces::{read_decimal, split_at_space, strip_front};
use std::marker::Model;

/// At most five numbers.
#[derive(Drop)]
pub struct Numbers {
    values: [u32; 5],
    len: usize,
}

impl Model for Numbers {
    ghost Value = { List ℕ };

    ghost view = { λ n. take n.len n.values };

    ghost invariant = { λ n. n.len ≤ 5 };
}

impl Numbers {
    pub fn new() -> Numbers
        ensures { result ≡ [] }
    {
        Numbers {
            values: [0; 5],
            len: 0,
        }
    }

    pub fn is_full(&self) -> bool
        ensures full { result ≡ (length self.now == 5) }
        ensures few { length self.now ≤ 5 }
    {
        self.len == 5
    }

    pub fn push(&mut self, value: u32)
        requires { length self.old < 5 }
        ensures { self.new ≡ self.old ++ value ∷ [] }
    {
        self.values[self.len] = value;
        self.len += 1;
    }

    /// The numbers, in their order.
    pub fn as_slice(&self) -> &[u32]
        ensures { result.now ≡ self.now }
    {
        &self.values[..self.len]
    }
}

// The number after a space, and what stands after it.
pub fn read_part(text: &[u8]) -> Option<(u32, &[u8])>
    ensures { MatchOption result ((n : ℕ) (rest : List ℕ) → n < 2 ^ 32 → AtSpace rest → text.now ≡ part n ++ rest → ⊥)
        (λ x. (text.now ≡ part x.0 ++ x.1.now) × AtSpace x.1.now × (x.0 < 2 ^ 32)) }
{
    let Some(after) = strip_front(text, b" ") else {
        return None;
    };
    let (word, rest) = split_at_space(after);
    let Some(number) = read_decimal(word) else {
        return None;
    };
    Some((number, rest))
}

/// The numbers that the text consists of, each after a space.
pub fn read_numbers(text: &[u8]) -> Option<Numbers>
    ensures { MatchOption result ((ns : List ℕ) → length ns ≤ 5 → AllBelow 4294967296 ns → text.now ≡ parts ns → ⊥)
        (λ ns. (text.now ≡ parts ns) × AllBelow 4294967296 ns) }
{
    let mut numbers = Numbers::new();
    let mut rest = text;
    while !rest.is_empty() {
        let Some((number, more)) = read_part(rest) else {
            return None;
        };
        if numbers.is_full() {
            return None;
        }
        numbers.push(number);
        rest = more;
    }
    Some(numbers)
}

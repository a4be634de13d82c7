//! The text of one line, at most 120 bytes, kept with no memory taken.
ghost use Rattle.std.specs.Prelude.{◌≡◌, ℕ, ◌+◌, ◌≤◌, ◌<◌, List, [], ◌∷◌, ◌++◌, length, take};
ghost use Rattle.vax_disasm.specs.Showing.{hexadecimal_digit, hexadecimal};

use std::marker::Model;

// At most 120 bytes.
#[derive(Drop)]
pub struct Line {
    bytes: [u8; 120],
    length: u8,
}

impl Model for Line {
    ghost Value = { List ℕ };

    ghost view = { λ line. take line.length line.bytes };

    ghost invariant = { λ line. line.length ≤ 120 };
}

// A hexadecimal digit in lower case.
fn hexadecimal_digit(digit: u8) -> u8
    requires { digit < 16 }
    ensures { result ≡ hexadecimal_digit digit }
{
    if digit < 10 {
        b'0' + digit
    } else {
        b'a' - 10 + digit
    }
}

impl Line {
    pub fn new() -> Line
        ensures { result ≡ [] }
    {
        Line {
            bytes: [0; 120],
            length: 0,
        }
    }

    pub fn push(&mut self, byte: u8)
        requires { length self.old < 120 }
        ensures { self.new ≡ self.old ++ byte ∷ [] }
    {
        self.bytes[self.length as usize] = byte;
        self.length += 1;
    }

    pub fn push_all(&mut self, bytes: &[u8])
        requires { length self.old + length bytes.now ≤ 120 }
        ensures { self.new ≡ self.old ++ bytes.now }
    {
        let start = self.length as usize;
        let end = start + bytes.len();
        self.bytes[start..end].copy_from_slice(bytes);
        self.length = end as u8;
    }

    // A number in at most so many hexadecimal digits.
    #[tactic(auto, using(crate::proofs::Hexadecimal::hexadecimal_none, crate::proofs::Hexadecimal::hexadecimal_last, crate::proofs::Hexadecimal::hexadecimal_step))]
    pub fn push_hexadecimal(&mut self, places: u8, number: u64)
        requires { length self.old + places ≤ 120 }
        ensures text { self.new ≡ self.old ++ hexadecimal places number }
        ensures few { length self.new ≤ length self.old + places }
    {
        if places == 0 {
            return;
        }
        if number >= 16 {
            self.push_hexadecimal(places - 1, number / 16);
        }
        self.push(hexadecimal_digit((number % 16) as u8));
    }

    // All 120 bytes, and how many of them are the line.
    pub fn into_parts(self) -> ([u8; 120], u8)
        ensures line { take result.1 result.0 ≡ self }
        ensures length { result.1 ≡ length self }
        ensures few { result.1 ≤ 120 }
    {
        let bytes = self.bytes;
        let length = self.length;
        (bytes, length)
    }
}

//! The bytes of one line, at most 24, kept with no memory taken.
ghost use Rattle.std.specs.Prelude.{◌≡◌, ℕ, ◌+◌, ◌≤◌, ◌<◌, List, [], ◌∷◌, ◌++◌, length, take};
ghost use Rattle.std.specs.Int.{to_le_bytes};
ghost use Rattle.vax_code.specs.Operands.{width_of};
ghost use Rattle.asm_grammar.specs.Encoding.{whole_of};

use std::marker::Model;

// At most 24 bytes.
#[derive(Drop)]
pub struct Code {
    bytes: [u8; 24],
    length: u8,
}

impl Model for Code {
    ghost Value = { List ℕ };

    ghost view = { λ code. take code.length code.bytes };

    ghost invariant = { λ code. code.length ≤ 24 };
}

impl Code {
    pub fn new() -> Code
        ensures { result ≡ [] }
    {
        Code {
            bytes: [0; 24],
            length: 0,
        }
    }

    pub fn len(&self) -> u8
        ensures len { result ≡ length self.now }
        ensures few { result ≤ 24 }
    {
        self.length
    }

    pub fn push(&mut self, byte: u8)
        requires { length self.old < 24 }
        ensures { self.new ≡ self.old ++ byte ∷ [] }
    {
        self.bytes[self.length as usize] = byte;
        self.length += 1;
    }

    pub fn push_all(&mut self, bytes: &[u8])
        requires { length self.old + length bytes.now ≤ 24 }
        ensures { self.new ≡ self.old ++ bytes.now }
    {
        let start = self.length as usize;
        let end = start + bytes.len();
        self.bytes[start..end].copy_from_slice(bytes);
        self.length = end as u8;
    }

    pub fn as_slice(&self) -> &[u8]
        ensures bytes { result.now ≡ self.now }
        ensures few { length result.now ≤ 24 }
    {
        &self.bytes[..self.length as usize]
    }

    // All 24 bytes, and how many of them are the code.
    pub fn into_parts(self) -> ([u8; 24], u8)
        ensures code { take result.1 result.0 ≡ self }
        ensures length { result.1 ≡ length self }
    {
        let bytes = self.bytes;
        let length = self.length;
        (bytes, length)
    }

    // A number in 1, 2 or 4 bytes, the low one first.
    pub fn push_number(&mut self, size: u8, number: u32)
        requires room { length self.old ≤ 20 }
        requires fits { number < whole_of size }
        ensures { self.new ≡ self.old ++ to_le_bytes (width_of size) number }
    {
        match size {
            1 => self.push(number as u8),
            2 => self.push_all(&(number as u16).to_le_bytes()),
            _ => self.push_all(&number.to_le_bytes()),
        }
    }
}

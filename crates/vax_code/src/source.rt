//! Bytes that come one after another, so that an instruction is read from memory or from a list alike.
ghost use Rattle.std.specs.Prelude.{◌≡◌, ℕ, List, length};
ghost use Rattle.vax_code.specs.Sources.{Next};

/// Bytes that come one after another, until no more do.
pub trait ByteSource {
    /// The bytes that are still to come.
    ghost left: { Self → List ℕ };

    /// How many may still come.
    ghost room: { Self → ℕ };

    /// The next byte, or `None` where no more come.
    fn next(&mut self) -> Option<u8>
        ensures { Next result (left self.old) (left self.new) (room self.old) (room self.new) };

    /// How many bytes may still come. It falls by one with each that does.
    fn room(&self) -> usize
        ensures { result ≡ room self.now };
}

/// The bytes of a slice, from the first on.
#[derive(Drop)]
pub struct Front<'a> {
    bytes: &'a [u8],
}

impl<'a> Front<'a> {
    pub fn of(bytes: &'a [u8]) -> Front<'a>
        ensures { result.bytes.now ≡ bytes.now }
    {
        Front { bytes }
    }
}

impl ByteSource for Front<'_> {
    ghost left = { λ s. s.bytes.now };

    ghost room = { λ s. length s.bytes.now };

    #[inline(always)]
    fn next(&mut self) -> Option<u8> {
        match self.bytes {
            [] => None,
            [first, rest @ ..] => {
                self.bytes = rest;
                Some(*first)
            }
        }
    }

    #[inline(always)]
    fn room(&self) -> usize {
        self.bytes.len()
    }
}

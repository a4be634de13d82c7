//! The last line that was written, for what is told on standard error.
ghost use Rattle.std.specs.Prelude.{◌≤◌};

// How many bytes of a line are kept; the line of a fault has fewer.
const MOST_KEPT: usize = 128;

// The last line that was written, whole or not yet: its first 128 bytes, with its line feed.
#[derive(Drop)]
pub(crate) struct LastLine {
    bytes: [u8; 128],
    len: usize,
    is_whole: bool,
    ghost within: { len ≤ 128 },
}

impl LastLine {
    pub(crate) fn new() -> LastLine {
        LastLine {
            bytes: [0; 128],
            len: 0,
            is_whole: false,
        }
    }

    // Goes on by a byte. One after a whole line begins the next.
    fn push(&mut self, byte: u8) {
        if self.is_whole {
            self.len = 0;
        }
        self.is_whole = byte == b'\n';
        if self.len < MOST_KEPT {
            self.bytes[self.len] = byte;
            self.len += 1;
        }
    }

    // Goes on by a piece of the output.
    pub(crate) fn note(&mut self, piece: &[u8]) {
        for byte in piece {
            self.push(*byte);
        }
    }

    pub(crate) fn as_slice(&self) -> &[u8] {
        &self.bytes[..self.len]
    }
}

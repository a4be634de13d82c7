//! Shows the instruction that bytes begin with, with how many bytes it has.
ghost use Rattle.vax_disasm.specs.Showing.{ShowsAs};

use crate::bytes::sentence_at;
use crate::showing::text_of;

/// What bytes are shown as.
#[derive(Clone, Copy, Debug, PartialEq, Eq)]
pub enum Shown {
    /// The first `length` bytes of the text are the instruction's, which has `size` bytes.
    Is {
        text: [u8; 120],
        length: u8,
        size: u8,
    },
    /// No instruction begins so.
    NoInstruction,
}

/// The text of the instruction that the bytes at an address begin with.
pub fn show(bytes: &[u8], at: u32) -> Shown
    ensures { ShowsAs bytes.now at result }
{
    let Some((sentence, rest)) = sentence_at(at, bytes) else {
        return Shown::NoInstruction;
    };
    let size = (bytes.len() - rest.len()) as u8;
    let (text, length) = text_of(&sentence).into_parts();
    Shown::Is { text, length, size }
}

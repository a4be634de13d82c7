//! Encodes a single instruction at an address, without labels.
ghost use Rattle.std.specs.Prelude.{◌≡◌, ◌≤◌, [], length, IfSome};
ghost use Rattle.asm_grammar.specs.Encoding.{sentence_bytes};
ghost use Rattle.vax_asm.specs.Encodes.{EncodesAs, EncodesByGrammar};

use crate::answers::Encoded;
use crate::code::Code;
use crate::encoding::sentence_bytes;
use crate::labels::Labels;
use asm_grammar::{Sentence, is_short, sentence_of};

// The bytes of an instruction that names no label.
fn lone_bytes(at: u32, sentence: &Sentence) -> Option<Code>
    ensures value { result ≡ sentence_bytes [] at sentence.now }
    ensures few { IfSome result (λ code. length code ≤ 19) }
{
    sentence_bytes(&Labels::none(), at, sentence)
}

// The bytes of the instruction that the line is read as.
fn encode_line(line: &[u8], at: u32) -> Encoded
    ensures { EncodesAs line.now at result }
{
    if !is_short(line) {
        return Encoded::Bad;
    }
    let Some(sentence) = sentence_of(line) else {
        return Encoded::Bad;
    };
    match lone_bytes(at, &sentence) {
        Some(code) => {
            let (bytes, length) = code.into_parts();
            Encoded::Is { bytes, length }
        }
        None => Encoded::Bad,
    }
}

/// The bytes of one instruction, a line without labels and without its LF, at an address.
#[tactic(auto, using(crate::proofs::ByGrammar::encodes_by_grammar))]
pub fn encode(line: &[u8], at: u32) -> Encoded
    ensures answers { EncodesAs line.now at result }
    ensures grammar { EncodesByGrammar line.now at result }
{
    encode_line(line, at)
}

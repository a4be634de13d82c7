//! Reads an instruction: a mnemonic, and as many operands as its row has. How long a line may be is said here too.
ghost use Rattle.std.specs.Prelude.{◌≡◌};
ghost use Rattle.asm_grammar.specs.Text.{Gives};
ghost use Rattle.asm_grammar.specs.Sentences.{separator, place_of_row_at, ended, operands_at, sentence_of, is_short};

use crate::mnemonics::row_named;
use crate::operands::operand_of;
use crate::syntax::{Sentence, Written};
use crate::text::after;
use crate::values::split_word;
use vax_code::{Access, Row};

/// What stands before the operand in one of the places 0, 1 and 2: a space or a comma.
pub fn separator(place: u8) -> u8
    ensures { result ≡ separator place }
{
    if place == 0 { b' ' } else { b',' }
}

#[tactic(auto, unfolding(crate::specs::Sentences::place_of_row_at))]
fn place_of_row(row: Row, place: u8, text: &[u8]) -> Option<(Written, &[u8])>
    ensures { Gives (λ x. (x.0, x.1.now)) result (place_of_row_at row place text.now) }
{
    if place >= row.count {
        return Some((Written::Absent, text));
    }
    let operand = after(separator(place), text)?;
    operand_of(row.slot(place).access == Access::Branch, operand)
}

#[tactic(auto, unfolding(crate::specs::Sentences::operands_at))]
fn operands_of(row: Row, text: &[u8]) -> Option<Sentence>
    ensures { result ≡ operands_at row text.now }
{
    let (a, rest) = place_of_row(row, 0, text)?;
    let (b, rest) = place_of_row(row, 1, rest)?;
    let (c, rest) = place_of_row(row, 2, rest)?;
    if !rest.is_empty() {
        return None;
    }
    Some(Sentence { row, a, b, c })
}

/// The instruction that the whole text is, a line without a label and without its line feed.
#[tactic(auto, unfolding(crate::specs::Sentences::sentence_of))]
pub fn sentence_of(text: &[u8]) -> Option<Sentence>
    ensures { result ≡ sentence_of text.now }
{
    let (word, rest) = split_word(text);
    let row = row_named(word)?;
    operands_of(row, rest)
}

/// Whether a line may be so long: it has at most 120 bytes without its line feed.
pub fn is_short(text: &[u8]) -> bool
    ensures { result ≡ is_short text.now }
{
    text.len() <= 120
}

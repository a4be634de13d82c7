//! Why a text is no directive and no instruction. Of several bad operands the leftmost is told.
ghost use Rattle.std.specs.Prelude.{◌≡◌, ◌≤◌, find, length, option_map, IfOk};
ghost use Rattle.asm_grammar.specs.Mnemonics.{mnemonic, same_text, row_named};
ghost use Rattle.source_commands.specs.Mistakes.{why_of, why_place, why_row, operand_count, why_operands, has, past, is_directive, why_directive, why_instruction, why_statement};

use crate::mistakes::Mistake;
use crate::operands::why_operand;
use crate::texts::{begins, commas, has, has_capital, split_at_byte};
use asm_grammar::mnemonic;
use std::alloc::{AllocError, Global};
use vax_code::{Access, Row, rows};

fn row_in(rows: &[Row], word: &[u8]) -> Option<Row>
    ensures { result ≡ find (λ row. same_text (mnemonic row.name) word.now) rows.now }
{
    rows.iter().copied().find(|row| mnemonic(row.name) == word)
}

#[tactic(auto, unfolding(asm_grammar::specs::Mnemonics::row_named))]
fn row_named(word: &[u8]) -> Option<Row>
    ensures { result ≡ row_named word.now }
{
    row_in(rows(), word)
}

fn why_place(
    alloc: Global,
    row: Row,
    place: u8,
    text: &[u8],
) -> Result<Option<Mistake<'_>>, AllocError>
    ensures { IfOk result (λ why. option_map why_of why ≡ why_place row place text.now) }
{
    if place >= row.count {
        return Ok(None);
    }
    let (operand, _) = split_at_byte(b',', text);
    why_operand(alloc, row.slot(place).access == Access::Branch, operand)
}

// What the leftmost operand that isn't one is.
#[tactic(auto, unfolding(crate::specs::Mistakes::why_row))]
fn why_row(alloc: Global, row: Row, text: &[u8]) -> Result<Mistake<'_>, AllocError>
    ensures { IfOk result (λ why. why_of why ≡ why_row row text.now) }
{
    if let Some(mistake) = why_place(alloc, row, 0, text)? {
        return Ok(mistake);
    }
    let (_, text) = split_at_byte(b',', text);
    if let Some(mistake) = why_place(alloc, row, 1, text)? {
        return Ok(mistake);
    }
    let (_, text) = split_at_byte(b',', text);
    if let Some(mistake) = why_place(alloc, row, 2, text)? {
        return Ok(mistake);
    }
    Ok(Mistake::Other)
}

fn operand_count(text: &[u8]) -> usize
    ensures { result ≡ operand_count text.now }
{
    if has(b' ', text) {
        1 + commas(split_at_byte(b' ', text).1)
    } else {
        0
    }
}

fn why_operands(alloc: Global, row: Row, text: &[u8]) -> Result<Mistake<'_>, AllocError>
    ensures { IfOk result (λ why. why_of why ≡ why_operands row text.now) }
{
    let (word, operands) = split_at_byte(b' ', text);
    let given = operand_count(text);
    if given == usize::from(row.count) {
        why_row(alloc, row, operands)
    } else {
        Ok(Mistake::WrongCount(word, row.count, given))
    }
}

fn has_second_space(text: &[u8]) -> bool
    ensures { result ≡ has 32 (past 32 text.now) }
{
    has(b' ', split_at_byte(b' ', text).1)
}

fn is_directive(word: &[u8]) -> bool
    ensures { result ≡ is_directive word.now }
{
    word == b".byte".as_slice()
        || word == b".word".as_slice()
        || word == b".long".as_slice()
        || word == b".space".as_slice()
        || word == b".bss".as_slice()
}

#[tactic(auto, unfolding(crate::specs::Mistakes::why_directive))]
fn why_directive(text: &[u8]) -> Mistake<'_>
    ensures { why_of result ≡ why_directive text.now }
{
    let (word, _) = split_at_byte(b' ', text);
    if !is_directive(word) {
        Mistake::NoDirective(word)
    } else if has_second_space(text) {
        Mistake::SpaceWithin
    } else {
        Mistake::NoValue(word)
    }
}

fn why_instruction(alloc: Global, row: Option<Row>, text: &[u8]) -> Result<Mistake<'_>, AllocError>
    ensures { IfOk result (λ why. why_of why ≡ why_instruction row text.now) }
{
    let Some(row) = row else {
        return Ok(Mistake::NoMnemonic(split_at_byte(b' ', text).0));
    };
    if has_second_space(text) {
        return Ok(Mistake::SpaceWithin);
    }
    why_operands(alloc, row, text)
}

/// Why a text is no statement.
#[tactic(auto, unfolding(crate::specs::Mistakes::why_statement))]
pub fn why_statement(alloc: Global, text: &[u8]) -> Result<Mistake<'_>, AllocError>
    ensures { IfOk result (λ why. why_of why ≡ why_statement text.now) }
{
    if has_capital(text) {
        return Ok(Mistake::Capital);
    }
    if begins(b'.', text) {
        return Ok(why_directive(text));
    }
    why_instruction(alloc, row_named(split_at_byte(b' ', text).0), text)
}

//! Why a text is no operand, and which literals of a good line are too wide.
ghost use Rattle.std.specs.Prelude.{◌≡◌, ◌++◌, [], is_some, option_map, IfOk, Some};
ghost use Rattle.asm_grammar.specs.Sentences.{sentence_of};
ghost use Rattle.asm_grammar.specs.Encoding.{named_instruction};
ghost use Rattle.source_commands.specs.Mistakes.{why_of, up_to, past, is_operand, is_immediate, is_target, is_in_its_range, register_of, why_name, why_register, size_for, without_star, why_displacement, why_literal, why_value, why_specifier, why_operand, operands_in, wide_literal_in};

use crate::mistakes::Mistake;
use crate::texts::{begins, has, split_at_byte};
use asm_grammar::sentence_of;
use std::alloc::{AllocError, Global};
use vax_asm::{Encoded, encode};

// Whether two texts make an instruction, one after the other.
fn is_sentence(alloc: Global, front: &[u8], text: &[u8]) -> Result<bool, AllocError>
    ensures { IfOk result (λ is. is ≡ is_some (sentence_of (front.now ++ text.now))) }
{
    let mut line = Vec::from_slice(alloc, front)?;
    line.extend_from_slice(text)?;
    Ok(sentence_of(line.as_slice()).is_some())
}

// Whether they make one in its ranges.
fn is_encoded(alloc: Global, front: &[u8], text: &[u8]) -> Result<bool, AllocError>
    ensures { IfOk result (λ is. is ≡ is_some (named_instruction (front.now ++ text.now) [] 0)) }
{
    let mut line = Vec::from_slice(alloc, front)?;
    line.extend_from_slice(text)?;
    match encode(line.as_slice(), 0) {
        Encoded::Is { .. } => Ok(true),
        Encoded::Bad => Ok(false),
    }
}

#[tactic(auto, unfolding(crate::specs::Mistakes::is_operand))]
fn is_operand(alloc: Global, text: &[u8]) -> Result<bool, AllocError>
    ensures { IfOk result (λ is. is ≡ is_operand text.now) }
{
    is_sentence(alloc, b"tstl ", text)
}

#[tactic(auto, unfolding(crate::specs::Mistakes::is_immediate))]
fn is_immediate(alloc: Global, text: &[u8]) -> Result<bool, AllocError>
    ensures { IfOk result (λ is. is ≡ is_immediate text.now) }
{
    is_sentence(alloc, b"tstl i^", text)
}

#[tactic(auto, unfolding(crate::specs::Mistakes::is_target))]
fn is_target(alloc: Global, text: &[u8]) -> Result<bool, AllocError>
    ensures { IfOk result (λ is. is ≡ is_target text.now) }
{
    is_sentence(alloc, b"brb ", text)
}

fn register_of(name: &[u8]) -> Option<u8>
    ensures { result ≡ register_of name.now }
{
    if name == b"ap".as_slice() {
        return Some(12);
    }
    if name == b"fp".as_slice() {
        return Some(13);
    }
    if name == b"sp".as_slice() {
        return Some(14);
    }
    if name == b"pc".as_slice() {
        return Some(15);
    }
    None
}

fn why_name(name: &[u8]) -> Option<Mistake<'_>>
    ensures { option_map why_of result ≡ why_name name.now }
{
    let number = register_of(name)?;
    Some(Mistake::RegisterName(name, number))
}

// What stands between an opening byte and a closing one.
fn between(opening: u8, closing: u8, text: &[u8]) -> &[u8]
    ensures { result.now ≡ up_to closing (past opening text.now) }
{
    let (_, inner) = split_at_byte(opening, text);
    split_at_byte(closing, inner).0
}

#[tactic(auto, unfolding(crate::specs::Mistakes::why_register))]
fn why_register(text: &[u8]) -> Option<Mistake<'_>>
    ensures { option_map why_of result ≡ why_register text.now }
{
    if let Some(mistake) = why_name(text) {
        return Some(mistake);
    }
    if let Some(mistake) = why_name(between(b'(', b')', text)) {
        return Some(mistake);
    }
    why_name(between(b'[', b']', text))
}

#[tactic(auto, unfolding(crate::specs::Mistakes::size_for, crate::specs::Mistakes::is_in_its_range))]
fn size_for(alloc: Global, text: &[u8]) -> Result<Option<u8>, AllocError>
    ensures { IfOk result (λ size. size ≡ size_for text.now) }
{
    if is_encoded(alloc, b"tstl b^", text)? {
        return Ok(Some(b'b'));
    }
    if is_encoded(alloc, b"tstl w^", text)? {
        return Ok(Some(b'w'));
    }
    if is_encoded(alloc, b"tstl l^", text)? {
        return Ok(Some(b'l'));
    }
    Ok(None)
}

fn without_star(text: &[u8]) -> &[u8]
    ensures { result.now ≡ without_star text.now }
{
    match text {
        [b'*', rest @ ..] => rest,
        _ => text,
    }
}

fn why_displacement(alloc: Global, text: &[u8]) -> Result<Option<Mistake<'_>>, AllocError>
    ensures { IfOk result (λ why. option_map why_of why ≡ why_displacement text.now) }
{
    match size_for(alloc, text)? {
        Some(size) => Ok(Some(Mistake::NoSize(text, size))),
        None => Ok(None),
    }
}

#[tactic(auto, unfolding(crate::specs::Mistakes::why_literal, crate::specs::Mistakes::is_in_its_range))]
fn why_literal(alloc: Global, text: &[u8]) -> Result<Option<Mistake<'_>>, AllocError>
    ensures { IfOk result (λ why. option_map why_of why ≡ why_literal text.now) }
{
    if begins(b'$', text) && is_immediate(alloc, text)? && !is_encoded(alloc, b"tstl ", text)? {
        return Ok(Some(Mistake::NoLiteral(text)));
    }
    Ok(None)
}

fn why_value(alloc: Global, text: &[u8]) -> Result<Mistake<'_>, AllocError>
    ensures { IfOk result (λ why. why_of why ≡ why_value text.now) }
{
    if is_target(alloc, text)? {
        Ok(Mistake::ValueAlone(text))
    } else {
        Ok(Mistake::NoOperand(text))
    }
}

// What a text that is no operand is.
#[tactic(auto, unfolding(crate::specs::Mistakes::why_specifier))]
fn why_specifier(alloc: Global, text: &[u8]) -> Result<Mistake<'_>, AllocError>
    ensures { IfOk result (λ why. why_of why ≡ why_specifier text.now) }
{
    if let Some(mistake) = why_register(text) {
        return Ok(mistake);
    }
    if let Some(mistake) = why_displacement(alloc, without_star(text))? {
        return Ok(mistake);
    }
    if let Some(mistake) = why_literal(alloc, text)? {
        return Ok(mistake);
    }
    why_value(alloc, text)
}

/// Why a text is no operand, or no target of a branch; none where it is one.
#[tactic(auto, unfolding(crate::specs::Mistakes::why_operand))]
pub fn why_operand(
    alloc: Global,
    branch: bool,
    text: &[u8],
) -> Result<Option<Mistake<'_>>, AllocError>
    ensures { IfOk result (λ why. option_map why_of why ≡ why_operand branch text.now) }
{
    if text.is_empty() {
        return Ok(Some(Mistake::Missing));
    }
    if branch {
        if is_target(alloc, text)? {
            return Ok(None);
        }
        return Ok(Some(Mistake::NoTarget(text)));
    }
    if is_operand(alloc, text)? {
        return Ok(None);
    }
    Ok(Some(why_specifier(alloc, text)?))
}

// The operands of a line, after a label, if there is one, and a word.
fn operands_in(line: &[u8]) -> &[u8]
    ensures { result.now ≡ operands_in line.now }
{
    if has(b':', line) {
        let (_, statement) = split_at_byte(b' ', line);
        return split_at_byte(b' ', statement).1;
    }
    split_at_byte(b' ', line).1
}

/// The first operand of a line that is a literal above 63, or below 0, for which an immediate would do, as a mistake.
#[tactic(auto, unfolding(crate::specs::Mistakes::wide_literal_in))]
pub fn wide_literal_in(alloc: Global, line: &[u8]) -> Result<Option<Mistake<'_>>, AllocError>
    ensures { IfOk result (λ why. option_map why_of why ≡ wide_literal_in line.now) }
{
    let (first, rest) = split_at_byte(b',', operands_in(line));
    if let Some(mistake) = why_literal(alloc, first)? {
        return Ok(Some(mistake));
    }
    let (second, rest) = split_at_byte(b',', rest);
    if let Some(mistake) = why_literal(alloc, second)? {
        return Ok(Some(mistake));
    }
    let (third, _) = split_at_byte(b',', rest);
    why_literal(alloc, third)
}

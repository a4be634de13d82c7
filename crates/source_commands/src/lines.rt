//! What is wrong with a whole line of a source, from its label on. Only the first mistake is told.
ghost use Rattle.std.specs.Prelude.{◌≡◌, ◌++◌, is_some, codes, IfOk};
ghost use Rattle.std.specs.Option.{option_copied};
ghost use Rattle.asm_grammar.specs.Lines.{lines_in};
ghost use Rattle.source_commands.specs.Mistakes.{why_of, is_label, why_after_label, why_labelled, why_parts, why_outside, text_of_line};

use crate::mistakes::Mistake;
use crate::statements::why_statement;
use crate::texts::{begins, has, has_unprintable, last_byte, split_at_byte};
use asm_grammar::{item_of, next_line};
use std::alloc::{AllocError, Global};

#[tactic(auto, unfolding(crate::specs::Mistakes::is_label))]
fn is_label(alloc: Global, text: &[u8]) -> Result<bool, AllocError>
    ensures { IfOk result (λ is. is ≡ is_label text.now) }
{
    let mut line = Vec::from_slice(alloc, text)?;
    line.push(b':')?;
    Ok(item_of(Some(line.as_slice())).is_some())
}

fn why_after_label(alloc: Global, text: &[u8]) -> Result<Mistake<'_>, AllocError>
    ensures { IfOk result (λ why. why_of why ≡ why_after_label text.now) }
{
    match text {
        [b' ', statement @ ..] if !begins(b' ', statement) => why_statement(alloc, statement),
        _ => Ok(Mistake::AfterLabel),
    }
}

fn why_labelled<'a>(
    alloc: Global,
    label: &'a [u8],
    rest: &'a [u8],
) -> Result<Mistake<'a>, AllocError>
    ensures { IfOk result (λ why. why_of why ≡ why_labelled label.now rest.now) }
{
    if is_label(alloc, label)? {
        why_after_label(alloc, rest)
    } else {
        Ok(Mistake::NoLabel(label))
    }
}

#[tactic(auto, unfolding(crate::specs::Mistakes::why_parts))]
fn why_parts(alloc: Global, text: &[u8]) -> Result<Mistake<'_>, AllocError>
    ensures { IfOk result (λ why. why_of why ≡ why_parts text.now) }
{
    if has(b':', text) {
        let (label, rest) = split_at_byte(b':', text);
        why_labelled(alloc, label, rest)
    } else {
        why_statement(alloc, text)
    }
}

/// What stands in a line outside the grammar that may not stand there: the first of these mistakes that it has. The line
/// has no line feed. Source: this project's profile.
#[tactic(auto, unfolding(crate::specs::Mistakes::why_outside))]
pub fn mistake_in(alloc: Global, line: &[u8]) -> Result<Mistake<'_>, AllocError>
    ensures { IfOk result (λ why. why_of why ≡ why_outside line.now) }
{
    if last_byte(line) == b'\r' {
        return Ok(Mistake::CarriageReturn);
    }
    if has(b'#', line) {
        return Ok(Mistake::Comment);
    }
    if has(b'\t', line) {
        return Ok(Mistake::Tab);
    }
    if has_unprintable(line) {
        return Ok(Mistake::Unprintable);
    }
    if begins(b' ', line) {
        return Ok(Mistake::SpaceBefore);
    }
    if last_byte(line) == b' ' {
        return Ok(Mistake::SpaceBehind);
    }
    why_parts(alloc, line)
}

/// The text of line n of a source, counted from 1, without its line feed: nothing where it isn't there, or has none.
#[tactic(auto, using(crate::proofs::Splits::line_reached, crate::proofs::Splits::line_further))]
pub fn text_of_line(source: &[u8], number: u32) -> &[u8]
    ensures { result.now ≡ text_of_line number (lines_in source.now) }
{
    let mut rest = source;
    let mut left = number;
    while !rest.is_empty() {
        let (line, more) = next_line(rest);
        if left <= 1 {
            return line.unwrap_or(&[]);
        }
        rest = more;
        left -= 1;
    }
    &[]
}

//! Reads a file of references, exactly by its grammar.
ghost use Rattle.std.specs.Prelude.{◌≡◌, ◌≢◌, ℕ, ◌^◌, ◌<◌, ◌≤◌, List, [], ◌∷◌, ◌++◌, length, vec_len, MatchOption, MatchBool, IfOk, Option, codes};
ghost use Rattle.vm_facts.specs.declared.page.Page.{Page as PageOf};
ghost use Rattle.run_text.specs.Text.{parts};
ghost use Rattle.run_text.specs.Transcript.{AllBelow, page_numbers};
ghost use Rattle.reference_answers.specs.Grammar.{page_word, IsReference, IsRemark, IsLineText, IsReferenceLine, most_references, IsReadReferences};
ghost use Rattle.reference_answers.specs.Adding.{ReadsAs, AddsOrRefuses};

use crate::references::References;
use run_text::{first_line, page_from, read_decimal, read_numbers, strip_end, strip_front};
use std::alloc::Global;
use vm_facts::{NoMemory, Page};

/// No file has more references.
pub const MOST_REFERENCES: usize = 4_000_000;

/// A file has at most the number of references that `vmrun --help` and FORMATS have.
pub fn references_are_documented()
    ensures { most_references ≡ 4000000 }
{}

// The two numbers, each after a space, that the text consists of.
fn read_pair(text: &[u8]) -> Option<(u32, u32)>
    ensures { MatchOption result ((a b : ℕ) → a < 2 ^ 32 → b < 2 ^ 32 → text.now ≢ parts (a ∷ b ∷ []))
        (λ pair. (text.now ≡ parts (pair.0 ∷ pair.1 ∷ [])) × (pair.0 < 2 ^ 32) × (pair.1 < 2 ^ 32)) }
{
    let Some(numbers) = read_numbers(text) else {
        return None;
    };
    let [first, second] = *numbers.as_slice() else {
        return None;
    };
    Some((first, second))
}

// The page that this names: the letter of a segment, and two numbers.
fn read_page(text: &[u8]) -> Option<Page>
    ensures { MatchOption result ((page : PageOf) → AllBelow 4294967296 (page_numbers page) → text.now ≢ page_word page)
        (λ page. AllBelow 4294967296 (page_numbers page) × (text.now ≡ page_word page)) }
{
    let Some((segment, rest)) = text.split_first() else {
        return None;
    };
    let Some((owner, number)) = read_pair(rest) else {
        return None;
    };
    let Some(page) = page_from(*segment, owner, number) else {
        return None;
    };
    Some(page)
}

// The reference of this text.
fn read_reference(text: &[u8]) -> Option<Page>
    ensures { MatchOption result ((page : PageOf) → IsReference page text.now → ⊥) (λ page. IsReference page text.now) }
{
    if let Some(v) = read_decimal(text) {
        return Some(Page::Data { sid: 0, v });
    }
    let Some(page) = read_page(text) else {
        return None;
    };
    Some(page)
}

// Whether this text has no reference.
fn is_remark(text: &[u8]) -> bool
    ensures { MatchBool result (IsRemark text.now) (IsRemark text.now → ⊥) }
{
    if text.is_empty() {
        return true;
    }
    strip_front(text, b"#").is_some()
}

// The reference of this text, if it has one.
fn read_text(text: &[u8]) -> Option<Option<Page>>
    ensures { MatchOption result ((read : Option PageOf) → IsLineText read text.now → ⊥) (λ read. ReadsAs read text.now) }
{
    if is_remark(text) {
        return Some(None);
    }
    let Some(page) = read_reference(text) else {
        return None;
    };
    Some(Some(page))
}

// Reads a line, and pushes its reference, if it has one. False where the line is bad.
fn add_line(refs: &mut Vec<Page>, line: &[u8]) -> Result<bool, NoMemory>
    requires { vec_len refs.old ≤ most_references }
    ensures { IfOk result (AddsOrRefuses refs.old.items refs.new.items line.now) }
{
    let Some(text) = strip_end(line, b"\n") else {
        return Ok(false);
    };
    let Some(read) = read_text(text) else {
        return Ok(false);
    };
    let Some(page) = read else {
        return Ok(true);
    };
    if refs.len() >= MOST_REFERENCES {
        return Ok(false);
    }
    refs.push(page)?;
    Ok(true)
}

/// Reads a file of references (this project's profile), and is exact: the references of its lines, or the number of the first line
/// that is none of a file, or that has a reference after 4,000,000 others. A last line without a line feed is bad. The one error is
/// that there is no memory left.
pub fn read_references(alloc: Global, bytes: &[u8]) -> Result<References, NoMemory>
    requires { length bytes.now < 2 ^ 32 }
    ensures { IfOk result (IsReadReferences bytes.now) }
{
    let mut refs = Vec::new(alloc);
    let mut rest = bytes;
    let mut line: u32 = 0;
    while !rest.is_empty() {
        line += 1;
        let (first, more) = first_line(rest);
        let good = add_line(&mut refs, first)?;
        if !good {
            return Ok(References::BadLine(line));
        }
        rest = more;
    }
    Ok(References::Are(refs))
}

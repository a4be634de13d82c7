//! Reads the line of one entry: a letter, numbers, pages, bytes.
ghost use Rattle.std.specs.Prelude.{◌≡◌, ℕ, ◌+◌, ◌==◌, ◌^◌, ◌<◌, ◌≤◌, List, [], ◌∷◌, ◌++◌, length, MatchOption, IfOk, IfSome, Some, None, codes};
ghost use Rattle.vm_facts.specs.declared.entry.Entry.{Entry};
ghost use Rattle.run_text.specs.Text.{hex_text, part, parts};
ghost use Rattle.run_text.specs.Transcript.{AllBelow, page_numbers, IsWithin, IsEntryLine};
ghost use Rattle.run_text.specs.EntryParts.{Counted, Paged, Written, body_text, entry_text, is_page_letter, with_none, with_one, with_two, with_four, with_five, from_numbers, page_from, page_alone, page_and_one, page_and_two, from_paged, segment_of, HasParts, HasPageParts};

use crate::hex::read_hex;
use crate::numbers::{read_numbers, read_part};
use crate::pieces::{strip_end, strip_front};
use std::alloc::Global;
use vm_facts::{Bytes, Entry, NoMemory, Page};

// The entry of a letter without numbers.
fn with_none(letter: u8) -> Option<Entry>
    ensures is { result ≡ with_none letter }
    ensures parts { IfSome result (HasParts letter (Counted [])) }
{
    match letter {
        b'D' => Some(Entry::Done),
        _ => None,
    }
}

// The entry of a letter and a number.
fn with_one(letter: u8, a: u32) -> Option<Entry>
    ensures is { result ≡ with_one letter a }
    ensures parts { IfSome result (HasParts letter (Counted (a ∷ []))) }
{
    match letter {
        b'e' => Some(Entry::Event { line: a }),
        b't' => Some(Entry::Turn { pid: a }),
        b'f' => Some(Entry::Refused { pid: a }),
        b's' => Some(Entry::Sleeps { pid: a }),
        b'O' => Some(Entry::SwapOut { pid: a }),
        b'I' => Some(Entry::SwapIn { pid: a }),
        b'H' if a > 0 => Some(Entry::Hands { count: a }),
        _ => None,
    }
}

// The entry of a letter and two numbers.
fn with_two(letter: u8, a: u32, b: u32) -> Option<Entry>
    ensures is { result ≡ with_two letter a b }
    ensures parts { IfSome result (HasParts letter (Counted (a ∷ b ∷ []))) }
{
    match letter {
        b'x' => Some(Entry::Ended { pid: a, status: b }),
        b'r' if b > 0 => Some(Entry::Ran { pid: a, count: b }),
        b'g' if b > 0 => Some(Entry::Grew { pid: a, pages: b }),
        _ => None,
    }
}

// The entry of a letter and four numbers.
fn with_four(letter: u8, a: u32, b: u32, c: u32, d: u32) -> Option<Entry>
    ensures is { result ≡ with_four letter a b c d }
    ensures parts { IfSome result (HasParts letter (Counted (a ∷ b ∷ c ∷ d ∷ []))) }
{
    match letter {
        b'M' => Some(Entry::Owners {
            free: a,
            used: b,
            moving: c,
            held: d,
        }),
        _ => None,
    }
}

// The entry of a letter and five numbers.
fn with_five(letter: u8, a: u32, b: u32, c: u32, d: u32, e: u32) -> Option<Entry>
    ensures is { result ≡ with_five letter a b c d e }
    ensures parts { IfSome result (HasParts letter (Counted (a ∷ b ∷ c ∷ d ∷ e ∷ []))) }
{
    match letter {
        b'c' if c < 2 => Some(Entry::Call {
            pid: a,
            number: b,
            carry: c == 1,
            r0: d,
            r1: e,
        }),
        _ => None,
    }
}

// The entry of a letter and numbers.
fn from_numbers(letter: u8, numbers: &[u32]) -> Option<Entry>
    ensures is { result ≡ from_numbers letter numbers.now }
    ensures parts { IfSome result (HasParts letter (Counted numbers.now)) }
{
    match *numbers {
        [] => with_none(letter),
        [a] => with_one(letter, a),
        [a, b] => with_two(letter, a, b),
        [a, b, c, d] => with_four(letter, a, b, c, d),
        [a, b, c, d, e] => with_five(letter, a, b, c, d, e),
        _ => None,
    }
}

/// The page of a segment's letter and two numbers: `d` and `s` with a space and a page, `x` with an image and a page.
pub fn page_from(segment: u8, a: u32, b: u32) -> Option<Page>
    ensures is { result ≡ page_from segment a b }
    ensures parts { IfSome result (λ page. (segment_of page ≡ segment) × (page_numbers page ≡ a ∷ b ∷ [])) }
{
    match segment {
        b'd' => Some(Page::Data { sid: a, v: b }),
        b's' => Some(Page::Stack { sid: a, v: b }),
        b'x' => Some(Page::Text { image: a, v: b }),
        _ => None,
    }
}

// The entry of a letter and a page.
fn page_alone(letter: u8, page: Page) -> Option<Entry>
    ensures is { result ≡ page_alone letter (Some page) }
    ensures parts { IfSome result (HasPageParts letter page []) }
{
    match letter {
        b'Z' => Some(Entry::Zero { page }),
        b'C' => Some(Entry::Copy { page }),
        b'R' => Some(Entry::Reclaim { page }),
        _ => None,
    }
}

// The entry of a letter, a page and a number.
fn page_and_one(letter: u8, page: Page, n: u32) -> Option<Entry>
    ensures is { result ≡ page_and_one letter (Some page) n }
    ensures parts { IfSome result (HasPageParts letter page (n ∷ [])) }
{
    match letter {
        b'P' if n > 0 => Some(Entry::Put { lo: page, n }),
        _ => None,
    }
}

// The entry of a letter, a page and two numbers.
fn page_and_two(letter: u8, page: Page, lo: u32, n: u32) -> Option<Entry>
    ensures is { result ≡ page_and_two letter (Some page) lo n }
    ensures parts { IfSome result (HasPageParts letter page (lo ∷ n ∷ [])) }
{
    match letter {
        b'G' if n > 0 => Some(Entry::Get { page, lo, n }),
        _ => None,
    }
}

// The entry of a letter, a segment's letter and numbers.
#[tactic(auto, using(crate::proofs::EntryTexts::page_parts))]
fn from_paged(letter: u8, segment: u8, numbers: &[u32]) -> Option<Entry>
    ensures is { result ≡ from_paged letter segment numbers.now }
    ensures parts { IfSome result (HasParts letter (Paged segment numbers.now)) }
{
    match *numbers {
        [a, b] => match page_from(segment, a, b) {
            Some(page) => page_alone(letter, page),
            None => None,
        },
        [a, b, n] => match page_from(segment, a, b) {
            Some(page) => page_and_one(letter, page, n),
            None => None,
        },
        [a, b, lo, n] => match page_from(segment, a, b) {
            Some(page) => page_and_two(letter, page, lo, n),
            None => None,
        },
        _ => None,
    }
}

// The entry of a letter and the numbers after it.
fn read_counted(letter: u8, rest: &[u8]) -> Option<Entry>
    ensures { MatchOption result ((ns : List ℕ) → length ns ≤ 5 → AllBelow 4294967296 ns → rest.now ≡ body_text (Counted ns)
        → from_numbers letter ns ≡ None) (λ e. (ns : List ℕ) × (rest.now ≡ body_text (Counted ns)) × HasParts letter (Counted ns) e) }
{
    let Some(numbers) = read_numbers(rest) else {
        return None;
    };
    let Some(entry) = from_numbers(letter, numbers.as_slice()) else {
        return None;
    };
    Some(entry)
}

// The entry of a letter, and a page and numbers after it.
fn read_paged(letter: u8, rest: &[u8]) -> Option<Entry>
    ensures { MatchOption result ((segment : ℕ) (ns : List ℕ) → length ns ≤ 5 → AllBelow 4294967296 ns → rest.now ≡ body_text (Paged segment ns)
        → from_paged letter segment ns ≡ None)
        (λ e. (segment : ℕ) × (ns : List ℕ) × (rest.now ≡ body_text (Paged segment ns)) × HasParts letter (Paged segment ns) e) }
{
    let Some(after) = strip_front(rest, b" ") else {
        return None;
    };
    let Some((segment, behind)) = after.split_first() else {
        return None;
    };
    let Some(numbers) = read_numbers(behind) else {
        return None;
    };
    let Some(entry) = from_paged(letter, *segment, numbers.as_slice()) else {
        return None;
    };
    Some(entry)
}

// The entry of a process and the bytes that it wrote.
fn read_written(alloc: Global, rest: &[u8]) -> Result<Option<Entry>, NoMemory>
    ensures { IfOk result (λ o. MatchOption o ((pid : ℕ) (bytes : List ℕ) → pid < 4294967296 → 1 ≤ length bytes → AllBelow 256 bytes
        → rest.now ≡ body_text (Written pid bytes) → ⊥)
        (λ e. (pid : ℕ) × (bytes : List ℕ) × (rest.now ≡ body_text (Written pid bytes)) × HasParts 111 (Written pid bytes) e)) }
{
    let Some((pid, behind)) = read_part(rest) else {
        return Ok(None);
    };
    let Some(digits) = strip_front(behind, b" ") else {
        return Ok(None);
    };
    if digits.is_empty() {
        return Ok(None);
    }
    match read_hex(alloc, digits) {
        Err(_) => Err(NoMemory),
        Ok(None) => Ok(None),
        Ok(Some(bytes)) => Ok(Some(Entry::Out {
            pid,
            bytes: Bytes::from_vec(bytes),
        })),
    }
}

// Whether an entry of this letter has a page.
fn is_page_letter(letter: u8) -> bool
    ensures { result ≡ is_page_letter letter }
{
    letter == b'Z' || letter == b'G' || letter == b'C' || letter == b'R' || letter == b'P'
}

// The entry of a line's text.
fn read_text(alloc: Global, text: &[u8]) -> Result<Option<Entry>, NoMemory>
    ensures { IfOk result (λ o. MatchOption o ((e : Entry) → IsWithin e → text.now ≡ entry_text e → ⊥) (λ e. IsWithin e × (text.now ≡ entry_text e))) }
{
    let Some((letter, rest)) = text.split_first() else {
        return Ok(None);
    };
    if *letter == b'o' {
        return read_written(alloc, rest);
    }
    if is_page_letter(*letter) {
        return Ok(read_paged(*letter, rest));
    }
    Ok(read_counted(*letter, rest))
}

/// The entry of a line.
pub fn read_entry_line(alloc: Global, line: &[u8]) -> Result<Option<Entry>, NoMemory>
    ensures { IfOk result (λ o. MatchOption o ((e : Entry) → IsEntryLine e line.now → ⊥) (λ e. IsEntryLine e line.now)) }
{
    let Some(text) = strip_end(line, b"\n") else {
        return Ok(None);
    };
    read_text(alloc, text)
}

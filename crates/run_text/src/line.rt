//! Writes the line of one entry. entry_reader.rt must read what is written here.
ghost use Rattle.std.specs.Prelude.{◌≡◌, ℕ, ◌/◌, ◌%◌, ◌<◌, List, [], ◌∷◌, ◌++◌, codes, decimal};
ghost use Rattle.run_text.specs.Text.{part, parts, rest_of_line, page_text, hex_digit, hex_pair, hex_text, bit_of, line_of};
ghost use Rattle.run_text.specs.Writing.{PutsText};

use crate::writer::Writer;
use io_edge::{Failed, Sink};
use itoa::Buffer;
use vm_facts::{Entry, Page};

// Puts one piece after another.
pub fn put_both<S: Sink>(out: &mut Writer<'_, S>, first: &[u8], second: &[u8]) -> Result<(), Failed>
    ensures { PutsText S.Sink result (first.now ++ second.now) out.old out.new }
{
    out.put(first)?;
    out.put(second)
}

// Puts a number after a space.
fn put_number<S: Sink>(out: &mut Writer<'_, S>, number: u32) -> Result<(), Failed>
    ensures { PutsText S.Sink result (part number) out.old out.new }
{
    let mut digits = Buffer::new();
    put_both(out, b" ", digits.format(number).as_bytes())
}

// Puts numbers, each after a space.
fn put_numbers<S: Sink>(out: &mut Writer<'_, S>, numbers: &[u32]) -> Result<(), Failed>
    ensures { PutsText S.Sink result (parts numbers.now) out.old out.new }
{
    for number in numbers {
        put_number(out, *number)?;
    }
    Ok(())
}

// Puts the rest of a line: numbers, each after a space, and the line's end.
fn put_rest<S: Sink>(out: &mut Writer<'_, S>, numbers: &[u32]) -> Result<(), Failed>
    ensures { PutsText S.Sink result (rest_of_line numbers.now) out.old out.new }
{
    put_numbers(out, numbers)?;
    out.put(b"\n")
}

// Puts a line of a letter and numbers.
fn put_line<S: Sink>(out: &mut Writer<'_, S>, head: &[u8], numbers: &[u32]) -> Result<(), Failed>
    ensures { PutsText S.Sink result (head.now ++ rest_of_line numbers.now) out.old out.new }
{
    out.put(head)?;
    put_rest(out, numbers)
}

/// Puts a name, and after it numbers, each after a space.
pub fn put_named<S: Sink>(
    out: &mut Writer<'_, S>,
    name: &[u8],
    numbers: &[u32],
) -> Result<(), Failed>
    ensures { PutsText S.Sink result (name.now ++ parts numbers.now) out.old out.new }
{
    out.put(name)?;
    put_numbers(out, numbers)
}

/// Puts a page after a space: the letter of its segment, its space or image, and its number.
pub fn put_page<S: Sink>(out: &mut Writer<'_, S>, page: &Page) -> Result<(), Failed>
    ensures { PutsText S.Sink result (page_text page.now) out.old out.new }
{
    match page {
        Page::Data { sid, v } => put_named(out, b" d", &[*sid, *v]),
        Page::Stack { sid, v } => put_named(out, b" s", &[*sid, *v]),
        Page::Text { image, v } => put_named(out, b" x", &[*image, *v]),
    }
}

// Puts a letter and a page.
fn put_page_head<S: Sink>(out: &mut Writer<'_, S>, head: &[u8], page: &Page) -> Result<(), Failed>
    ensures { PutsText S.Sink result (head.now ++ page_text page.now) out.old out.new }
{
    out.put(head)?;
    put_page(out, page)
}

// Puts a line of a letter, a page and numbers.
fn put_page_line<S: Sink>(
    out: &mut Writer<'_, S>,
    head: &[u8],
    page: &Page,
    numbers: &[u32],
) -> Result<(), Failed>
    ensures { PutsText S.Sink result (head.now ++ page_text page.now ++ rest_of_line numbers.now) out.old out.new }
{
    put_page_head(out, head, page)?;
    put_rest(out, numbers)
}

// A hexadecimal digit in lower case.
fn hex_digit(digit: u8) -> u8
    requires { digit < 16 }
    ensures { result ≡ hex_digit digit }
{
    if digit < 10 {
        b'0' + digit
    } else {
        b'a' - 10 + digit
    }
}

// A byte as a pair of hexadecimal digits.
fn hex_pair(byte: u8) -> [u8; 2]
    ensures { result ≡ hex_pair byte }
{
    [hex_digit(byte / 16), hex_digit(byte % 16)]
}

// Puts a byte as a pair of hexadecimal digits.
fn put_pair<S: Sink>(out: &mut Writer<'_, S>, byte: u8) -> Result<(), Failed>
    ensures { PutsText S.Sink result (hex_pair byte) out.old out.new }
{
    out.put(&hex_pair(byte))
}

// Puts bytes as pairs of hexadecimal digits.
fn put_hex<S: Sink>(out: &mut Writer<'_, S>, bytes: &[u8]) -> Result<(), Failed>
    ensures { PutsText S.Sink result (hex_text bytes.now) out.old out.new }
{
    for byte in bytes {
        put_pair(out, *byte)?;
    }
    Ok(())
}

// Puts what stands before the bytes that a process wrote.
fn put_out_head<S: Sink>(out: &mut Writer<'_, S>, pid: u32) -> Result<(), Failed>
    ensures { PutsText S.Sink result (codes "o" ++ parts (pid ∷ []) ++ codes " ") out.old out.new }
{
    put_named(out, b"o", &[pid])?;
    out.put(b" ")
}

// Puts the line of bytes that a process wrote, without its end.
fn put_out_bytes<S: Sink>(out: &mut Writer<'_, S>, pid: u32, bytes: &[u8]) -> Result<(), Failed>
    ensures { PutsText S.Sink result (codes "o" ++ parts (pid ∷ []) ++ codes " " ++ hex_text bytes.now) out.old out.new }
{
    put_out_head(out, pid)?;
    put_hex(out, bytes)
}

// Puts the line of bytes that a process wrote.
fn put_out_line<S: Sink>(out: &mut Writer<'_, S>, pid: u32, bytes: &[u8]) -> Result<(), Failed>
    ensures { PutsText S.Sink result (codes "o" ++ parts (pid ∷ []) ++ codes " " ++ hex_text bytes.now ++ codes "\n") out.old out.new }
{
    put_out_bytes(out, pid, bytes)?;
    out.put(b"\n")
}

/// The carry as a number.
pub fn bit_of(carry: bool) -> u32
    ensures { result ≡ bit_of carry }
{
    if carry { 1 } else { 0 }
}

// Puts the line of an entry.
#[tactic(auto, unfolding(crate::specs::Text::line_of))]
pub fn put_entry<S: Sink>(out: &mut Writer<'_, S>, e: &Entry) -> Result<(), Failed>
    ensures { PutsText S.Sink result (line_of e.now) out.old out.new }
{
    match e {
        Entry::Event { line } => put_line(out, b"e", &[*line]),
        Entry::Turn { pid } => put_line(out, b"t", &[*pid]),
        Entry::Ran { pid, count } => put_line(out, b"r", &[*pid, *count]),
        Entry::Out { pid, bytes } => put_out_line(out, *pid, bytes.as_slice()),
        Entry::Grew { pid, pages } => put_line(out, b"g", &[*pid, *pages]),
        Entry::Call {
            pid,
            number,
            carry,
            r0,
            r1,
        } => put_line(out, b"c", &[*pid, *number, bit_of(*carry), *r0, *r1]),
        Entry::Refused { pid } => put_line(out, b"f", &[*pid]),
        Entry::Sleeps { pid } => put_line(out, b"s", &[*pid]),
        Entry::Ended { pid, status } => put_line(out, b"x", &[*pid, *status]),
        Entry::Zero { page } => put_page_line(out, b"Z", page, &[]),
        Entry::Get { page, lo, n } => put_page_line(out, b"G", page, &[*lo, *n]),
        Entry::Copy { page } => put_page_line(out, b"C", page, &[]),
        Entry::Reclaim { page } => put_page_line(out, b"R", page, &[]),
        Entry::Hands { count } => put_line(out, b"H", &[*count]),
        Entry::Put { lo, n } => put_page_line(out, b"P", lo, &[*n]),
        Entry::Done => put_line(out, b"D", &[]),
        Entry::SwapOut { pid } => put_line(out, b"O", &[*pid]),
        Entry::SwapIn { pid } => put_line(out, b"I", &[*pid]),
        Entry::Owners {
            free,
            used,
            moving,
            held,
        } => put_line(out, b"M", &[*free, *used, *moving, *held]),
    }
}

//! Reads a whole trace, exactly by its grammar.
ghost use Rattle.std.specs.Prelude.{◌≡◌, ◌^◌, ◌<◌, true, false, length, IfOk, MatchOption};
ghost use Rattle.paged_model.specs.declared.line.Line.{Line as TraceLine};
ghost use Rattle.repage_command.specs.Grammar.{IsTraceLine, IsReadTrace};
ghost use Rattle.repage_command.specs.PartFrom.{begins_part};

use crate::part_reader::{is_part_letter, read_part_text};
use crate::trace::Trace;
use paged_model::Line;
use run_text::{first_line, read_entry_line, strip_end};
use std::alloc::Global;
use vm_facts::NoMemory;

// Whether a line begins with the letter of a part.
fn is_part(line: &[u8]) -> bool
    ensures { result ≡ begins_part line.now }
{
    match line.first() {
        Some(letter) => is_part_letter(*letter),
        None => false,
    }
}

// The part of a line that begins as such.
fn read_part(line: &[u8]) -> Option<Line>
    requires { begins_part line.now ≡ true }
    ensures { MatchOption result ((l : TraceLine) → IsTraceLine l line.now → ⊥) (λ l. IsTraceLine l line.now) }
{
    let Some(text) = strip_end(line, b"\n") else {
        return None;
    };
    let Some(part) = read_part_text(text) else {
        return None;
    };
    Some(Line::Part(part))
}

// The entry of a line that doesn't begin as a part's.
fn read_entry(alloc: Global, line: &[u8]) -> Result<Option<Line>, NoMemory>
    requires { begins_part line.now ≡ false }
    ensures { IfOk result (λ o. MatchOption o ((l : TraceLine) → IsTraceLine l line.now → ⊥) (λ l. IsTraceLine l line.now)) }
{
    match read_entry_line(alloc, line)? {
        Some(entry) => Ok(Some(Line::RunLine(entry))),
        None => Ok(None),
    }
}

// The entry or the part of a line.
fn read_line(alloc: Global, line: &[u8]) -> Result<Option<Line>, NoMemory>
    ensures { IfOk result (λ o. MatchOption o ((l : TraceLine) → IsTraceLine l line.now → ⊥) (λ l. IsTraceLine l line.now)) }
{
    if is_part(line) {
        Ok(read_part(line))
    } else {
        read_entry(alloc, line)
    }
}

/// Reads a trace, and is exact: its lines, or the number of the first one that is of no entry and of no part within its ranges. Entries are
/// written as in a transcript. The line of a part has its letter, a page, and for a `W` a count of at least 1.
pub fn read_trace(alloc: Global, bytes: &[u8]) -> Result<Trace, NoMemory>
    requires { length bytes.now < 2 ^ 32 }
    ensures { IfOk result (IsReadTrace bytes.now) }
{
    let mut lines = Vec::new(alloc);
    let mut rest = bytes;
    let mut number: u32 = 0;
    while !rest.is_empty() {
        number += 1;
        let (first, more) = first_line(rest);
        let line = match read_line(alloc, first) {
            Ok(Some(line)) => line,
            Ok(None) => return Ok(Trace::BadLine(number)),
            Err(_) => return Err(NoMemory),
        };
        let Ok(()) = lines.push(line) else {
            return Err(NoMemory);
        };
        rest = more;
    }
    Ok(Trace::Is(lines))
}

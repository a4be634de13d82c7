//! Reads a schedule, exactly by its grammar.
ghost use Rattle.std.specs.Prelude.{◌≡◌, ℕ, ◌^◌, ◌≤◌, ◌<◌, List, ◌++◌, MatchOption, IfOk, codes, length};
ghost use Rattle.vm_facts.specs.declared.event.Event.{Event};
ghost use Rattle.run_text.specs.Schedule.{Writes, IsEvent, IsEventLine, IsReadSchedule, AreInRanges};

use crate::answers::Schedule;
use crate::limits::{LAST_PROCESS, MOST_MOVES, MOST_TURN, SCHEDULE_LINES};
use crate::pieces::{first_line, read_digits, split_word, strip_end, strip_front};
use std::alloc::Global;
use vm_facts::{Event, NoMemory};

// A number from 1 to `most` in 1 to 8 digits.
fn read_number(text: &[u8], most: u32) -> Option<u32>
    ensures { MatchOption result ((n : ℕ) → n < 2 ^ 32 → Writes most text.now n → ⊥) (λ n. Writes most text.now n) }
{
    if text.len() > 8 {
        return None;
    }
    let Some(number) = read_digits(text) else {
        return None;
    };
    if number == 0 || number > most {
        return None;
    }
    Some(number)
}

// The event whose text is `d ` and this.
fn read_dispatch(rest: &[u8]) -> Option<Event>
    ensures { MatchOption result ((e : Event) → IsEvent e (codes "d " ++ rest.now) → ⊥) (λ e. IsEvent e (codes "d " ++ rest.now)) }
{
    let Some((first, second)) = split_word(rest) else {
        return None;
    };
    let Some(pid) = read_number(first, LAST_PROCESS) else {
        return None;
    };
    let Some(count) = read_number(second, MOST_TURN) else {
        return None;
    };
    Some(Event::Dispatch { pid, count })
}

// The event whose text is `h ` and this.
fn read_hands(rest: &[u8]) -> Option<Event>
    ensures { MatchOption result ((e : Event) → IsEvent e (codes "h " ++ rest.now) → ⊥) (λ e. IsEvent e (codes "h " ++ rest.now)) }
{
    let Some(count) = read_number(rest, MOST_MOVES) else {
        return None;
    };
    Some(Event::Hands { count })
}

// The event of this text.
fn read_event(text: &[u8]) -> Option<Event>
    ensures { MatchOption result ((e : Event) → IsEvent e text.now → ⊥) (λ e. IsEvent e text.now) }
{
    if text == b"i".as_slice() {
        return Some(Event::Interrupt);
    }
    if text == b"w".as_slice() {
        return Some(Event::Swapper);
    }
    if text == b"m".as_slice() {
        return Some(Event::Audit);
    }
    if let Some(rest) = strip_front(text, b"d ") {
        return read_dispatch(rest);
    }
    if let Some(rest) = strip_front(text, b"h ") {
        return read_hands(rest);
    }
    None
}

// The event of this line.
fn read_event_line(line: &[u8]) -> Option<Event>
    ensures { MatchOption result ((e : Event) → IsEventLine e line.now → ⊥) (λ e. IsEventLine e line.now) }
{
    let Some(text) = strip_end(line, b"\n") else {
        return None;
    };
    read_event(text)
}

/// Reads a schedule (this project's profile), and is exact: the events of its lines, or the number of
/// the first line that is none of an event, or that stands after 65,536 lines. A last line without a
/// line feed is bad. The lines are `d PID COUNT`, `i`, `h COUNT`, `w` and `m`.
pub fn read_schedule(alloc: Global, bytes: &[u8]) -> Result<Schedule, NoMemory>
    ensures exact { IfOk result (IsReadSchedule bytes.now) }
    ensures ranges { IfOk result AreInRanges }
{
    let mut events = Vec::new(alloc);
    let mut rest = bytes;
    let mut line: u32 = 1;
    while !rest.is_empty() {
        if line > SCHEDULE_LINES {
            return Ok(Schedule::BadLine(line));
        }
        let (first, more) = first_line(rest);
        let Some(event) = read_event_line(first) else {
            return Ok(Schedule::BadLine(line));
        };
        let Ok(()) = events.push(event) else {
            return Err(NoMemory);
        };
        rest = more;
        line += 1;
    }
    Ok(Schedule::Is(events))
}

//! What is wrong in a line of a schedule, from left to right. A law holds these reasons to the grammar.
ghost use Rattle.std.specs.Prelude.{◌≡◌, ◌==◌, List, [], ◌∷◌, option_map, codes};
ghost use Rattle.std.specs.List.{list_any};
ghost use Rattle.line_reasons.specs.ScheduleReasons.{why_of, most_of, why_value, why_number, why_more, why_numbers, no_event, is_plain, why_event, why_text, why_line, why_at, RefusedHaveReasons};

use crate::digits::decimal_of;
use crate::lines::{ends_in, line_at, rest_in, text_in, word_in};
use run_text::{LAST_PROCESS, MOST_MOVES, MOST_TURN, SCHEDULE_LINES};

/// A number of an event, which is at least 1.
#[derive(Clone, Copy, PartialEq, Eq, Debug, Drop)]
pub enum Argument {
    /// The number of the process whose turn it is.
    Process,
    /// How many instructions it may run.
    Turn,
    /// How often the hands of the clock move.
    Moves,
}

/// Why a line of a schedule is bad. It is the first of these that is met, from left to right, and a line feed is looked
/// for last.
#[derive(Clone, Copy, Debug, Drop)]
pub enum Reason<'a> {
    /// It stands after as many lines as a schedule may have.
    TooManyLines,
    /// Nothing stands in it.
    NoWord,
    /// It ends with a carriage return.
    CarriageReturn,
    /// A tab stands in it.
    Tab,
    /// A blank stands before or after its parts, or next to another.
    Blank,
    /// Its first part is a capital letter, and this small one is an event.
    Capital(u8),
    /// Its first part is no event.
    NoEvent(&'a [u8]),
    /// A number is missing.
    Missing(Argument),
    /// What stands for a number isn't 1 to 8 digits.
    NotNumber(Argument, &'a [u8]),
    /// A number is out of its range.
    OutOfRange(Argument, &'a [u8]),
    /// The event has fewer parts.
    TooMany(&'a [u8]),
    /// It is the line of an event but for its line feed.
    NoLineFeed,
}

impl Argument {
    /// The most that it may be.
    pub fn most(self) -> u32
        ensures { result ≡ most_of self }
    {
        match self {
            Argument::Process => LAST_PROCESS,
            Argument::Turn => MOST_TURN,
            Argument::Moves => MOST_MOVES,
        }
    }
}

fn why_value<'a>(argument: Argument, word: &'a [u8], value: Option<u32>) -> Option<Reason<'a>>
    ensures { option_map why_of result ≡ why_value argument word.now value }
{
    let Some(value) = value else {
        return Some(Reason::NotNumber(argument, word));
    };
    if (1..=argument.most()).contains(&value) {
        None
    } else {
        Some(Reason::OutOfRange(argument, word))
    }
}

// What is wrong with a word for a number.
#[tactic(auto, unfolding(crate::specs::ScheduleReasons::why_number))]
fn why_number<'a>(argument: Argument, word: &'a [u8]) -> Option<Reason<'a>>
    ensures { option_map why_of result ≡ why_number argument word.now }
{
    match word {
        [] => Some(Reason::Blank),
        _ => why_value(argument, word, decimal_of(word)),
    }
}

fn why_more<'a>(word: &'a [u8]) -> Reason<'a>
    ensures { why_of result ≡ why_more word.now }
{
    match word {
        [] => Reason::Blank,
        _ => Reason::TooMany(word),
    }
}

// What is wrong after an event's letter, which these numbers follow in order.
#[tactic(auto, unfolding(crate::specs::ScheduleReasons::why_numbers))]
fn why_numbers<'a>(arguments: &[Argument], rest: Option<&'a [u8]>) -> Option<Reason<'a>>
    ensures { option_map why_of result ≡ why_numbers arguments.now (option_map (λ text. text.now) rest.entry) }
{
    match (arguments, rest) {
        ([], None) => None,
        ([], Some(text)) => Some(why_more(word_in(text))),
        ([argument, ..], None) => Some(Reason::Missing(*argument)),
        ([argument, others @ ..], Some(text)) => {
            match why_number(*argument, word_in(text)) {
                Some(reason) => Some(reason),
                None => why_numbers(others, rest_in(text)),
            }
        }
    }
}

// A word that is no event's letter.
#[tactic(auto, unfolding(crate::specs::ScheduleReasons::no_event))]
fn no_event<'a>(word: &'a [u8]) -> Reason<'a>
    ensures { why_of result ≡ no_event word.now }
{
    if word == b"D".as_slice() {
        Reason::Capital(b'd')
    } else if word == b"I".as_slice() {
        Reason::Capital(b'i')
    } else if word == b"H".as_slice() {
        Reason::Capital(b'h')
    } else if word == b"W".as_slice() {
        Reason::Capital(b'w')
    } else if word == b"M".as_slice() {
        Reason::Capital(b'm')
    } else {
        Reason::NoEvent(word)
    }
}

// Whether a word is the letter of an event without a number.
#[tactic(auto, unfolding(crate::specs::ScheduleReasons::is_plain))]
fn is_plain(word: &[u8]) -> bool
    ensures { result ≡ is_plain word.now }
{
    word == b"i".as_slice() || word == b"w".as_slice() || word == b"m".as_slice()
}

// What is wrong with the first word, or after it.
#[tactic(auto, unfolding(crate::specs::ScheduleReasons::why_event))]
fn why_event<'a>(word: &'a [u8], rest: Option<&'a [u8]>) -> Option<Reason<'a>>
    ensures { option_map why_of result ≡ why_event word.now (option_map (λ text. text.now) rest.entry) }
{
    if word.is_empty() {
        Some(Reason::Blank)
    } else if word == b"d".as_slice() {
        why_numbers(&[Argument::Process, Argument::Turn], rest)
    } else if word == b"h".as_slice() {
        why_numbers(&[Argument::Moves], rest)
    } else if is_plain(word) {
        why_numbers(&[], rest)
    } else {
        Some(no_event(word))
    }
}

fn has_tab(text: &[u8]) -> bool
    ensures { result ≡ list_any (λ byte. byte == 9) text.now }
{
    text.iter().any(|byte| *byte == b'\t')
}

// What is wrong with a line before its line feed.
#[tactic(auto, unfolding(crate::specs::ScheduleReasons::why_text))]
fn why_text<'a>(text: &'a [u8]) -> Option<Reason<'a>>
    ensures { option_map why_of result ≡ why_text text.now }
{
    if text.is_empty() {
        Some(Reason::NoWord)
    } else if ends_in(b'\r', text) {
        Some(Reason::CarriageReturn)
    } else if has_tab(text) {
        Some(Reason::Tab)
    } else {
        why_event(word_in(text), rest_in(text))
    }
}

// What is wrong with a line.
#[tactic(auto, unfolding(crate::specs::ScheduleReasons::why_line))]
fn why_line<'a>(line: &'a [u8]) -> Option<Reason<'a>>
    ensures { option_map why_of result ≡ why_line line.now }
{
    if let Some(reason) = why_text(text_in(line)) {
        return Some(reason);
    }
    if ends_in(b'\n', line) {
        None
    } else {
        Some(Reason::NoLineFeed)
    }
}

/// Why the line of this number, counted from 1, is bad. None where it is the line of an event that may stand there.
/// Source: this project's profile.
#[tactic(auto, unfolding(crate::specs::ScheduleReasons::why_at))]
pub fn bad_line<'a>(bytes: &'a [u8], number: u32) -> Option<Reason<'a>>
    ensures { option_map why_of result ≡ why_at number bytes.now }
{
    if number <= SCHEDULE_LINES {
        why_line(line_at(bytes, number))
    } else {
        Some(Reason::TooManyLines)
    }
}

/// A line has a reason exactly where it is the line of no event.
pub fn refused_lines_have_reasons()
    ensures { RefusedHaveReasons }
{}

//! What is wrong in a line of references, from left to right. A law holds these reasons to the grammar.
ghost use Rattle.std.specs.Prelude.{◌≡◌, ◌==◌, List, [], ◌∷◌, option_map, codes};
ghost use Rattle.std.specs.List.{list_any};
ghost use Rattle.line_reasons.specs.ReferenceReasons.{why_of, is_number, why_number, why_more, why_numbers, is_segment, why_reference, why_text, why_line, why_at, RefusedHaveReasons};

use crate::lines::{ends_in, line_at, rest_in, text_in, word_in};
use run_text::read_decimal;

/// A number of a page.
#[derive(Clone, Copy, PartialEq, Eq, Debug, Drop)]
pub enum Argument {
    /// The number of the space, or of the image of a text.
    Owner,
    /// The number of the page in it.
    Place,
}

/// Why a line of a file of references is bad. It is the first of these that is met, from left to right; a line feed is
/// looked for after that, and last how many references there are.
#[derive(Clone, Copy, Debug, Drop)]
pub enum Reason<'a> {
    /// It ends with a carriage return.
    CarriageReturn,
    /// A tab stands in it.
    Tab,
    /// A blank stands before or after its parts, or next to another.
    Blank,
    /// Its first part is neither the letter of a segment nor a number.
    NoReference(&'a [u8]),
    /// A number is missing.
    Missing(Argument),
    /// What stands for a number is none of 32 bits, or has a zero in front.
    NotNumber(Argument, &'a [u8]),
    /// The reference has fewer parts.
    TooMany(&'a [u8]),
    /// It is good but for its line feed.
    NoLineFeed,
    /// It is good, and has a reference after as many as there may be.
    TooManyReferences,
}

// Whether a word is the decimal of a number.
#[tactic(auto, using(crate::proofs::ReferenceNumerals::tells_number))]
fn is_number(word: &[u8]) -> bool
    ensures { result ≡ is_number word.now }
{
    read_decimal(word).is_some()
}

// What is wrong with a word for a number.
#[tactic(auto, unfolding(crate::specs::ReferenceReasons::why_number))]
fn why_number<'a>(argument: Argument, word: &'a [u8]) -> Option<Reason<'a>>
    ensures { option_map why_of result ≡ why_number argument word.now }
{
    match word {
        [] => Some(Reason::Blank),
        _ if is_number(word) => None,
        _ => Some(Reason::NotNumber(argument, word)),
    }
}

// What is wrong with a word for which there is no number.
fn why_more<'a>(word: &'a [u8]) -> Reason<'a>
    ensures { why_of result ≡ why_more word.now }
{
    match word {
        [] => Reason::Blank,
        _ => Reason::TooMany(word),
    }
}

// What is wrong after the first word, which these numbers follow in order.
#[tactic(auto, unfolding(crate::specs::ReferenceReasons::why_numbers))]
fn why_numbers<'a>(arguments: &[Argument], rest: Option<&'a [u8]>) -> Option<Reason<'a>>
    ensures { option_map why_of result ≡ why_numbers arguments.now (option_map (λ text. text.now) rest.entry) }
{
    match (arguments, rest) {
        ([], None) => None,
        ([], Some(text)) => Some(why_more(word_in(text))),
        ([argument, ..], None) => Some(Reason::Missing(*argument)),
        ([argument, others @ ..], Some(text)) => {
            match why_number(*argument, word_in(text)) {
                Some(reason) => Some(reason),
                None => why_numbers(others, rest_in(text)),
            }
        }
    }
}

// Whether a word is the letter of a segment.
#[tactic(auto, unfolding(crate::specs::ReferenceReasons::is_segment))]
fn is_segment(word: &[u8]) -> bool
    ensures { result ≡ is_segment word.now }
{
    word == b"d".as_slice() || word == b"s".as_slice() || word == b"x".as_slice()
}

// What is wrong with the first word, or after it.
#[tactic(auto, unfolding(crate::specs::ReferenceReasons::why_reference))]
fn why_reference<'a>(word: &'a [u8], rest: Option<&'a [u8]>) -> Option<Reason<'a>>
    ensures { option_map why_of result ≡ why_reference word.now (option_map (λ text. text.now) rest.entry) }
{
    if word.is_empty() {
        Some(Reason::Blank)
    } else if is_segment(word) {
        why_numbers(&[Argument::Owner, Argument::Place], rest)
    } else if is_number(word) {
        why_numbers(&[], rest)
    } else {
        Some(Reason::NoReference(word))
    }
}

fn has_tab(text: &[u8]) -> bool
    ensures { result ≡ list_any (λ byte. byte == 9) text.now }
{
    text.iter().any(|byte| *byte == b'\t')
}

// What is wrong with a line before its line feed.
#[tactic(auto, unfolding(crate::specs::ReferenceReasons::why_text))]
fn why_text<'a>(text: &'a [u8]) -> Option<Reason<'a>>
    ensures { option_map why_of result ≡ why_text text.now }
{
    if text.is_empty() || text[0] == b'#' {
        None
    } else if ends_in(b'\r', text) {
        Some(Reason::CarriageReturn)
    } else if has_tab(text) {
        Some(Reason::Tab)
    } else {
        why_reference(word_in(text), rest_in(text))
    }
}

// What is wrong with a line.
#[tactic(auto, unfolding(crate::specs::ReferenceReasons::why_line))]
fn why_line<'a>(line: &'a [u8]) -> Option<Reason<'a>>
    ensures { option_map why_of result ≡ why_line line.now }
{
    if let Some(reason) = why_text(text_in(line)) {
        return Some(reason);
    }
    if ends_in(b'\n', line) {
        None
    } else {
        Some(Reason::NoLineFeed)
    }
}

/// Why the line of this number, counted from 1, is the first bad one of a file of references: what is wrong in it, or that it has a
/// reference after as many as there may be. Source: this project's profile.
#[tactic(auto, unfolding(crate::specs::ReferenceReasons::why_at))]
pub fn bad_line<'a>(bytes: &'a [u8], number: u32) -> Reason<'a>
    ensures { why_of result ≡ why_at number bytes.now }
{
    match why_line(line_at(bytes, number)) {
        Some(reason) => reason,
        None => Reason::TooManyReferences,
    }
}

/// A line has a reason exactly where it is none of a file of references.
pub fn refused_lines_have_reasons()
    ensures { RefusedHaveReasons }
{}

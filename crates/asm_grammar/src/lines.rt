//! Reads one line of a source: its label, and its directive or instruction. A line outside the grammar reads as
//! nothing; `source_commands` tells why.
ghost use Rattle.std.specs.Prelude.{◌≡◌, ◌<◌, ◌≤◌, ◌∷◌, length, not, ◌==◌};
ghost use Rattle.std.specs.Option.{option_copied};
ghost use Rattle.asm_grammar.specs.Text.{Gives, front_of};
ghost use Rattle.asm_grammar.specs.Lines.{whole_value, whole_number, directive_by, directive_of, instruction_of, statement_of, label_before, behind_label, by_label, line_by, line_of, lines_in, item_of, items_in};

use crate::numbers::number_of;
use crate::sentences::{is_short, sentence_of};
use crate::syntax::{Label, Number, SourceLine, Statement, Value};
use crate::text::after;
use crate::values::{label_of, split_word, value_of};

#[tactic(auto, unfolding(crate::specs::Lines::whole_value))]
fn whole_value(text: &[u8]) -> Option<Value>
    ensures { result ≡ whole_value text.now }
{
    let (value, rest) = value_of(text)?;
    if !rest.is_empty() {
        return None;
    }
    Some(value)
}

#[tactic(auto, unfolding(crate::specs::Lines::whole_number))]
fn whole_number(text: &[u8]) -> Option<Number>
    ensures { result ≡ whole_number text.now }
{
    let (number, rest) = number_of(text)?;
    if !rest.is_empty() {
        return None;
    }
    Some(number)
}

#[tactic(auto, unfolding(crate::specs::Lines::directive_by))]
fn directive_by(word: &[u8], text: &[u8]) -> Option<Statement>
    ensures { result ≡ directive_by word.now text.now }
{
    if word == b"byte".as_slice() {
        return Some(Statement::Byte(whole_value(text)?));
    }
    if word == b"word".as_slice() {
        return Some(Statement::Word(whole_value(text)?));
    }
    if word == b"long".as_slice() {
        return Some(Statement::Long(whole_value(text)?));
    }
    if word == b"space".as_slice() {
        return Some(Statement::Space(whole_number(text)?));
    }
    if word == b"bss".as_slice() {
        return Some(Statement::Bss(whole_number(text)?));
    }
    None
}

#[tactic(auto, unfolding(crate::specs::Lines::directive_of))]
fn directive_of(text: &[u8]) -> Option<Statement>
    ensures { result ≡ directive_of text.now }
{
    let (word, rest) = split_word(text);
    let rest = after(b' ', rest)?;
    directive_by(word, rest)
}

#[tactic(auto, unfolding(crate::specs::Lines::instruction_of))]
fn instruction_of(text: &[u8]) -> Option<Statement>
    ensures { result ≡ instruction_of text.now }
{
    let sentence = sentence_of(text)?;
    Some(Statement::Instruction(sentence))
}

#[tactic(auto, unfolding(crate::specs::Lines::statement_of))]
fn statement_of(text: &[u8]) -> Option<Statement>
    ensures { result ≡ statement_of text.now }
{
    match text {
        [] => None,
        [b'.', rest @ ..] => directive_of(rest),
        _ => instruction_of(text),
    }
}

#[tactic(auto, unfolding(crate::specs::Lines::label_before))]
fn label_before(text: &[u8]) -> Option<(Label, &[u8])>
    ensures { Gives (λ x. (x.0, x.1.now)) result (label_before text.now) }
{
    let (label, rest) = label_of(text)?;
    let rest = after(b':', rest)?;
    Some((label, rest))
}

#[tactic(auto, unfolding(crate::specs::Lines::behind_label))]
fn behind_label(label: Label, text: &[u8]) -> Option<SourceLine>
    ensures { result ≡ behind_label label text.now }
{
    match text {
        [] => Some(SourceLine {
            label: Some(label),
            statement: None,
        }),
        [b' ', rest @ ..] => {
            let statement = statement_of(rest)?;
            Some(SourceLine {
                label: Some(label),
                statement: Some(statement),
            })
        }
        _ => None,
    }
}

fn unlabelled_of(text: &[u8]) -> Option<SourceLine>
    ensures { result ≡ by_label text.now None }
{
    let statement = statement_of(text)?;
    Some(SourceLine {
        label: None,
        statement: Some(statement),
    })
}

#[tactic(auto, unfolding(crate::specs::Lines::line_by))]
fn line_by(text: &[u8]) -> Option<SourceLine>
    ensures { result ≡ line_by text.now }
{
    if text.is_empty() || text[0] == b'#' {
        return Some(SourceLine {
            label: None,
            statement: None,
        });
    }
    match label_before(text) {
        None => unlabelled_of(text),
        Some((label, rest)) => behind_label(label, rest),
    }
}

#[tactic(auto, unfolding(crate::specs::Lines::line_of))]
fn line_of(text: &[u8]) -> Option<SourceLine>
    ensures { result ≡ line_of text.now }
{
    if !is_short(text) {
        return None;
    }
    line_by(text)
}

// How many bytes stand before the first line feed.
fn line_len(text: &[u8]) -> usize
    ensures len { result ≡ length (front_of (λ byte. not (byte == 10)) text.now) }
    ensures within { result ≤ length text.now }
{
    for (i, byte) in text.iter().enumerate() {
        if *byte == b'\n' {
            return i;
        }
    }
    text.len()
}

/// The text of the first line, which is none where no line feed ends it, and the text after it.
pub fn next_line(text: &[u8]) -> (Option<&[u8]>, &[u8])
    requires { 0 < length text.now }
    ensures line { lines_in text.now ≡ option_copied result.0 ∷ lines_in result.1.now }
    ensures shorter { length result.1.now < length text.now }
{
    let (line, rest) = text.split_at(line_len(text));
    match rest {
        [] => (None, rest),
        [_, more @ ..] => (Some(line), more),
    }
}

/// What a line says. None where it is outside the grammar, too long, or has no line feed.
pub fn item_of(line: Option<&[u8]>) -> Option<SourceLine>
    ensures { result ≡ item_of (option_copied line.entry) }
{
    line_of(line?)
}

/// What the first line says, and the text after it.
#[tactic(auto, using(crate::proofs::Items::item_by_line))]
pub fn next_item(text: &[u8]) -> (Option<SourceLine>, &[u8])
    requires { 0 < length text.now }
    ensures item { items_in text.now ≡ result.0 ∷ items_in result.1.now }
    ensures shorter { length result.1.now < length text.now }
{
    let (line, rest) = next_line(text);
    (item_of(line), rest)
}

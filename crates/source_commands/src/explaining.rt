//! The line that tells why a source is bad: the line's number, the mistake, and where it stands.
ghost use Rattle.std.specs.Prelude.{◌≡◌, ◌++◌, IfOk, IfErr, OnOk, option_map};
ghost use Rattle.io_edge.specs.Calls.{KeepsFiles};
ghost use Rattle.command_edge.specs.Answering.{CountsFault};
ghost use Rattle.vax_asm.specs.declared.answers.Reason.TheVariants.{ValueOutOfRange};
ghost use Rattle.source_commands.specs.Mistakes.{why_of, WrongCount, RegisterName, NoSize, NoLiteral, ValueAlone, Other};
ghost use Rattle.source_commands.specs.Explaining.{around_label, count_text, taken_text, why_text, advice_text, reason_text, explanation, ExplainsSource, LacksSource};

use crate::lines::{mistake_in, text_of_line};
use crate::mistakes::Mistake;
use crate::operands::wide_literal_in;
use crate::source::SOURCE_BYTES;
use command_edge::{Unread, put_number, read_file};
use io_edge::Files;
use itoa::Buffer;
use std::alloc::{AllocError, Global};
use vax_asm::{BadLine, Label, Reason, explain};

// Puts the name of a label between two texts.
fn put_label(
    text: &mut Vec<u8>,
    before: &[u8],
    label: &Label,
    behind: &[u8],
) -> Result<(), AllocError>
    ensures { OnOk result (text.new.items ≡ text.old.items ++ around_label before.now label.now behind.now) }
{
    text.extend_from_slice(before)?;
    text.extend_from_slice(label.name())?;
    text.extend_from_slice(behind)
}

// Puts two texts, one after the other.
fn put_two(text: &mut Vec<u8>, one: &[u8], two: &[u8]) -> Result<(), AllocError>
    ensures { OnOk result (text.new.items ≡ text.old.items ++ (one.now ++ two.now)) }
{
    text.extend_from_slice(one)?;
    text.extend_from_slice(two)
}

// Puts three.
fn put_three(text: &mut Vec<u8>, one: &[u8], two: &[u8], three: &[u8]) -> Result<(), AllocError>
    ensures { OnOk result (text.new.items ≡ text.old.items ++ (one.now ++ (two.now ++ three.now))) }
{
    text.extend_from_slice(one)?;
    put_two(text, two, three)
}

fn put_count(text: &mut Vec<u8>, count: u8) -> Result<(), AllocError>
    ensures { OnOk result (text.new.items ≡ text.old.items ++ count_text count) }
{
    match count {
        0 => text.extend_from_slice(b"no operand"),
        1 => text.extend_from_slice(b"1 operand"),
        _ => {
            put_number(text, u32::from(count))?;
            text.extend_from_slice(b" operands")
        }
    }
}

fn put_wrong_count(
    text: &mut Vec<u8>,
    mnemonic: &[u8],
    wanted: u8,
    given: usize,
) -> Result<(), AllocError>
    ensures { OnOk result (text.new.items ≡ text.old.items ++ why_text (WrongCount mnemonic.now wanted given)) }
{
    put_two(text, mnemonic, b" takes ")?;
    put_count(text, wanted)?;
    text.extend_from_slice(b", not ")?;
    text.extend_from_slice(Buffer::new().format(given).as_bytes())
}

// What a directive takes.
fn taken_text(directive: &[u8]) -> &'static [u8]
    ensures { result.now ≡ taken_text directive.now }
{
    if directive == b".space".as_slice() || directive == b".bss".as_slice() {
        return b"one number";
    }
    b"one number or label"
}

fn put_register_name(text: &mut Vec<u8>, name: &[u8], number: u8) -> Result<(), AllocError>
    ensures { OnOk result (text.new.items ≡ text.old.items ++ why_text (RegisterName name.now number)) }
{
    put_two(text, name, b" is no name of a register: write r")?;
    put_number(text, u32::from(number))
}

fn put_no_size(text: &mut Vec<u8>, operand: &[u8], size: u8) -> Result<(), AllocError>
    ensures { OnOk result (text.new.items ≡ text.old.items ++ why_text (NoSize operand.now size)) }
{
    put_two(text, operand, b" has no size: write ")?;
    text.push(size)?;
    put_two(text, b"^", operand)
}

fn put_no_literal(text: &mut Vec<u8>, operand: &[u8]) -> Result<(), AllocError>
    ensures { OnOk result (text.new.items ≡ text.old.items ++ why_text (NoLiteral operand.now)) }
{
    put_two(text, operand, b" is no short literal, 0 to 63: write i^")?;
    text.extend_from_slice(operand)
}

fn put_value_alone(text: &mut Vec<u8>, operand: &[u8]) -> Result<(), AllocError>
    ensures { OnOk result (text.new.items ≡ text.old.items ++ why_text (ValueAlone operand.now)) }
{
    text.extend_from_slice(operand)?;
    text.extend_from_slice(
        b" is the target of a branch: write i^$ before it for the value, *$ for what is there",
    )
}

fn put_other(text: &mut Vec<u8>) -> Result<(), AllocError>
    ensures { OnOk result (text.new.items ≡ text.old.items ++ why_text Other) }
{
    text.extend_from_slice(b"not a statement")
}

// Puts what stands in a line that is outside the grammar.
fn put_mistake(text: &mut Vec<u8>, mistake: Mistake<'_>) -> Result<(), AllocError>
    ensures { OnOk result (text.new.items ≡ text.old.items ++ why_text (why_of mistake.entry)) }
{
    match mistake {
        Mistake::CarriageReturn => {
            text.extend_from_slice(b"a carriage return stands before the line feed")
        }
        Mistake::Comment => {
            text.extend_from_slice(b"a comment has a line of its own, which begins with #")
        }
        Mistake::Tab => text.extend_from_slice(b"a tab stands in the line"),
        Mistake::Unprintable => {
            text.extend_from_slice(b"a byte stands in the line that is no printable ASCII")
        }
        Mistake::SpaceBefore => {
            text.extend_from_slice(b"a space stands at the beginning of the line")
        }
        Mistake::SpaceBehind => text.extend_from_slice(b"a space stands at the end of the line"),
        Mistake::NoLabel(label) => {
            let rule = b" is no label: 1 to 16 of a to z, _ and digits, no digit first";
            put_two(text, label, rule)
        }
        Mistake::AfterLabel => {
            text.extend_from_slice(b"one space stands between a label and its statement")
        }
        Mistake::Capital => text.extend_from_slice(b"a capital letter stands in the statement"),
        Mistake::NoDirective(word) => {
            let known = b": .byte, .word, .long, .space or .bss";
            put_three(text, b"unknown directive ", word, known)
        }
        Mistake::NoMnemonic(word) => put_two(text, b"unknown mnemonic ", word),
        Mistake::SpaceWithin => {
            text.extend_from_slice(b"a statement has one space, after its first word")
        }
        Mistake::NoValue(directive) => {
            put_three(text, directive, b" takes ", taken_text(directive))
        }
        Mistake::WrongCount(mnemonic, wanted, given) => {
            put_wrong_count(text, mnemonic, wanted, given)
        }
        Mistake::Missing => text.extend_from_slice(b"an operand is missing beside a comma"),
        Mistake::NoTarget(operand) => {
            put_two(
                text,
                operand,
                b" is no target of a branch: a label or a number",
            )
        }
        Mistake::RegisterName(name, number) => put_register_name(text, name, number),
        Mistake::NoSize(operand, size) => put_no_size(text, operand, size),
        Mistake::NoLiteral(operand) => put_no_literal(text, operand),
        Mistake::ValueAlone(operand) => put_value_alone(text, operand),
        Mistake::NoOperand(operand) => put_two(text, operand, b" is no operand"),
        Mistake::Other => put_other(text),
    }
}

// Puts what may be written in the place of a value out of its range.
fn put_advice(text: &mut Vec<u8>, advice: Option<Mistake<'_>>) -> Result<(), AllocError>
    ensures { OnOk result (text.new.items ≡ text.old.items ++ advice_text (option_map why_of advice.entry)) }
{
    match advice {
        None => Ok(()),
        Some(mistake) => {
            text.extend_from_slice(b": ")?;
            put_mistake(text, mistake)
        }
    }
}

fn put_out_of_range(alloc: Global, text: &mut Vec<u8>, line: &[u8]) -> Result<(), AllocError>
    ensures { OnOk result (text.new.items ≡ text.old.items ++ reason_text line.now ValueOutOfRange) }
{
    text.extend_from_slice(b"value out of range")?;
    put_advice(text, wide_literal_in(alloc, line)?)
}

// Puts why a line of this text is bad.
fn put_reason(
    alloc: Global,
    text: &mut Vec<u8>,
    line: &[u8],
    reason: &Reason,
) -> Result<(), AllocError>
    ensures { OnOk result (text.new.items ≡ text.old.items ++ reason_text line.now reason.now) }
{
    match reason {
        Reason::NoLineFeed => text.extend_from_slice(b"the last line has no line feed"),
        Reason::TooManyLines => text.extend_from_slice(b"too many lines"),
        Reason::LineTooLong => text.extend_from_slice(b"line too long"),
        Reason::NotStatement => put_mistake(text, mistake_in(alloc, line)?),
        Reason::LabelTwice(label) => put_label(text, b"label ", label, b" is defined twice"),
        Reason::UnknownLabel(label) => put_label(text, b"unknown label ", label, b""),
        Reason::ValueOutOfRange => put_out_of_range(alloc, text, line),
        Reason::BranchOutOfRange => text.extend_from_slice(b"branch out of range"),
        Reason::OperandRefused => text.extend_from_slice(b"operand refused"),
        Reason::SecondBss => text.extend_from_slice(b".bss stands twice"),
        Reason::ProgramTooLong => text.extend_from_slice(b"program too long"),
    }
}

// The line that tells why the bad line of a source is bad.
fn explanation(alloc: Global, source: &[u8], bad: &BadLine) -> Result<Vec<u8>, AllocError>
    ensures { IfOk result (λ text. text.items ≡ explanation source.now bad.now) }
{
    let mut text = Vec::from_slice(alloc, b"vmrun: line ")?;
    put_number(&mut text, bad.number)?;
    text.extend_from_slice(b": ")?;
    let line = text_of_line(source, bad.number);
    put_reason(alloc, &mut text, line, &bad.reason)?;
    text.push(b'\n')?;
    Ok(text)
}

/// Why `assemble_file` calls the source of this name bad: a line with the number of its lowest bad line and the reason,
/// as `vmrun: line 3: unknown label loop`. None where the source is a program. The file is read again, and nothing is
/// written (this project's profile). It is an error where the source isn't there, a file fails, or memory is refused.
#[tactic(auto, using(crate::proofs::Lacking::lacks_source))]
pub fn explain_source<F: Files>(
    alloc: Global,
    files: &mut F,
    name: &str,
) -> Result<Option<Vec<u8>>, Unread>
    ensures explains { IfOk result (λ text. ExplainsSource name.now (F.holds files.old) (option_map (λ line. line.items) text)) }
    ensures lacks { IfErr result (LacksSource name.now (F.holds files.old)) }
    ensures kept { KeepsFiles F.Files files.old files.new }
    ensures open_faults { CountsFault result (F.open_faults files.old) (F.open_faults files.new) }
    ensures page_faults { F.page_faults files.new ≡ F.page_faults files.old }
{
    let source = read_file(alloc, files, name, SOURCE_BYTES)?;
    match explain(alloc, source.as_slice()) {
        Ok(None) => Ok(None),
        Ok(Some(bad)) => Ok(Some(explanation(alloc, source.as_slice(), &bad)?)),
        Err(_) => Err(Unread::NoMemory),
    }
}

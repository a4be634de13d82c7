//! Why a source is no program: the first reason against its lowest bad line.
ghost use Rattle.std.specs.Prelude.{◌≡◌, ◌⊎◌, ◌+◌, ◌≤◌, ◌<◌, ◌^◌, true, IfOk, IfNone, Some};
ghost use Rattle.std.specs.Option.{option_copied};
ghost use Rattle.asm_grammar.specs.Encoding.{found};
ghost use Rattle.vax_asm.specs.Program.{labels_of, HasSmallBss};
ghost use Rattle.vax_asm.specs.Reasons.{unless, address_reason, value_reason, register_reason, place_reason, indexed_reason, target_reason, branch_reason, specifier_reason, absent_reason, operand_reason, sentence_reason, bss_reason, statement_reason, optional_reason, label_reason, line_reason, outside_reason, ExplainsAs};

use crate::answers::{BadLine, Reason};
use crate::encoding::{displacement_bits, leaves_index, literal_bytes, target_bytes, value_bits};
use crate::labels::{LabelTable, Labels};
use crate::program::{
    bss_after, define, is_up_to, item_size, labels_of, operand_size, statement_size,
};
use asm_grammar::{
    Label, Number, Place, Sentence, SourceLine, Statement, Value, Written, is_short, item_of,
    next_line,
};
use std::alloc::Global;
use vax_code::{Access, Row, Slot};
use vm_facts::NoMemory;

// No reason where something is so, and else this one.
fn unless(good: bool, reason: Reason) -> Option<Reason>
    ensures { result ≡ unless good reason }
{
    if good { None } else { Some(reason) }
}

fn address_reason(labels: &Labels, size: u8, label: Label) -> Option<Reason>
    ensures { result ≡ address_reason size label (found labels.now label) }
{
    let Some(definition) = labels.find(label) else {
        return Some(Reason::UnknownLabel(label));
    };
    let address = Number {
        negative: false,
        magnitude: u64::from(definition.address),
    };
    unless(value_bits(size, address).is_some(), Reason::ValueOutOfRange)
}

#[tactic(auto, unfolding(crate::specs::Reasons::value_reason))]
fn value_reason(labels: &Labels, size: u8, value: Value) -> Option<Reason>
    ensures { result ≡ value_reason labels.now size value }
{
    match value {
        Value::Number(number) => {
            unless(value_bits(size, number).is_some(), Reason::ValueOutOfRange)
        }
        Value::Label(label) => address_reason(labels, size, label),
    }
}

fn register_reason(reg: u8) -> Option<Reason>
    ensures { result ≡ register_reason reg }
{
    unless(reg < 15, Reason::OperandRefused)
}

#[tactic(auto, unfolding(crate::specs::Reasons::place_reason))]
fn place_reason(labels: &Labels, place: Place) -> Option<Reason>
    ensures { result ≡ place_reason labels.now place }
{
    match place {
        Place::Deferred(reg) | Place::AutoDec(reg) | Place::AutoInc(reg) | Place::AutoIncDef(reg) =>
            register_reason(reg),
        Place::Absolute(address) => value_reason(labels, 4, address),
        Place::Disp { size, reg, by, .. } if reg < 16 => {
            unless(
                displacement_bits(size, by).is_some(),
                Reason::ValueOutOfRange,
            )
        }
        Place::Disp { .. } => Some(Reason::OperandRefused),
    }
}

#[tactic(auto, unfolding(crate::specs::Reasons::indexed_reason))]
fn indexed_reason(labels: &Labels, index: u8, base: Place) -> Option<Reason>
    ensures { result ≡ indexed_reason labels.now index base }
{
    if index >= 15 || !leaves_index(index, base) {
        return Some(Reason::OperandRefused);
    }
    place_reason(labels, base)
}

#[tactic(auto, unfolding(crate::specs::Reasons::target_reason))]
fn target_reason(labels: &Labels, from: u64, slot: Slot, target: Value) -> Option<Reason>
    requires { from < 2 ^ 40 }
    ensures { result ≡ target_reason labels.now from slot target }
{
    if let Some(reason) = value_reason(labels, 4, target) {
        return Some(reason);
    }
    unless(
        target_bytes(labels, from, slot, target).is_some(),
        Reason::BranchOutOfRange,
    )
}

#[tactic(auto, unfolding(crate::specs::Reasons::branch_reason))]
fn branch_reason(labels: &Labels, from: u64, slot: Slot, written: Written) -> Option<Reason>
    requires { from < 2 ^ 40 }
    ensures { result ≡ branch_reason labels.now from slot written }
{
    match written {
        Written::Target(target) => target_reason(labels, from, slot, target),
        _ => Some(Reason::OperandRefused),
    }
}

#[tactic(auto, unfolding(crate::specs::Reasons::specifier_reason))]
fn specifier_reason(labels: &Labels, slot: Slot, written: Written) -> Option<Reason>
    ensures { result ≡ specifier_reason labels.now slot written }
{
    match written {
        Written::Literal(number) if slot.access == Access::Read => {
            unless(literal_bytes(number).is_some(), Reason::ValueOutOfRange)
        }
        Written::Register(reg) if slot.access != Access::Address => register_reason(reg),
        Written::Immediate(value) if slot.access == Access::Read => {
            value_reason(labels, slot.size, value)
        }
        Written::Plain(place) => place_reason(labels, place),
        Written::Indexed { index, base } => indexed_reason(labels, index, base),
        _ => Some(Reason::OperandRefused),
    }
}

fn absent_reason(written: Written) -> Option<Reason>
    ensures { result ≡ absent_reason written }
{
    match written {
        Written::Absent => None,
        _ => Some(Reason::OperandRefused),
    }
}

// Why an operand whose first byte would have this address is refused.
#[tactic(auto, unfolding(crate::specs::Reasons::operand_reason))]
fn operand_reason(
    labels: &Labels,
    from: u64,
    row: &Row,
    place: u8,
    written: Written,
) -> Option<Reason>
    requires { from < 2 ^ 40 }
    ensures { result ≡ operand_reason labels.now from row.now place written }
{
    if place >= row.count {
        return absent_reason(written);
    }
    let slot = row.slot(place);
    if slot.access == Access::Branch {
        return branch_reason(labels, from, slot, written);
    }
    specifier_reason(labels, slot, written)
}

#[tactic(auto, unfolding(crate::specs::Reasons::sentence_reason))]
fn sentence_reason(labels: &Labels, at: u32, sentence: &Sentence) -> Option<Reason>
    ensures { result ≡ sentence_reason labels.now at sentence.now }
{
    let row = sentence.row;
    let from = u64::from(at) + 1;
    if let Some(reason) = operand_reason(labels, from, &row, 0, sentence.a) {
        return Some(reason);
    }
    let from = from + u64::from(operand_size(&row, 0, sentence.a));
    if let Some(reason) = operand_reason(labels, from, &row, 1, sentence.b) {
        return Some(reason);
    }
    let from = from + u64::from(operand_size(&row, 1, sentence.b));
    operand_reason(labels, from, &row, 2, sentence.c)
}

fn bss_reason(with_bss: bool, number: Number) -> Option<Reason>
    ensures value { result ≡ bss_reason with_bss number }
    ensures small { IfNone result (number.magnitude ≤ 4194304) }
{
    if !is_up_to(4194304, number) {
        return Some(Reason::ValueOutOfRange);
    }
    unless(!with_bss, Reason::SecondBss)
}

#[tactic(auto, unfolding(crate::specs::Reasons::statement_reason))]
fn statement_reason(
    labels: &Labels,
    with_bss: bool,
    at: u32,
    statement: &Statement,
) -> Option<Reason>
    ensures value { result ≡ statement_reason labels.now with_bss at statement.now }
    ensures small { IfNone result (HasSmallBss true (Some statement.now)) }
{
    match statement {
        Statement::Byte(value) => value_reason(labels, 1, *value),
        Statement::Word(value) => value_reason(labels, 2, *value),
        Statement::Long(value) => value_reason(labels, 4, *value),
        Statement::Space(number) => unless(is_up_to(65536, *number), Reason::ValueOutOfRange),
        Statement::Bss(number) => bss_reason(with_bss, *number),
        Statement::Instruction(sentence) => sentence_reason(labels, at, sentence),
    }
}

fn label_reason(earlier: &LabelTable, label: Option<Label>) -> Option<Reason>
    ensures { result ≡ label_reason earlier.now label }
{
    let label = label?;
    unless(earlier.find(label).is_none(), Reason::LabelTwice(label))
}

// Why a line of the grammar is bad after others.
#[tactic(auto, unfolding(crate::specs::Reasons::line_reason))]
fn line_reason(
    labels: &Labels,
    earlier: &LabelTable,
    with_bss: bool,
    at: u32,
    line: &SourceLine,
) -> Option<Reason>
    requires { at ≤ 65536 }
    ensures value { result ≡ line_reason labels.now earlier.now with_bss at line.now }
    ensures small { IfNone result (HasSmallBss true line.now.statement) }
{
    if let Some(reason) = label_reason(earlier, line.label) {
        return Some(reason);
    }
    let Some(statement) = &line.statement else {
        return None;
    };
    if let Some(reason) = statement_reason(labels, with_bss, at, statement) {
        return Some(reason);
    }
    unless(
        at + statement_size(statement) <= 65536,
        Reason::ProgramTooLong,
    )
}

// Why a line outside the grammar is bad.
fn outside_reason(text: Option<&[u8]>) -> Reason
    ensures { result ≡ outside_reason (option_copied text.entry) }
{
    match text {
        None => Reason::NoLineFeed,
        Some(text) if is_short(text) => Reason::NotStatement,
        Some(_) => Reason::LineTooLong,
    }
}

// The lowest bad line of a source with these labels.
fn explain_with(alloc: Global, labels: &Labels, source: &[u8]) -> Result<Option<BadLine>, NoMemory>
    requires { labels.now ≡ labels_of source.now }
    ensures { IfOk result (ExplainsAs source.now) }
{
    let mut earlier = LabelTable::new(alloc);
    let mut at: u32 = 0;
    let mut bss = None;
    let mut rest = source;
    let mut number: u32 = 1;
    while !rest.is_empty() {
        if number > 4096 {
            let reason = Reason::TooManyLines;
            return Ok(Some(BadLine { number, reason }));
        }
        let (text, more) = next_line(rest);
        let item = item_of(text);
        let Some(line) = item else {
            let reason = outside_reason(text);
            return Ok(Some(BadLine { number, reason }));
        };
        if let Some(reason) = line_reason(labels, &earlier, bss.is_some(), at, &line) {
            return Ok(Some(BadLine { number, reason }));
        }
        earlier = define(earlier, at, &item)?;
        at += item_size(&item);
        bss = bss_after(bss, &line.statement);
        rest = more;
        number += 1;
    }
    Ok(None)
}

/// Why a source is no program: its lowest bad line, with the first reason against it. None where it is a program, so
/// `assemble` names a bad line exactly where this does, and the same one. Of a line with more than one fault the label
/// is told first, then the leftmost operand, then the limit of the program.
pub fn explain(alloc: Global, source: &[u8]) -> Result<Option<BadLine>, NoMemory>
    ensures { IfOk result (ExplainsAs source.now) }
{
    let labels = labels_of(alloc, source)?;
    explain_with(alloc, &labels, source)
}

//! Assembles a whole source in two passes: sizes and labels first, then bytes.
ghost use Rattle.std.specs.Prelude.{◌≡◌, ℕ, ◌+◌, ◌*◌, ◌≤◌, ◌<◌, ◌++◌, Bool, true, false, Option, Some, None, List, [], ◌∷◌, IfOk, length, replicate, if◌then◌else◌, not, ◌&&◌};
ghost use Rattle.asm_grammar.specs.Lines.{items_in};
ghost use Rattle.asm_grammar.specs.Grammar.{SaysLines};
ghost use Rattle.vax_asm.specs.Program.{Puts, number_size, place_size, operand_size, sentence_size, is_up_to, statement_size, optional_size, item_size, item_definition, labels_of, value_bytes, statement_bytes, optional_bytes, bytes_behind, within, bounded, is_new, HasSmallBss, first_of, bss_in, AssemblesAs};

use crate::answers::{Assembled, Program};
use crate::code::Code;
use crate::encoding::{bits_of_value, sentence_bytes};
use crate::labels::{LabelTable, Labels};
use asm_grammar::{
    Definition, Label, Number, Place, Sentence, SourceLine, Statement, Value, Written, next_item,
};
use std::alloc::Global;
use vax_code::Row;
use vm_facts::NoMemory;

fn number_size(size: u8) -> u32
    ensures value { result ≡ number_size size }
    ensures few { result ≤ 4 }
{
    match size {
        1 => 1,
        2 => 2,
        _ => 4,
    }
}

fn place_size(place: Place) -> u32
    ensures value { result ≡ place_size place }
    ensures few { result ≤ 5 }
{
    match place {
        Place::Absolute(_) => 5,
        Place::Disp { size, .. } => 1 + number_size(size),
        _ => 1,
    }
}

pub fn operand_size(row: &Row, place: u8, written: Written) -> u32
    ensures value { result ≡ operand_size row.now place written }
    ensures few { result ≤ 6 }
{
    match written {
        Written::Absent => 0,
        Written::Literal(_) | Written::Register(_) => 1,
        Written::Immediate(_) => 1 + u32::from(row.slot(place).size),
        Written::Plain(base) => place_size(base),
        Written::Indexed { base, .. } => 1 + place_size(base),
        Written::Misindexed { immediate: true } => 2 + u32::from(row.slot(place).size),
        Written::Misindexed { immediate: false } => 2,
        Written::Target(_) => u32::from(row.slot(place).size),
    }
}

#[tactic(auto, unfolding(crate::specs::Program::sentence_size))]
fn sentence_size(sentence: &Sentence) -> u32
    ensures value { result ≡ sentence_size sentence.now }
    ensures few { result ≤ 19 }
{
    let row = sentence.row;
    let a = operand_size(&row, 0, sentence.a);
    let b = operand_size(&row, 1, sentence.b);
    let c = operand_size(&row, 2, sentence.c);
    1 + a + b + c
}

// Whether a number is 0 to a limit.
pub fn is_up_to(most: u64, number: Number) -> bool
    ensures { result ≡ is_up_to most number }
{
    !number.negative && number.magnitude <= most
}

fn space_size(number: Number) -> u32
    ensures value { result ≡ (if is_up_to 65536 number then number.magnitude else 0) }
    ensures few { result ≤ 65536 }
{
    if is_up_to(65536, number) {
        return number.magnitude as u32;
    }
    0
}

#[tactic(auto, unfolding(crate::specs::Program::statement_size))]
pub fn statement_size(statement: &Statement) -> u32
    ensures value { result ≡ statement_size statement.now }
    ensures few { result ≤ 65536 }
{
    match statement {
        Statement::Byte(_) => 1,
        Statement::Word(_) => 2,
        Statement::Long(_) => 4,
        Statement::Space(number) => space_size(*number),
        Statement::Bss(_) => 0,
        Statement::Instruction(sentence) => sentence_size(sentence),
    }
}

pub fn item_size(item: &Option<SourceLine>) -> u32
    ensures value { result ≡ item_size item.now }
    ensures few { result ≤ 65536 }
{
    match item {
        Some(
            SourceLine {
                statement: Some(statement),
                ..
            },
        ) => statement_size(statement),
        _ => 0,
    }
}

// Defines the label of a line.
pub fn define(
    labels: LabelTable,
    at: u32,
    item: &Option<SourceLine>,
) -> Result<LabelTable, NoMemory>
    ensures { IfOk result (λ more. more ≡ labels ++ item_definition at item.now) }
{
    if let Some(
        SourceLine {
            label: Some(label),
            ..
        },
    ) = item
    {
        return labels.with(Definition {
            label: *label,
            address: at,
        });
    }
    Ok(labels)
}

// The labels of a source.
pub fn labels_of(alloc: Global, source: &[u8]) -> Result<Labels, NoMemory>
    ensures { IfOk result (λ labels. labels ≡ labels_of source.now) }
{
    let mut labels = LabelTable::new(alloc);
    let mut rest = source;
    let mut at: u32 = 0;
    let mut left: u32 = 4096;
    while left > 0 && !rest.is_empty() {
        let (item, more) = next_item(rest);
        labels = define(labels, at, &item)?;
        at += item_size(&item);
        rest = more;
        left -= 1;
    }
    Ok(Labels::of(labels))
}

// Whether a line's label isn't defined yet.
fn is_new(earlier: &LabelTable, label: Option<Label>) -> bool
    ensures { result ≡ is_new earlier.now label }
{
    match label {
        None => true,
        Some(label) => earlier.find(label).is_none(),
    }
}

// Puts bytes where the program has room for them.
fn put_bytes(bytes: &mut Vec<u8>, own: &[u8]) -> Result<bool, NoMemory>
    requires { length own.now ≤ 65536 }
    ensures { IfOk result (λ put. Puts put bytes.old.items (within (length bytes.old.items) own.now) bytes.new.items) }
{
    if bytes.len() > 65536 || bytes.len() + own.len() > 65536 {
        return Ok(false);
    }
    bytes.extend_from_slice(own)?;
    Ok(true)
}

fn put_zeros(bytes: &mut Vec<u8>, count: u32) -> Result<bool, NoMemory>
    requires { count ≤ 65536 }
    ensures { IfOk result (λ put. Puts put bytes.old.items (within (length bytes.old.items) (replicate count 0)) bytes.new.items) }
{
    let count = count as usize;
    if bytes.len() > 65536 || bytes.len() + count > 65536 {
        return Ok(false);
    }
    let end = bytes.len() + count;
    bytes.resize(end, 0)?;
    Ok(true)
}

#[tactic(auto, unfolding(crate::specs::Program::value_bytes))]
fn value_bytes(labels: &Labels, size: u8, value: Value) -> Option<Code>
    ensures { result ≡ value_bytes labels.now size value }
{
    let bits = bits_of_value(labels, size, value)?;
    let mut code = Code::new();
    code.push_number(size, bits);
    Some(code)
}

// Puts the bytes of a code, where there is one.
fn put_code(bytes: &mut Vec<u8>, code: Option<Code>) -> Result<bool, NoMemory>
    ensures { IfOk result (λ put. Puts put bytes.old.items (bounded (length bytes.old.items) code) bytes.new.items) }
{
    match code {
        None => Ok(false),
        Some(code) => put_bytes(bytes, code.as_slice()),
    }
}

fn put_space(bytes: &mut Vec<u8>, number: Number) -> Result<bool, NoMemory>
    ensures { IfOk result (λ put. Puts put bytes.old.items
        (bounded (length bytes.old.items) (if is_up_to 65536 number then Some (replicate number.magnitude 0) else None)) bytes.new.items) }
{
    if !is_up_to(65536, number) {
        return Ok(false);
    }
    put_zeros(bytes, number.magnitude as u32)
}

fn put_bss(bytes: &mut Vec<u8>, with_bss: bool, number: Number) -> Result<bool, NoMemory>
    ensures put { IfOk result (λ put.
        Puts put bytes.old.items (bounded (length bytes.old.items) (if not with_bss && is_up_to 4194304 number then Some [] else None)) bytes.new.items) }
    ensures small { IfOk result (λ put. put ≡ true → number.magnitude ≤ 4194304) }
{
    if with_bss || !is_up_to(4194304, number) {
        return Ok(false);
    }
    put_bytes(bytes, &[])
}

// Puts the bytes of a statement.
#[tactic(auto, unfolding(crate::specs::Program::statement_bytes))]
fn put_statement(
    labels: &Labels,
    with_bss: bool,
    bytes: &mut Vec<u8>,
    statement: &Statement,
) -> Result<bool, NoMemory>
    requires { length bytes.old.items ≤ 65536 }
    ensures put { IfOk result (λ put. Puts put bytes.old.items
        (bounded (length bytes.old.items) (statement_bytes labels.now with_bss (length bytes.old.items) statement.now)) bytes.new.items) }
    ensures small { IfOk result (λ put. HasSmallBss put (Some statement.now)) }
{
    match statement {
        Statement::Byte(value) => put_code(bytes, value_bytes(labels, 1, *value)),
        Statement::Word(value) => put_code(bytes, value_bytes(labels, 2, *value)),
        Statement::Long(value) => put_code(bytes, value_bytes(labels, 4, *value)),
        Statement::Space(number) => put_space(bytes, *number),
        Statement::Bss(number) => put_bss(bytes, with_bss, *number),
        Statement::Instruction(sentence) => {
            let at = bytes.len() as u32;
            put_code(bytes, sentence_bytes(labels, at, sentence))
        }
    }
}

// Puts the bytes of a line after others.
fn put_line(
    labels: &Labels,
    earlier: &LabelTable,
    with_bss: bool,
    bytes: &mut Vec<u8>,
    line: &SourceLine,
) -> Result<bool, NoMemory>
    requires { length bytes.old.items ≤ 65536 }
    ensures put { IfOk result
        (λ put. Puts put bytes.old.items (bytes_behind labels.now earlier.now with_bss (length bytes.old.items) line.now) bytes.new.items) }
    ensures small { IfOk result (λ put. HasSmallBss put line.now.statement) }
{
    if !is_new(earlier, line.label) {
        return Ok(false);
    }
    match &line.statement {
        None => put_bytes(bytes, &[]),
        Some(statement) => put_statement(labels, with_bss, bytes, statement),
    }
}

// The first `.bss`, with one more line.
pub fn bss_after(bss: Option<u32>, statement: &Option<Statement>) -> Option<u32>
    requires { HasSmallBss true statement.now }
    ensures { result ≡ first_of bss (bss_in statement.now) }
{
    match (bss, statement) {
        (Some(size), _) => Some(size),
        (None, Some(Statement::Bss(number))) => Some(number.magnitude as u32),
        (None, _) => None,
    }
}

// The program of a source, by its labels.
fn assemble_with(alloc: Global, labels: &Labels, source: &[u8]) -> Result<Assembled, NoMemory>
    requires { labels.now ≡ labels_of source.now }
    ensures { IfOk result (AssemblesAs source.now) }
{
    let mut earlier = LabelTable::new(alloc);
    let mut bytes = Vec::new(alloc);
    let mut bss = None;
    let mut rest = source;
    let mut number: u32 = 1;
    while !rest.is_empty() {
        if number > 4096 {
            return Ok(Assembled::BadLine(number));
        }
        let (item, more) = next_item(rest);
        let Some(line) = item else {
            return Ok(Assembled::BadLine(number));
        };
        let at = bytes.len() as u32;
        if !put_line(labels, &earlier, bss.is_some(), &mut bytes, &line)? {
            return Ok(Assembled::BadLine(number));
        }
        earlier = define(earlier, at, &item)?;
        bss = bss_after(bss, &line.statement);
        rest = more;
        number += 1;
    }
    let bss = bss.unwrap_or(0);
    Ok(Assembled::Is(Program { bytes, bss }))
}

/// The program of a source, or its lowest bad line: one outside the grammar or a limit, with an unknown label or a
/// label that stands before, a value, branch or operand that is refused, or bytes above 65,536. The grammar is this
/// project's profile.
#[tactic(auto, using(crate::proofs::ByGrammar::source_says_items))]
pub fn assemble(alloc: Global, source: &[u8]) -> Result<Assembled, NoMemory>
    ensures answers { IfOk result (AssemblesAs source.now) }
    ensures grammar { SaysLines source.now (items_in source.now) }
{
    let labels = labels_of(alloc, source)?;
    assemble_with(alloc, &labels, source)
}

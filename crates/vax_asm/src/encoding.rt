//! The bytes of operands and instructions at an address. A value out of its range has none; reasons.rt tells why.
ghost use Rattle.std.specs.Prelude.{◌≡◌, ℕ, ◌+◌, ◌≤◌, ◌<◌, ◌⊎◌, ◌^◌, length, IfSome, Option, Some, None, List, []};
ghost use Rattle.asm_grammar.specs.Encoding.{whole_of, half_of, value_bits, displacement_bits, number_of_value, bits_of_value, plain_specifier, with_number, displacement_mode, place_bytes, leaves_index, indexed_bytes, literal_bytes, immediate_bytes, distance, branch_bits, target_bytes, displaced_bytes, branch_bytes, specifier_bytes, absent_bytes, operand_bytes, sentence_bytes};

use crate::code::Code;
use crate::labels::Labels;
use asm_grammar::{Number, Place, Sentence, Value, Written, half_of, whole_of};
use vax_code::{Access, Row, Slot};

#[tactic(auto, unfolding(asm_grammar::specs::Encoding::value_bits))]
pub fn value_bits(size: u8, number: Number) -> Option<u32>
    ensures value { result ≡ value_bits size number }
    ensures fits { IfSome result (λ bits. bits < whole_of size) }
{
    let whole = whole_of(size);
    if number.negative {
        if number.magnitude > half_of(size) {
            return None;
        }
        return Some(((whole - number.magnitude) % whole) as u32);
    }
    if number.magnitude >= whole {
        return None;
    }
    Some(number.magnitude as u32)
}

#[tactic(auto, unfolding(asm_grammar::specs::Encoding::displacement_bits))]
pub fn displacement_bits(size: u8, number: Number) -> Option<u32>
    ensures value { result ≡ displacement_bits size number }
    ensures fits { IfSome result (λ bits. bits < whole_of size) }
{
    if number.negative || number.magnitude < half_of(size) {
        return value_bits(size, number);
    }
    None
}

#[tactic(auto, unfolding(asm_grammar::specs::Encoding::number_of_value))]
fn number_of_value(labels: &Labels, value: Value) -> Option<Number>
    ensures { result ≡ number_of_value labels.now value }
{
    match value {
        Value::Number(number) => Some(number),
        Value::Label(label) => {
            let definition = labels.find(label)?;
            Some(Number {
                negative: false,
                magnitude: u64::from(definition.address),
            })
        }
    }
}

#[tactic(auto, unfolding(asm_grammar::specs::Encoding::bits_of_value))]
pub fn bits_of_value(labels: &Labels, size: u8, value: Value) -> Option<u32>
    ensures value { result ≡ bits_of_value labels.now size value }
    ensures fits { IfSome result (λ bits. bits < whole_of size) }
{
    let number = number_of_value(labels, value)?;
    value_bits(size, number)
}

fn plain_specifier(mode: u8, reg: u8) -> Option<Code>
    requires { mode < 16 }
    ensures value { result ≡ plain_specifier mode reg }
    ensures few { IfSome result (λ code. length code ≤ 1) }
{
    if reg >= 15 {
        return None;
    }
    let mut code = Code::new();
    code.push(16 * mode + reg);
    Some(code)
}

fn with_number(first: u8, size: u8, bits: u32) -> Code
    requires { bits < whole_of size }
    ensures value { result ≡ with_number first size bits }
    ensures few { length result ≤ 5 }
{
    let mut code = Code::new();
    code.push(first);
    code.push_number(size, bits);
    code
}

fn displacement_mode(size: u8, deferred: bool) -> u8
    ensures mode { result ≡ displacement_mode size deferred }
    ensures few { result < 16 }
{
    let plain = match size {
        1 => 10,
        2 => 12,
        _ => 14,
    };
    if deferred { plain + 1 } else { plain }
}

#[tactic(auto, unfolding(asm_grammar::specs::Encoding::displaced_bytes))]
fn displaced_bytes(size: u8, reg: u8, by: Number, deferred: bool) -> Option<Code>
    requires { reg < 16 }
    ensures value { result ≡ displaced_bytes size reg by deferred }
    ensures few { IfSome result (λ code. length code ≤ 5) }
{
    let bits = displacement_bits(size, by)?;
    let first = 16 * displacement_mode(size, deferred) + reg;
    Some(with_number(first, size, bits))
}

#[tactic(auto, unfolding(asm_grammar::specs::Encoding::place_bytes))]
fn place_bytes(labels: &Labels, place: Place) -> Option<Code>
    ensures value { result ≡ place_bytes labels.now place }
    ensures few { IfSome result (λ code. length code ≤ 5) }
{
    match place {
        Place::Deferred(reg) => plain_specifier(6, reg),
        Place::AutoDec(reg) => plain_specifier(7, reg),
        Place::AutoInc(reg) => plain_specifier(8, reg),
        Place::AutoIncDef(reg) => plain_specifier(9, reg),
        Place::Absolute(address) => {
            let bits = bits_of_value(labels, 4, address)?;
            Some(with_number(0x9F, 4, bits))
        }
        Place::Disp {
            size,
            reg,
            by,
            deferred,
        } if reg < 16 => displaced_bytes(size, reg, by, deferred),
        Place::Disp { .. } => None,
    }
}

pub fn leaves_index(index: u8, base: Place) -> bool
    ensures { result ≡ leaves_index index base }
{
    match base {
        Place::AutoDec(reg) | Place::AutoInc(reg) | Place::AutoIncDef(reg) => reg != index,
        _ => true,
    }
}

#[tactic(auto, unfolding(asm_grammar::specs::Encoding::indexed_bytes))]
fn indexed_bytes(labels: &Labels, index: u8, base: Place) -> Option<Code>
    ensures value { result ≡ indexed_bytes labels.now index base }
    ensures few { IfSome result (λ code. length code ≤ 6) }
{
    if index >= 15 || !leaves_index(index, base) {
        return None;
    }
    let bytes = place_bytes(labels, base)?;
    let mut code = Code::new();
    code.push(0x40 + index);
    code.push_all(bytes.as_slice());
    Some(code)
}

pub fn literal_bytes(number: Number) -> Option<Code>
    ensures value { result ≡ literal_bytes number }
    ensures few { IfSome result (λ code. length code ≤ 1) }
{
    if number.negative || number.magnitude >= 64 {
        return None;
    }
    let mut code = Code::new();
    code.push(number.magnitude as u8);
    Some(code)
}

#[tactic(auto, unfolding(asm_grammar::specs::Encoding::immediate_bytes))]
fn immediate_bytes(labels: &Labels, slot: Slot, value: Value) -> Option<Code>
    ensures value { result ≡ immediate_bytes labels.now slot value }
    ensures few { IfSome result (λ code. length code ≤ 5) }
{
    let bits = bits_of_value(labels, slot.size, value)?;
    Some(with_number(0x8F, slot.size, bits))
}

// From the end of a branch to its target, modulo 2^32.
fn distance(target: u32, end: u64) -> u32
    ensures { result ≡ distance target end }
{
    let by = u64::from(target) + (0x1_0000_0000 - end % 0x1_0000_0000);
    (by % 0x1_0000_0000) as u32
}

fn branch_bits(size: u8, by: u32) -> Option<u32>
    ensures value { result ≡ branch_bits size by }
    ensures fits { IfSome result (λ bits. bits < whole_of size) }
{
    let by = u64::from(by);
    if by < half_of(size) {
        return Some(by as u32);
    }
    if by >= 0x1_0000_0000 - half_of(size) {
        return Some((by - (0x1_0000_0000 - whole_of(size))) as u32);
    }
    None
}

#[tactic(auto, unfolding(asm_grammar::specs::Encoding::target_bytes))]
pub fn target_bytes(labels: &Labels, from: u64, slot: Slot, target: Value) -> Option<Code>
    requires { from < 2 ^ 40 }
    ensures value { result ≡ target_bytes labels.now from slot target }
    ensures few { IfSome result (λ code. length code ≤ 4) }
{
    let address = bits_of_value(labels, 4, target)?;
    let by = distance(address, from + u64::from(slot.size));
    let bits = branch_bits(slot.size, by)?;
    let mut code = Code::new();
    code.push_number(slot.size, bits);
    Some(code)
}

#[tactic(auto, unfolding(asm_grammar::specs::Encoding::branch_bytes))]
fn branch_bytes(labels: &Labels, from: u64, slot: Slot, written: Written) -> Option<Code>
    requires { from < 2 ^ 40 }
    ensures value { result ≡ branch_bytes labels.now from slot written }
    ensures few { IfSome result (λ code. length code ≤ 6) }
{
    match written {
        Written::Target(target) => target_bytes(labels, from, slot, target),
        _ => None,
    }
}

#[tactic(auto, unfolding(asm_grammar::specs::Encoding::specifier_bytes))]
fn specifier_bytes(labels: &Labels, slot: Slot, written: Written) -> Option<Code>
    ensures value { result ≡ specifier_bytes labels.now slot written }
    ensures few { IfSome result (λ code. length code ≤ 6) }
{
    match written {
        Written::Literal(number) if slot.access == Access::Read => literal_bytes(number),
        Written::Register(reg) if slot.access != Access::Address => plain_specifier(5, reg),
        Written::Immediate(value) if slot.access == Access::Read => immediate_bytes(
            labels, slot, value,
        ),
        Written::Plain(place) => place_bytes(labels, place),
        Written::Indexed { index, base } => indexed_bytes(labels, index, base),
        _ => None,
    }
}

fn absent_bytes(written: Written) -> Option<Code>
    ensures value { result ≡ absent_bytes written }
    ensures few { IfSome result (λ code. length code ≤ 6) }
{
    match written {
        Written::Absent => Some(Code::new()),
        _ => None,
    }
}

// The bytes of an operand whose first byte has this address.
#[tactic(auto, unfolding(asm_grammar::specs::Encoding::operand_bytes))]
fn operand_bytes(labels: &Labels, from: u64, row: &Row, place: u8, written: Written) -> Option<Code>
    requires { from < 2 ^ 40 }
    ensures value { result ≡ operand_bytes labels.now from row.now place written }
    ensures few { IfSome result (λ code. length code ≤ 6) }
{
    if place >= row.count {
        return absent_bytes(written);
    }
    let slot = row.slot(place);
    if slot.access == Access::Branch {
        return branch_bytes(labels, from, slot, written);
    }
    specifier_bytes(labels, slot, written)
}

// The bytes of an instruction at an address.
#[tactic(auto, unfolding(asm_grammar::specs::Encoding::sentence_bytes))]
pub fn sentence_bytes(labels: &Labels, at: u32, sentence: &Sentence) -> Option<Code>
    ensures value { result ≡ sentence_bytes labels.now at sentence.now }
    ensures few { IfSome result (λ code. length code ≤ 19) }
{
    let row = sentence.row;
    let from = u64::from(at) + 1;
    let a = operand_bytes(labels, from, &row, 0, sentence.a)?;
    let from = from + u64::from(a.len());
    let b = operand_bytes(labels, from, &row, 1, sentence.b)?;
    let from = from + u64::from(b.len());
    let c = operand_bytes(labels, from, &row, 2, sentence.c)?;
    let mut code = Code::new();
    code.push(row.op);
    code.push_all(a.as_slice());
    code.push_all(b.as_slice());
    code.push_all(c.as_slice());
    Some(code)
}

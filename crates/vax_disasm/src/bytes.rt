//! Reads bytes as an instruction that the assembler's grammar can write.
ghost use Rattle.std.specs.Prelude.{◌≡◌, ◌⊎◌, ◌<◌, ◌≤◌, ◌+◌, ◌^◌, length, IfSome};
ghost use Rattle.vax_code.specs.Reading.{Took};
ghost use Rattle.asm_grammar.specs.Text.{Gives};
ghost use Rattle.asm_grammar.specs.Encoding.{whole_of, half_of};
ghost use Rattle.vax_disasm.specs.Showing.{byte_shown, number_shown, plain_number, signed_number, size_of_mode, displacement_shown, absolute_shown, place_shown, indexed_shown, immediate_shown, specifier_shown, branch_target, branch_shown, operand_shown, row_place_shown, operands_shown, sentence_shown};

use asm_grammar::{Number, Place, Sentence, Value, Written, half_of, whole_of};
use vax_code::{Access, Row, Slot, row_of};

#[tactic(auto, unfolding(crate::specs::Showing::byte_shown))]
fn byte_of(bytes: &[u8]) -> Option<(u8, &[u8])>
    ensures value { Gives (λ x. (x.0, x.1.now)) result (byte_shown bytes.now) }
    ensures took { IfSome result (λ x. Took bytes.now x.1.now 1) }
{
    match bytes {
        [] => None,
        [first, rest @ ..] => Some((*first, rest)),
    }
}

#[tactic(auto, unfolding(crate::specs::Showing::number_shown))]
fn number_of(size: u8, bytes: &[u8]) -> Option<(u32, &[u8])>
    requires { (size ≡ 1) ⊎ (size ≡ 2) ⊎ (size ≡ 4) }
    ensures value { Gives (λ x. (x.0, x.1.now)) result (number_shown size bytes.now) }
    ensures fits { IfSome result (λ x. x.0 < whole_of size) }
    ensures took { IfSome result (λ x. Took bytes.now x.1.now 4) }
{
    let size = size as usize;
    if bytes.len() < size {
        return None;
    }
    let (front, rest) = bytes.split_at(size);
    let number = match front {
        [a] => u32::from(*a),
        [a, b] => u32::from(u16::from_le_bytes([*a, *b])),
        [a, b, c, d] => u32::from_le_bytes([*a, *b, *c, *d]),
        _ => return None,
    };
    Some((number, rest))
}

fn plain_number(bits: u32) -> Number
    ensures { result ≡ plain_number bits }
{
    Number {
        negative: false,
        magnitude: u64::from(bits),
    }
}

// Bits in two's complement.
fn signed_number(size: u8, bits: u32) -> Number
    requires { bits < whole_of size }
    ensures { result ≡ signed_number size bits }
{
    if u64::from(bits) < half_of(size) {
        return plain_number(bits);
    }
    Number {
        negative: true,
        magnitude: whole_of(size) - u64::from(bits),
    }
}

fn size_of_mode(mode: u8) -> u8
    ensures value { result ≡ size_of_mode mode }
    ensures size { (result ≡ 1) ⊎ (result ≡ 2) ⊎ (result ≡ 4) }
{
    if mode < 12 {
        1
    } else if mode < 14 {
        2
    } else {
        4
    }
}

#[tactic(auto, unfolding(crate::specs::Showing::displacement_shown))]
fn displacement_of(mode: u8, reg: u8, bytes: &[u8]) -> Option<(Place, &[u8])>
    ensures value { Gives (λ x. (x.0, x.1.now)) result (displacement_shown mode reg bytes.now) }
    ensures took { IfSome result (λ x. Took bytes.now x.1.now 4) }
{
    let size = size_of_mode(mode);
    let (bits, rest) = number_of(size, bytes)?;
    let place = Place::Disp {
        size,
        reg,
        by: signed_number(size, bits),
        deferred: mode % 2 == 1,
    };
    Some((place, rest))
}

#[tactic(auto, unfolding(crate::specs::Showing::absolute_shown))]
fn absolute_of(bytes: &[u8]) -> Option<(Place, &[u8])>
    ensures value { Gives (λ x. (x.0, x.1.now)) result (absolute_shown bytes.now) }
    ensures took { IfSome result (λ x. Took bytes.now x.1.now 4) }
{
    let (address, rest) = number_of(4, bytes)?;
    Some((Place::Absolute(Value::Number(plain_number(address))), rest))
}

#[tactic(auto, unfolding(crate::specs::Showing::place_shown))]
fn place_of(mode: u8, reg: u8, bytes: &[u8]) -> Option<(Place, &[u8])>
    ensures value { Gives (λ x. (x.0, x.1.now)) result (place_shown mode reg bytes.now) }
    ensures took { IfSome result (λ x. Took bytes.now x.1.now 4) }
{
    if mode < 6 {
        return None;
    }
    if mode > 9 {
        return displacement_of(mode, reg, bytes);
    }
    if mode == 9 && reg == 15 {
        return absolute_of(bytes);
    }
    if reg == 15 {
        return None;
    }
    let place = match mode {
        6 => Place::Deferred(reg),
        7 => Place::AutoDec(reg),
        8 => Place::AutoInc(reg),
        _ => Place::AutoIncDef(reg),
    };
    Some((place, bytes))
}

#[tactic(auto, unfolding(crate::specs::Showing::indexed_shown))]
fn indexed_of(index: u8, bytes: &[u8]) -> Option<(Written, &[u8])>
    ensures value { Gives (λ x. (x.0, x.1.now)) result (indexed_shown index bytes.now) }
    ensures took { IfSome result (λ x. Took bytes.now x.1.now 5) }
{
    let (first, rest) = byte_of(bytes)?;
    let (mode, reg) = (first / 16, first % 16);
    if 6 < mode && mode < 10 && reg == index {
        return None;
    }
    let (base, rest) = place_of(mode, reg, rest)?;
    Some((Written::Indexed { index, base }, rest))
}

#[tactic(auto, unfolding(crate::specs::Showing::immediate_shown))]
fn immediate_of(slot: Slot, bytes: &[u8]) -> Option<(Written, &[u8])>
    requires { (slot.size ≡ 1) ⊎ (slot.size ≡ 2) ⊎ (slot.size ≡ 4) }
    ensures value { Gives (λ x. (x.0, x.1.now)) result (immediate_shown slot bytes.now) }
    ensures took { IfSome result (λ x. Took bytes.now x.1.now 4) }
{
    let (number, rest) = number_of(slot.size, bytes)?;
    Some((
        Written::Immediate(Value::Number(plain_number(number))),
        rest,
    ))
}

#[tactic(auto, unfolding(crate::specs::Showing::specifier_shown))]
fn specifier_of(slot: Slot, mode: u8, reg: u8, bytes: &[u8]) -> Option<(Written, &[u8])>
    requires size { (slot.size ≡ 1) ⊎ (slot.size ≡ 2) ⊎ (slot.size ≡ 4) }
    requires mode { mode < 16 }
    requires reg { reg < 16 }
    ensures value { Gives (λ x. (x.0, x.1.now)) result (specifier_shown slot mode reg bytes.now) }
    ensures took { IfSome result (λ x. Took bytes.now x.1.now 5) }
{
    if mode < 4 {
        if slot.access != Access::Read {
            return None;
        }
        let number = plain_number(u32::from(16 * mode + reg));
        return Some((Written::Literal(number), bytes));
    }
    if mode == 4 {
        if reg == 15 {
            return None;
        }
        return indexed_of(reg, bytes);
    }
    if mode == 5 {
        if reg == 15 || slot.access == Access::Address {
            return None;
        }
        return Some((Written::Register(reg), bytes));
    }
    if mode == 8 && reg == 15 {
        if slot.access != Access::Read {
            return None;
        }
        return immediate_of(slot, bytes);
    }
    let (place, rest) = place_of(mode, reg, bytes)?;
    Some((Written::Plain(place), rest))
}

// Where a branch leads to, by its bits and its end.
fn branch_target(size: u8, bits: u32, end: u64) -> u32
    requires { end < 2 ^ 50 }
    ensures { result ≡ branch_target size bits end }
{
    let sum = end + u64::from(bits);
    let target = if u64::from(bits) < half_of(size) {
        sum
    } else {
        sum + (0x1_0000_0000 - whole_of(size))
    };
    (target % 0x1_0000_0000) as u32
}

#[tactic(auto, unfolding(crate::specs::Showing::branch_shown))]
fn branch_of(slot: Slot, from: u64, bytes: &[u8]) -> Option<(Written, &[u8])>
    requires size { (slot.size ≡ 1) ⊎ (slot.size ≡ 2) ⊎ (slot.size ≡ 4) }
    requires from { from < 2 ^ 49 }
    ensures value { Gives (λ x. (x.0, x.1.now)) result (branch_shown slot from bytes.now) }
    ensures took { IfSome result (λ x. Took bytes.now x.1.now 4) }
{
    let (bits, rest) = number_of(slot.size, bytes)?;
    let target = branch_target(slot.size, bits, from + u64::from(slot.size));
    Some((Written::Target(Value::Number(plain_number(target))), rest))
}

#[tactic(auto, unfolding(crate::specs::Showing::operand_shown))]
fn operand_of(slot: Slot, from: u64, bytes: &[u8]) -> Option<(Written, &[u8])>
    requires size { (slot.size ≡ 1) ⊎ (slot.size ≡ 2) ⊎ (slot.size ≡ 4) }
    requires from { from < 2 ^ 49 }
    ensures value { Gives (λ x. (x.0, x.1.now)) result (operand_shown slot from bytes.now) }
    ensures took { IfSome result (λ x. Took bytes.now x.1.now 6) }
{
    if slot.access == Access::Branch {
        return branch_of(slot, from, bytes);
    }
    let (first, rest) = byte_of(bytes)?;
    specifier_of(slot, first / 16, first % 16, rest)
}

#[tactic(auto, unfolding(crate::specs::Showing::row_place_shown))]
fn row_place_of(row: Row, place: u8, from: u64, bytes: &[u8]) -> Option<(Written, &[u8])>
    requires from { from < 2 ^ 49 }
    ensures value { Gives (λ x. (x.0, x.1.now)) result (row_place_shown row place from bytes.now) }
    ensures took { IfSome result (λ x. Took bytes.now x.1.now 6) }
{
    if place >= row.count {
        return Some((Written::Absent, bytes));
    }
    operand_of(row.slot(place), from, bytes)
}

#[tactic(auto, unfolding(crate::specs::Showing::operands_shown))]
fn operands_of(row: Row, from: u64, bytes: &[u8]) -> Option<(Sentence, &[u8])>
    requires from { from < 2 ^ 48 }
    ensures value { Gives (λ x. (x.0, x.1.now)) result (operands_shown row from bytes.now) }
    ensures took { IfSome result (λ x. Took bytes.now x.1.now 18) }
{
    let (a, rest) = row_place_of(row, 0, from, bytes)?;
    let from_b = from + (bytes.len() - rest.len()) as u64;
    let (b, rest) = row_place_of(row, 1, from_b, rest)?;
    let from_c = from + (bytes.len() - rest.len()) as u64;
    let (c, rest) = row_place_of(row, 2, from_c, rest)?;
    Some((Sentence { row, a, b, c }, rest))
}

// The instruction that the bytes at an address begin with, and the bytes after it.
#[tactic(auto, unfolding(crate::specs::Showing::sentence_shown))]
pub fn sentence_at(at: u32, bytes: &[u8]) -> Option<(Sentence, &[u8])>
    ensures value { Gives (λ x. (x.0, x.1.now)) result (sentence_shown at bytes.now) }
    ensures took { IfSome result (λ x. Took bytes.now x.1.now 19) }
{
    let (op, rest) = byte_of(bytes)?;
    let row = row_of(op)?;
    operands_of(row, u64::from(at) + 1, rest)
}

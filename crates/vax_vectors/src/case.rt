//! One recorded instruction: memory and registers before, and what must stand after.
use crate::bytes::{Bytes, zeros};
use crate::text::{byte, number};
use std::alloc::{AllocError, Global};
use user_step::step;
use user_vax::Stepped;
use vm_facts::Regs;

/// The registers that three fields give: R0 to R14, PC, and the codes.
fn registers(general: &str, pc: &str, codes: &str) -> Option<Regs> {
    let mut r = [0u32; 16];
    for (reg, field) in general.split(',').enumerate() {
        if reg >= 15 {
            return None;
        }
        r[reg] = number(field.as_bytes())?;
    }
    r[15] = number(pc.as_bytes())?;
    let codes = number(codes.as_bytes())?;
    Some(Regs {
        r,
        n: codes / 8 % 2 == 1,
        z: codes / 4 % 2 == 1,
        v: codes / 2 % 2 == 1,
        c: codes % 2 == 1,
    })
}

/// Puts the bytes of a list of address:byte; `-` is no byte.
fn put_listed(memory: &mut Bytes, list: &str) -> Option<()> {
    if list == "-" {
        return Some(());
    }
    for item in list.split(',') {
        let (address, value) = item.split_once(':')?;
        memory.put(number(address.as_bytes())?, byte(value.as_bytes())?)?;
    }
    Some(())
}

/// Puts the bytes of an instruction from an address on.
fn put_code(memory: &mut Bytes, from: u32, code: &str) -> Option<()> {
    let mut address = from;
    for pair in code.as_bytes().chunks(2) {
        memory.put(address, byte(pair)?)?;
        address = address.checked_add(1)?;
    }
    Some(())
}

/// What the step is to answer.
fn answer(outcome: &str, value: &str) -> Option<Stepped> {
    match outcome {
        "plain" => Some(Stepped::Done),
        "call" => Some(Stepped::Call(value.parse().ok()?)),
        "signal" => Some(Stepped::Signal(value.parse().ok()?)),
        _ => None,
    }
}

/// Puts the bytes of the instruction and the others that it needs.
fn start(memory: &mut Bytes, pc: &str, code: &str, others: &str) -> Option<()> {
    put_code(memory, number(pc.as_bytes())?, code)?;
    put_listed(memory, others)
}

/// One recorded instruction.
#[derive(Drop)]
struct Case<'a> {
    pc: &'a str,
    general: &'a str,
    codes: &'a str,
    code: &'a str,
    others: &'a str,
    outcome: &'a str,
    value: &'a str,
    general_after: &'a str,
    pc_after: &'a str,
    codes_after: &'a str,
    written: &'a str,
}

/// The fields of a line.
fn case_of(line: &str) -> Option<Case<'_>> {
    let mut fields = line.split(' ');
    let _opcode = fields.next()?;
    let _name = fields.next()?;
    Some(Case {
        pc: fields.next()?,
        general: fields.next()?,
        codes: fields.next()?,
        code: fields.next()?,
        others: fields.next()?,
        outcome: fields.next()?,
        value: fields.next()?,
        general_after: fields.next()?,
        pc_after: fields.next()?,
        codes_after: fields.next()?,
        written: fields.next()?,
    })
}

/// The registers after the instruction; the expected bytes get those that it writes.
fn after(case: &Case<'_>, before: Regs, wanted: Stepped, expected: &mut Bytes) -> Option<Regs> {
    if matches!(wanted, Stepped::Signal(_)) {
        return Some(before);
    }
    put_listed(expected, case.written)?;
    registers(case.general_after, case.pc_after, case.codes_after)
}

/// Runs the instruction of a line, and tells whether its answer, the registers and the memory are as
/// recorded. A line that can't be read gives none.
fn outcome(line: &str, memory: &mut Bytes, expected: &mut Bytes) -> Option<bool> {
    let case = case_of(line)?;
    start(memory, case.pc, case.code, case.others)?;
    start(expected, case.pc, case.code, case.others)?;
    let before = registers(case.general, case.pc, case.codes)?;
    let wanted = answer(case.outcome, case.value)?;
    let after = after(&case, before, wanted, expected)?;
    let mut regs = before;
    let stepped = step(&mut regs, memory);
    Some(stepped == wanted && regs == after && memory.bytes == expected.bytes)
}

/// The line's instruction comes out as recorded.
pub fn agrees(alloc: Global, line: &str) -> Result<bool, AllocError> {
    let mut memory = zeros(alloc)?;
    let mut expected = zeros(alloc)?;
    Ok(outcome(line, &mut memory, &mut expected) == Some(true))
}

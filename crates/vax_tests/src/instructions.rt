//! Results and condition codes, how bytes spell an instruction, and one instruction over a memory of 64 bytes.
ghost use Rattle.std.specs.Prelude.{◌≡◌};
ghost use Rattle.std.proofs.Common.{refl, ap, sym, ◌∙◌};
ghost use Rattle.vm_facts.specs.Answers.{written};
ghost use Rattle.user_vax.specs.ArrayMemory.{array_answers, written-append};

use std::alloc::Global;
use std::process::Abort;
use user_step::{completes, step};
use user_vax::Stepped;
use vax_alu::{Sum, add, compare, div, mul, neg, shift, sub};
use vax_code::{Decoded, Instr, Operand, decode};
use vm_facts::{ByteRead, MayWrite, Memory, Regs};

// Checks a value, and which of the condition codes are set.
fn is_sum(rt: &impl Abort, sum: Sum, value: u32, codes: &str) {
    let wanted = Sum {
        value,
        n: codes.contains('n'),
        z: codes.contains('z'),
        v: codes.contains('v'),
        c: codes.contains('c'),
    };
    assert_eq!(rt; sum, wanted);
}

#[test]
fn results_have_their_condition_codes(rt: HostRuntime) {
    let quotient = div(0x8000_0000, 0xffff_ffff).expect(&rt, "a quotient");
    is_sum(&rt, add(0x7fff_ffff, 1), 0x8000_0000, "nv");
    is_sum(&rt, sub(0, 1), 0xffff_ffff, "nc");
    is_sum(&rt, mul(0x1_0000, 0x1_0000), 0, "zv");
    is_sum(&rt, quotient, 0x8000_0000, "nv");
    is_sum(&rt, neg(0x8000_0000), 0x8000_0000, "nvc");
    is_sum(&rt, shift(1, 31), 0x8000_0000, "nv");
    is_sum(&rt, shift(1, 32), 0, "zv");
    is_sum(&rt, shift(0x8000_0000, -128), 0xffff_ffff, "n");
    is_sum(&rt, compare(1, 0xff, 1), 0, "c");
    assert_eq!(rt; div(1, 0), None);
}

#[test]
fn bytes_spell_an_instruction_a_prefix_or_none(rt: HostRuntime) {
    let movl = Instr {
        op: 0xD0,
        length: 3,
        count: 2,
        a: Operand::Literal(5),
        b: Operand::AutoInc(1),
        c: Operand::Literal(0),
    };

    // A displacement on PC counts from the end of its operand.
    let from_pc = Instr {
        op: 0xD0,
        length: 8,
        count: 2,
        a: Operand::Disp {
            reg: 15,
            by: 11,
            deferred: false,
        },
        b: Operand::Absolute(0x404),
        c: Operand::Literal(0),
    };
    let decoded = [
        decode(&[0xD0, 0x05, 0x81]),
        decode(&[0xD0, 0x05]),
        decode(&[]),
        decode(&[0xD0, 0x4F]),
        decode(&[0xFD]),
        decode(&[0xD0, 0xAF, 0x10, 0x9F, 0x04, 0x04, 0x00, 0x00]),
    ];
    let wanted = [
        Decoded::Is(movl),
        Decoded::NeedMore,
        Decoded::NeedMore,
        Decoded::Reserved,
        Decoded::Reserved,
        Decoded::Is(from_pc),
    ];
    assert_eq!(rt; decoded, wanted);
}

// A memory of 64 bytes, of which those from `missing` on aren't there.
#[derive(Drop)]
struct ArrayMemory {
    bytes: [u8; 64],
    missing: u32,
}

impl Memory for ArrayMemory {
    ghost answers = { λ s. array_answers s.bytes s.missing };

    ghost wrote = { λ s writes t. array_answers t.bytes t.missing ≡ written (array_answers s.bytes s.missing) writes };

    ghost wrote_none = { λ m. refl };

    ghost wrote_more = { λ a b c xs ys first second. second ∙ ap (λ m. written m ys) first ∙ sym (written-append (array_answers a.bytes a.missing) xs ys) };

    ghost wrote_answers = { λ a b xs h. h };

    fn read(&self, address: u32) -> ByteRead {
        if address >= 64 {
            ByteRead::Outside
        } else if address >= self.missing {
            ByteRead::Miss
        } else {
            ByteRead::Is(self.bytes[address as usize])
        }
    }

    fn may_write(&self, address: u32) -> MayWrite {
        if address >= 64 {
            MayWrite::Outside
        } else if address >= self.missing {
            MayWrite::Miss
        } else {
            MayWrite::May
        }
    }

    #[tactic(auto, using(user_vax::proofs::ArrayLemmas::array_answers_set))]
    fn write(&mut self, address: u32, byte: u8) {
        self.bytes[address as usize] = byte;
    }
}

fn start(code: &[u8]) -> ([u8; 64], Regs) {
    let mut bytes = [0u8; 64];
    for (at, byte) in code.iter().enumerate() {
        if at < 64 {
            bytes[at] = *byte;
        }
    }
    let regs = Regs {
        r: [0; 16],
        n: false,
        z: false,
        v: false,
        c: false,
    };
    (bytes, regs)
}

// Carries out the instruction that PC names.
fn stepped(regs: &mut Regs, memory: &mut ArrayMemory) -> Stepped {
    step(regs, memory)
}

// Whether it would be carried out.
fn completed(rt: &impl Abort, alloc: Global, memory: &ArrayMemory, regs: &Regs) -> bool {
    completes(alloc, memory, regs).expect(rt, "memory to try it")
}

// A store of four bytes, by a register that rises. It is tried first, which writes nothing.
#[test]
fn a_store_across_a_missing_byte_changes_nothing_and_then_is_done(rt: HostRuntime) {
    let (bytes, mut regs) = start(&[0xD0, 0x05, 0x81]);
    regs.r[1] = 40;
    let before = regs;
    let mut memory = ArrayMemory { bytes, missing: 42 };
    let tried = completed(&rt, rt.alloc(), &memory, &regs);
    let missed = stepped(&mut regs, &mut memory);
    let after = (regs, memory.bytes);
    memory.missing = 44;
    let tried_again = completed(&rt, rt.alloc(), &memory, &regs);
    let untouched = memory.bytes;
    memory.missing = 64;
    let done = stepped(&mut regs, &mut memory);
    let written = (regs.r[1], regs.r[15], memory.bytes[40]);
    let miss = Stepped::Miss {
        address: 42,
        write: true,
    };
    assert_eq!(rt; [tried, tried_again], [false, true]);
    assert_eq!(rt; (after, untouched), ((before, bytes), bytes));
    assert_eq!(rt;
        ([missed, done], written),
        ([miss, Stepped::Done], (44, 3, 5))
    );
}

// What calls the system is carried out, but not all that it does.
#[test]
fn a_call_of_the_system_has_its_number_and_does_not_complete(rt: HostRuntime) {
    let (bytes, mut regs) = start(&[0xBC, 0x8F, 0x42, 0x00]);
    let mut memory = ArrayMemory { bytes, missing: 64 };
    let tried = completed(&rt, rt.alloc(), &memory, &regs);
    let called = stepped(&mut regs, &mut memory);
    assert_eq!(rt; (tried, called, regs.r[15]), (false, Stepped::Call(66), 4));
}

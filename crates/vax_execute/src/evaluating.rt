//! Evaluates operands from left to right. Registers move with each, as the next ones see.
ghost use Rattle.std.specs.Prelude.{◌%◌, ◌≡◌, ◌<◌, ◌≤◌, ◌⊎◌, ℕ, true, false, IfOk, Ok, ◌^◌};
ghost use Rattle.vm_facts.specs.Answers.{Answers};
ghost use Rattle.user_vax.specs.Program.{run};
ghost use Rattle.user_vax.specs.Instruction.{evaluations};
ghost use Rattle.user_vax.specs.Operands.{IsPlace, register, with_register, address_of, evaluation_at, evaluation_through, evaluation};
ghost use Rattle.vax_execute.specs.Outcomes.{HasPlaces, LeavesOperands, LeavesWith};
ghost use Rattle.vax_execute.specs.Plain.{is_at_hand, is_in_memory};
ghost use Rattle.vm_facts.specs.declared.regs.Regs.{Regs};
ghost use Rattle.vax_code.specs.declared.instr.Operand.TheVariants.{Indexed, Literal};
ghost use Rattle.vax_code.specs.Valid.{HasOperands, IsBase, IsOperand};

use crate::ready::Ready;
use crate::registers::set_register;
use user_vax::{Evaluated, Place, Refused, read_long, read_number};
use vax_code::{Access, Base, Instr, Operand, Row, Slot};
use vm_facts::{Memory, Regs};

/// The address that a base names; the registers become those after it.
#[inline(always)]
#[tactic(auto, using(user_vax::proofs::Runs::run_bind), unfolding(user_vax::specs::Operands::address_of))]
fn address_of<M: Memory>(memory: &M, regs: &mut Regs, size: u8, base: &Base) -> Result<u32, Refused>
    requires { IsBase base.now }
    ensures { LeavesWith result regs.new (run (M.answers memory.now) (address_of regs.old size base.now)) }
{
    match base {
        Base::Deferred(reg) => Ok(regs.r[*reg as usize]),
        Base::AutoDec(reg) => {
            let address = regs.r[*reg as usize].wrapping_sub(u32::from(size));
            set_register(regs, *reg, address);
            Ok(address)
        }
        Base::AutoInc(reg) => {
            let address = regs.r[*reg as usize];
            set_register(regs, *reg, address.wrapping_add(u32::from(size)));
            Ok(address)
        }
        Base::AutoIncDef(reg) => {
            let pointer = regs.r[*reg as usize];
            let address = read_long(memory, pointer)?;
            set_register(regs, *reg, pointer.wrapping_add(4));
            Ok(address)
        }
        Base::Absolute(address) => Ok(*address),
        Base::Disp { reg, by, deferred } => {
            let address = regs.r[*reg as usize].wrapping_add_signed(*by);
            if *deferred {
                read_long(memory, address)
            } else {
                Ok(address)
            }
        }
    }
}

/// The operand in memory at an address.
#[inline(always)]
#[tactic(auto, using(user_vax::proofs::Runs::run_bind), unfolding(user_vax::specs::Operands::evaluation_at))]
fn evaluate_at<M: Memory>(memory: &M, slot: Slot, address: u32) -> Result<Evaluated, Refused>
    requires { (slot.size ≡ 1) ⊎ (slot.size ≡ 2) ⊎ (slot.size ≡ 4) }
    ensures value { (regs : Regs) → LeavesWith result regs (run (M.answers memory.now) (evaluation_at slot regs address)) }
    ensures place { IfOk result (λ x. IsPlace x.place) }
{
    let place = Place::Memory(address);
    match slot.access {
        Access::Read | Access::Modify => {
            let value = read_number(memory, slot.size, address)?;
            Ok(Evaluated { value, place })
        }
        Access::Write => Ok(Evaluated { value: 0, place }),
        Access::Address | Access::Branch => Ok(Evaluated {
            value: address,
            place,
        }),
    }
}

#[inline(always)]
#[tactic(auto, using(user_vax::proofs::Runs::run_bind), unfolding(user_vax::specs::Operands::evaluation_through))]
fn evaluate_through<M: Memory>(
    memory: &M,
    slot: Slot,
    regs: &mut Regs,
    base: &Base,
) -> Result<Evaluated, Refused>
    requires base { IsBase base.now }
    requires size { (slot.size ≡ 1) ⊎ (slot.size ≡ 2) ⊎ (slot.size ≡ 4) }
    ensures value { LeavesWith result regs.new (run (M.answers memory.now) (evaluation_through slot regs.old base.now)) }
    ensures place { IfOk result (λ x. IsPlace x.place) }
{
    let address = address_of(memory, regs, slot.size, base)?;
    evaluate_at(memory, slot, address)
}

/// The operand at an index from a base, evaluated; the registers become those after it.
#[inline(never)]
#[tactic(auto, using(user_vax::proofs::Runs::run_bind), unfolding(user_vax::specs::Operands::evaluation))]
fn evaluate_indexed<M: Memory>(
    memory: &M,
    slot: Slot,
    regs: &mut Regs,
    index: u8,
    base: &Base,
) -> Result<Evaluated, Refused>
    requires index { index < 16 }
    requires base { IsBase base.now }
    requires size { (slot.size ≡ 1) ⊎ (slot.size ≡ 2) ⊎ (slot.size ≡ 4) }
    ensures value { LeavesWith result regs.new (run (M.answers memory.now) (evaluation slot regs.old (Indexed index base.now))) }
    ensures place { IfOk result (λ x. IsPlace x.place) }
{
    let address = address_of(memory, regs, slot.size, base)?;
    let offset = regs.r[index as usize].wrapping_mul(u32::from(slot.size));
    evaluate_at(memory, slot, address.wrapping_add(offset))
}

/// An operand that is a number, a register or a branch target, evaluated. No register changes.
#[inline(always)]
#[tactic(auto, unfolding(user_vax::specs::Operands::evaluation))]
pub fn evaluate_at_hand(slot: Slot, regs: &Regs, operand: &Operand) -> Evaluated
    requires operand { IsOperand operand.now }
    requires at_hand { is_at_hand operand.now ≡ true }
    requires size { (slot.size ≡ 1) ⊎ (slot.size ≡ 2) ⊎ (slot.size ≡ 4) }
    ensures value { (memory : Answers) → run memory (evaluation slot regs.now operand.now) ≡ Ok (regs.now, result) }
    ensures place { IsPlace result.place }
    ensures outside { is_in_memory result.place ≡ false }
{
    match operand {
        Operand::Literal(value) => Evaluated {
            value: u32::from(*value),
            place: Place::Nowhere,
        },
        Operand::Immediate(value) => Evaluated {
            value: *value,
            place: Place::Nowhere,
        },
        Operand::Register(reg) => Evaluated {
            value: low_bytes(regs.r[*reg as usize], slot.size),
            place: Place::Register(*reg),
        },
        Operand::Branch(by) => Evaluated {
            value: regs.r[15].wrapping_add_signed(*by),
            place: Place::Nowhere,
        },
        _ => unreachable!(),
    }
}

/// The operand evaluated; the registers become those after it.
#[inline(always)]
#[tactic(auto, using(user_vax::proofs::Runs::run_bind), unfolding(user_vax::specs::Operands::evaluation))]
fn evaluate<M: Memory>(
    memory: &M,
    slot: Slot,
    regs: &mut Regs,
    operand: &Operand,
) -> Result<Evaluated, Refused>
    requires operand { IsOperand operand.now }
    requires size { (slot.size ≡ 1) ⊎ (slot.size ≡ 2) ⊎ (slot.size ≡ 4) }
    ensures value { LeavesWith result regs.new (run (M.answers memory.now) (evaluation slot regs.old operand.now)) }
    ensures place { IfOk result (λ x. IsPlace x.place) }
{
    let base = match operand {
        Operand::Literal(_) | Operand::Immediate(_) | Operand::Register(_) | Operand::Branch(_) =>
            return Ok(evaluate_at_hand(slot, regs, operand)),
        Operand::Indexed { index, base } => {
            return evaluate_indexed(memory, slot, regs, *index, base);
        }
        Operand::Deferred(reg) => Base::Deferred(*reg),
        Operand::AutoDec(reg) => Base::AutoDec(*reg),
        Operand::AutoInc(reg) => Base::AutoInc(*reg),
        Operand::AutoIncDef(reg) => Base::AutoIncDef(*reg),
        Operand::Absolute(address) => Base::Absolute(*address),
        Operand::Disp { reg, by, deferred } => Base::Disp {
            reg: *reg,
            by: *by,
            deferred: *deferred,
        },
    };
    evaluate_through(memory, slot, regs, &base)
}

/// The low bytes of a word.
fn low_bytes(word: u32, size: u8) -> u32
    requires { (size ≡ 1) ⊎ (size ≡ 2) ⊎ (size ≡ 4) }
    ensures { result ≡ word % 256 ^ size }
{
    match size {
        1 => word % 0x100,
        2 => word % 0x1_0000,
        _ => word,
    }
}

/// The operand in a place evaluated; the registers become those after it. One that the instruction doesn't have is a literal 0,
/// and changes nothing.
#[inline(always)]
#[tactic(auto, unfolding(user_vax::specs::Operands::evaluation))]
fn evaluate_place<M: Memory>(
    memory: &M,
    slot: Slot,
    regs: &mut Regs,
    present: bool,
    operand: &Operand,
) -> Result<Evaluated, Refused>
    requires operand { IsOperand operand.now }
    requires absent { present ≡ false → operand.now ≡ Literal 0 }
    requires size { (slot.size ≡ 1) ⊎ (slot.size ≡ 2) ⊎ (slot.size ≡ 4) }
    ensures value { LeavesWith result regs.new (run (M.answers memory.now) (evaluation slot regs.old operand.now)) }
    ensures place { IfOk result (λ x. IsPlace x.place) }
{
    if present {
        evaluate(memory, slot, regs, operand)
    } else {
        Ok(Evaluated {
            value: 0,
            place: Place::Nowhere,
        })
    }
}

/// The three operands, evaluated from left to right; the registers become those after them.
#[inline(always)]
#[tactic(auto, using(user_vax::proofs::Runs::run_bind), unfolding(user_vax::specs::Instruction::evaluations))]
pub fn evaluate_all<M: Memory>(
    memory: &M,
    row: &Row,
    regs: &mut Regs,
    instr: &Instr,
) -> Result<Ready, Refused>
    requires { HasOperands instr.now }
    ensures value { LeavesOperands result regs.new (run (M.answers memory.now) (evaluations row.now regs.old instr.now)) }
    ensures name { IfOk result (λ ready. ready.name ≡ row.now.name) }
    ensures places { IfOk result HasPlaces }
{
    let a = evaluate_place(memory, row.slot(0), regs, instr.count > 0, &instr.a)?;
    let b = evaluate_place(memory, row.slot(1), regs, instr.count > 1, &instr.b)?;
    let c = evaluate_place(memory, row.slot(2), regs, instr.count > 2, &instr.c)?;
    Ok(Ready {
        name: row.name,
        a,
        b,
        c,
    })
}

//! Instructions that stay in registers: nothing of them is refused, so nothing is to be undone.
ghost use Rattle.std.specs.Prelude.{◌≡◌, ◌⊎◌, true, false, Some, Ok};
ghost use Rattle.vm_facts.specs.Answers.{Answers};
ghost use Rattle.vax_code.specs.declared.instr.Operand.TheVariants.{Literal};
ghost use Rattle.vax_code.specs.Valid.{HasOperands, IsOperand};
ghost use Rattle.user_vax.specs.Program.{run};
ghost use Rattle.user_vax.specs.Operands.{IsPlace, evaluation};
ghost use Rattle.user_vax.specs.Effects.{registers_only};
ghost use Rattle.user_vax.specs.Computation.{computation};
ghost use Rattle.user_vax.specs.Instruction.{evaluations, execution, execution_by};
ghost use Rattle.vax_execute.specs.Outcomes.{HasPlaces};
ghost use Rattle.vax_execute.specs.Plain.{StaysInRegisters, LiesOutside, is_at_hand, is_in_memory, is_plain, is_push};

use crate::computing::{compute_plain, is_plain};
use crate::evaluating::evaluate_at_hand;
use crate::outcome::Outcome;
use crate::ready::Ready;
use user_vax::{Evaluated, Place};
use vax_code::{Instr, Name, Operand, Row, Slot};
use vm_facts::Regs;

/// Whether a plain instruction pushes a longword.
fn is_push(name: Name) -> bool
    ensures { result ≡ is_push name }
{
    matches!(
        name,
        Name::Bsbb | Name::Bsbw | Name::Jsb | Name::Pushab | Name::Pushal | Name::Pushl
    )
}

/// Whether an operand is a number, a register or a branch target.
fn is_at_hand(operand: &Operand) -> bool
    ensures { result ≡ is_at_hand operand.now }
{
    matches!(
        operand,
        Operand::Literal(_) | Operand::Immediate(_) | Operand::Register(_) | Operand::Branch(_)
    )
}

/// Whether an instruction stays in registers: it is plain and pushes nothing, and each of its operands is a number, a register or a
/// branch target.
pub fn stays_in_registers(name: Name, instr: &Instr) -> bool
    ensures stays { result ≡ true → StaysInRegisters name instr.now }
    ensures leaves { result ≡ false → StaysInRegisters name instr.now → ⊥ }
{
    is_plain(name)
        && !is_push(name)
        && is_at_hand(&instr.a)
        && is_at_hand(&instr.b)
        && is_at_hand(&instr.c)
}

/// The operand in a place evaluated. One that the instruction doesn't have is a literal 0.
#[inline(always)]
#[tactic(auto, unfolding(user_vax::specs::Operands::evaluation))]
fn evaluate_place_at_hand(slot: Slot, regs: &Regs, present: bool, operand: &Operand) -> Evaluated
    requires operand { IsOperand operand.now }
    requires at_hand { is_at_hand operand.now ≡ true }
    requires absent { present ≡ false → operand.now ≡ Literal 0 }
    requires size { (slot.size ≡ 1) ⊎ (slot.size ≡ 2) ⊎ (slot.size ≡ 4) }
    ensures value { (memory : Answers) → run memory (evaluation slot regs.now operand.now) ≡ Ok (regs.now, result) }
    ensures place { IsPlace result.place }
    ensures outside { is_in_memory result.place ≡ false }
{
    if present {
        evaluate_at_hand(slot, regs, operand)
    } else {
        Evaluated {
            value: 0,
            place: Place::Nowhere,
        }
    }
}

/// The three operands, evaluated from left to right, which change no register.
#[inline(always)]
#[tactic(auto, using(user_vax::proofs::Runs::run_bind), unfolding(user_vax::specs::Instruction::evaluations))]
fn evaluate_all_at_hand(row: &Row, regs: &Regs, instr: &Instr) -> Ready
    requires operands { HasOperands instr.now }
    requires at_hand { StaysInRegisters row.now.name instr.now }
    ensures value { (memory : Answers) → run memory (evaluations row.now regs.now instr.now) ≡ Ok (regs.now, result.a, result.b, result.c) }
    ensures name { result.name ≡ row.now.name }
    ensures places { HasPlaces result }
    ensures outside { LiesOutside result }
{
    let a = evaluate_place_at_hand(row.slot(0), regs, instr.count > 0, &instr.a);
    let b = evaluate_place_at_hand(row.slot(1), regs, instr.count > 1, &instr.b);
    let c = evaluate_place_at_hand(row.slot(2), regs, instr.count > 2, &instr.c);
    Ready {
        name: row.name,
        a,
        b,
        c,
    }
}

/// What a plain instruction computes from operands that don't lie in memory: the registers after it, and nothing else.
#[inline(always)]
fn compute_in_registers(regs: &mut Regs, ready: &Ready)
    requires plain { is_plain ready.now.name ≡ true }
    requires pushes_none { is_push ready.now.name ≡ false }
    requires places { HasPlaces ready.now }
    requires outside { LiesOutside ready.now }
    ensures { (memory : Answers)
        → run memory (computation ready.now.name regs.old ready.now.a ready.now.b ready.now.c) ≡ Ok (registers_only regs.new) }
{
    let mut outcome = Outcome::none();
    compute_plain(regs, &mut outcome, ready);
}

/// An instruction that stays in registers, from registers whose PC stands after it.
#[inline(always)]
#[tactic(auto, using(user_vax::proofs::Runs::run_bind), unfolding(user_vax::specs::Instruction::execution, user_vax::specs::Instruction::tested_effect, user_vax::specs::Instruction::write_tests))]
fn execute(regs: &mut Regs, row: &Row, instr: &Instr)
    requires operands { HasOperands instr.now }
    requires stays { StaysInRegisters row.now.name instr.now }
    ensures { (memory : Answers) → run memory (execution row.now regs.old instr.now) ≡ Ok (registers_only regs.new) }
{
    let ready = evaluate_all_at_hand(row, regs, instr);
    compute_in_registers(regs, &ready);
}

/// Carries out an instruction that stays in registers, whichever the memory.
#[tactic(auto, unfolding(user_vax::specs::Instruction::execution_by))]
pub fn execute_in_registers(regs: &mut Regs, row: &Row, instr: &Instr)
    requires operands { HasOperands instr.now }
    requires stays { StaysInRegisters row.now.name instr.now }
    ensures { (memory : Answers) → run memory (execution_by (Some row.now) regs.old instr.now) ≡ Ok (registers_only regs.new) }
{
    regs.r[15] = regs.r[15].wrapping_add(u32::from(instr.length));
    execute(regs, row, instr);
}

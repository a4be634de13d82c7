//! What each instruction computes from its operands. Its table of cases is the one of `user_vax`.
ghost use Rattle.std.specs.Prelude.{◌≡◌, false, ◌^◌, ◌%◌, ◌-◌, ℕ, true, Some, Ok, OnOk};
ghost use Rattle.std.specs.Int.{w16, cast_signed};
ghost use Rattle.vm_facts.specs.Answers.{Answers};
ghost use Rattle.user_vax.specs.Program.{run};
ghost use Rattle.user_vax.specs.Computation.{computation};
ghost use Rattle.user_vax.specs.Effects.{division, complement};
ghost use Rattle.user_vax.specs.Operands.{IsPlace};
ghost use Rattle.vax_execute.specs.Outcomes.{IsFresh, IsOutcome, HasPlaces, effect_of, calls_procedure, ComesTo};
ghost use Rattle.vax_execute.specs.Plain.{LiesOutside, is_plain, is_push};

use crate::byte::{decrement_byte, increment_byte, low_byte, narrow, widen};
use crate::effect::{count, enter, jump_if, move_to, push_moved, store_result, test_to};
use crate::outcome::Outcome;
use crate::ready::Ready;
use crate::registers::{set_codes, set_move_codes, set_test_codes};
use crate::returning::return_from_procedure;
use crate::stack::return_from_subroutine;
use user_vax::{Place, Refused, SIGFPE};
use vax_alu::{add, compare, div, mul, neg, shift, sub};
use vax_code::Name;
use vm_facts::{Memory, Regs};

/// Whether an instruction isn't refused once its operands are evaluated, reads no more of memory, and makes no call.
#[inline(always)]
pub fn is_plain(name: Name) -> bool
    ensures { result ≡ is_plain name }
{
    !matches!(
        name,
        Name::Ret | Name::Rsb | Name::Chmk | Name::Divl2 | Name::Divl3 | Name::Callg | Name::Calls
    )
}

/// What a plain instruction computes from its operands.
#[inline(always)]
#[tactic(auto, unfolding(user_vax::specs::Computation::computation))]
pub fn compute_plain(regs: &mut Regs, outcome: &mut Outcome, ready: &Ready)
    requires fresh { IsFresh outcome.old }
    requires places { HasPlaces ready.now }
    requires plain { is_plain ready.now.name ≡ true }
    ensures value { (memory : Answers)
        → run memory (computation ready.now.name regs.old ready.now.a ready.now.b ready.now.c) ≡ Ok (effect_of regs.new outcome.new) }
    ensures sound { IsOutcome outcome.new }
    ensures unwritten { is_push ready.now.name ≡ false → LiesOutside ready.now → IsFresh outcome.new }
{
    let (a, b, c) = (&ready.a, &ready.b, &ready.c);
    match ready.name {
        Name::Nop => {},
        Name::Bsbb | Name::Bsbw | Name::Jsb => enter(regs, outcome, a.value),
        Name::Brb | Name::Brw | Name::Jmp => regs.r[15] = a.value,
        Name::Bneq => jump_if(regs, !regs.z, a.value),
        Name::Beql => jump_if(regs, regs.z, a.value),
        Name::Bgtr => jump_if(regs, !(regs.n || regs.z), a.value),
        Name::Bleq => jump_if(regs, regs.n || regs.z, a.value),
        Name::Bgeq => jump_if(regs, !regs.n, a.value),
        Name::Blss => jump_if(regs, regs.n, a.value),
        Name::Bgtru => jump_if(regs, !(regs.c || regs.z), a.value),
        Name::Blequ => jump_if(regs, regs.c || regs.z, a.value),
        Name::Bvc => jump_if(regs, !regs.v, a.value),
        Name::Bvs => jump_if(regs, regs.v, a.value),
        Name::Bcc => jump_if(regs, !regs.c, a.value),
        Name::Bcs => jump_if(regs, regs.c, a.value),
        Name::Movb => move_to(regs, outcome, 1, &b.place, a.value),
        Name::Movw => move_to(regs, outcome, 2, &b.place, a.value),
        Name::Movl | Name::Movzbl | Name::Movab | Name::Moval => move_to(
            regs, outcome, 4, &b.place, a.value,
        ),
        Name::Cmpb => set_codes(regs, compare(a.value, b.value, 1)),
        Name::Cmpw => set_codes(regs, compare(a.value, b.value, 2)),
        Name::Cmpl => set_codes(regs, compare(a.value, b.value, 4)),
        Name::Clrb => move_to(regs, outcome, 1, &a.place, 0),
        Name::Clrl => move_to(regs, outcome, 4, &a.place, 0),
        Name::Tstb => set_test_codes(regs, 1, a.value),
        Name::Tstl => set_test_codes(regs, 4, a.value),
        Name::Pushab | Name::Pushal | Name::Pushl => push_moved(regs, outcome, a.value),
        Name::Addl2 => store_result(regs, outcome, 4, &b.place, add(b.value, a.value)),
        Name::Addl3 => store_result(regs, outcome, 4, &c.place, add(b.value, a.value)),
        Name::Subl2 => store_result(regs, outcome, 4, &b.place, sub(b.value, a.value)),
        Name::Subl3 => store_result(regs, outcome, 4, &c.place, sub(b.value, a.value)),
        Name::Mull2 => store_result(regs, outcome, 4, &b.place, mul(b.value, a.value)),
        Name::Mull3 => store_result(regs, outcome, 4, &c.place, mul(b.value, a.value)),
        Name::Ashl => store_result(
            regs,
            outcome,
            4,
            &c.place,
            shift(b.value, low_byte(a.value).cast_signed()),
        ),
        Name::Mnegl => store_result(regs, outcome, 4, &b.place, neg(a.value)),
        Name::Cvtbl => test_to(regs, outcome, &b.place, widen(a.value)),
        Name::Cvtlb => store_result(regs, outcome, 1, &b.place, narrow(a.value)),
        Name::Bisl2 => move_to(regs, outcome, 4, &b.place, b.value | a.value),
        Name::Bisl3 => move_to(regs, outcome, 4, &c.place, b.value | a.value),
        Name::Bicl2 => move_to(regs, outcome, 4, &b.place, b.value & complement(a.value)),
        Name::Bicl3 => move_to(regs, outcome, 4, &c.place, b.value & complement(a.value)),
        Name::Xorl2 => move_to(regs, outcome, 4, &b.place, b.value ^ a.value),
        Name::Xorl3 => move_to(regs, outcome, 4, &c.place, b.value ^ a.value),
        Name::Mcoml => move_to(regs, outcome, 4, &b.place, complement(a.value)),
        Name::Bitl => set_move_codes(regs, 4, a.value & b.value),
        Name::Incb => store_result(regs, outcome, 1, &a.place, increment_byte(a.value)),
        Name::Incl => store_result(regs, outcome, 4, &a.place, add(a.value, 1)),
        Name::Decb => store_result(regs, outcome, 1, &a.place, decrement_byte(a.value)),
        Name::Decl => store_result(regs, outcome, 4, &a.place, sub(a.value, 1)),
        Name::Blbs => jump_if(regs, a.value % 2 == 1, b.value),
        Name::Blbc => jump_if(regs, a.value % 2 == 0, b.value),
        Name::Aoblss => {
            let sum = add(b.value, 1);
            let test = sum.value.cast_signed() < a.value.cast_signed();
            count(regs, outcome, &b.place, sum, test, c.value)
        }
        Name::Aobleq => {
            let sum = add(b.value, 1);
            let test = sum.value.cast_signed() <= a.value.cast_signed();
            count(regs, outcome, &b.place, sum, test, c.value)
        }
        Name::Sobgeq => {
            let sum = sub(a.value, 1);
            count(regs, outcome, &a.place, sum, !sum.n, b.value)
        }
        Name::Sobgtr => {
            let sum = sub(a.value, 1);
            count(regs, outcome, &a.place, sum, !(sum.n || sum.z), b.value)
        }
        _ => unreachable!(),
    }
}

/// What an instruction that isn't plain computes from its operands.
#[inline(never)]
#[tactic(auto, unfolding(user_vax::specs::Computation::computation))]
fn compute_special<M: Memory>(
    memory: &M,
    regs: &mut Regs,
    outcome: &mut Outcome,
    ready: &Ready,
) -> Result<(), Refused>
    requires fresh { IsFresh outcome.old }
    requires places { HasPlaces ready.now }
    requires no_frame { calls_procedure ready.now.name ≡ false }
    requires special { is_plain ready.now.name ≡ false }
    ensures value { ComesTo result (effect_of regs.new outcome.new)
        (run (M.answers memory.now) (computation ready.now.name regs.old ready.now.a ready.now.b ready.now.c)) }
    ensures sound { OnOk result (IsOutcome outcome.new) }
{
    let (a, b, c) = (&ready.a, &ready.b, &ready.c);
    match ready.name {
        Name::Ret => return return_from_procedure(memory, regs),
        Name::Rsb => return return_from_subroutine(memory, regs),
        Name::Chmk => call(outcome, a.value),
        Name::Divl2 => return divide(regs, outcome, &b.place, b.value, a.value),
        Name::Divl3 => return divide(regs, outcome, &c.place, b.value, a.value),
        _ => unreachable!(),
    }
    Ok(())
}

/// What an instruction computes from its operands.
pub fn compute<M: Memory>(
    memory: &M,
    regs: &mut Regs,
    outcome: &mut Outcome,
    ready: &Ready,
) -> Result<(), Refused>
    requires fresh { IsFresh outcome.old }
    requires places { HasPlaces ready.now }
    requires no_frame { calls_procedure ready.now.name ≡ false }
    ensures value { ComesTo result (effect_of regs.new outcome.new)
        (run (M.answers memory.now) (computation ready.now.name regs.old ready.now.a ready.now.b ready.now.c)) }
    ensures sound { OnOk result (IsOutcome outcome.new) }
{
    if is_plain(ready.name) {
        compute_plain(regs, outcome, ready);
        Ok(())
    } else {
        compute_special(memory, regs, outcome, ready)
    }
}

/// Each bit turned.
fn complement(word: u32) -> u32
    ensures { result ≡ complement word }
{
    u32::MAX - word
}

/// A quotient to a place.
#[tactic(auto, unfolding(user_vax::specs::Effects::division))]
fn divide(
    regs: &mut Regs,
    outcome: &mut Outcome,
    place: &Place,
    dividend: u32,
    divisor: u32,
) -> Result<(), Refused>
    requires fresh { IsFresh outcome.old }
    requires place { IsPlace place.now }
    ensures value { (memory : Answers) → ComesTo result (effect_of regs.new outcome.new) (run memory (division regs.old place.now dividend divisor)) }
    ensures sound { OnOk result (IsOutcome outcome.new) }
{
    match div(dividend, divisor) {
        None => Err(Refused::Signal(SIGFPE)),
        Some(sum) => {
            store_result(regs, outcome, 4, place, sum);
            Ok(())
        }
    }
}

/// A system call, whose number is a signed word.
fn call(outcome: &mut Outcome, value: u32)
    requires { IsFresh outcome.old }
    ensures call { outcome.new ≡ record outcome.old { call = Some (cast_signed w16 (value % 2 ^ 16)) } }
    ensures sound { IsOutcome outcome.new }
{
    outcome.call = Some(i32::from(((value % 0x1_0000) as u16).cast_signed()));
}

//! The few kinds of effect of which all instructions are made: a store, a jump, a push, a count.
ghost use Rattle.std.specs.Prelude.{◌≡◌, false};
ghost use Rattle.user_vax.specs.Effects.{registers_only, with_move_codes, with_test_codes, store_effect, move_effect, result_effect, jump_effect, count_effect, entry_effect, push_effect};
ghost use Rattle.user_vax.specs.Operands.{IsPlace};
ghost use Rattle.vax_execute.specs.Outcomes.{IsFresh, IsSize, IsOutcome, effect_of};
ghost use Rattle.vax_execute.specs.Plain.{is_in_memory};

use crate::outcome::{Outcome, Write};
use crate::registers::{set_codes, set_move_codes, set_register, set_test_codes};
use user_vax::Place;
use vax_alu::Sum;
use vm_facts::Regs;

/// The low bytes of a word to a place.
#[tactic(auto, unfolding(user_vax::specs::Effects::store_effect))]
#[inline(always)]
pub fn store(regs: &mut Regs, outcome: &mut Outcome, size: u8, place: &Place, value: u32)
    requires fresh { IsFresh outcome.old }
    requires place { IsPlace place.now }
    requires size { IsSize size }
    ensures effect { effect_of regs.new outcome.new ≡ store_effect regs.old size place.now value }
    ensures sound { IsOutcome outcome.new }
    ensures unwritten { is_in_memory place.now ≡ false → IsFresh outcome.new }
{
    match place {
        Place::Nowhere => {}
        Place::Register(reg) => {
            let old = regs.r[*reg as usize];
            let new = match size {
                1 => old / 0x100 * 0x100 + value % 0x100,
                2 => old / 0x1_0000 * 0x1_0000 + value % 0x1_0000,
                _ => value,
            };
            set_register(regs, *reg, new);
        }
        Place::Memory(address) => outcome.write(Write {
            address: *address,
            value,
            size,
        }),
    }
}

/// A moved number to a place.
#[inline(always)]
pub fn move_to(regs: &mut Regs, outcome: &mut Outcome, size: u8, place: &Place, value: u32)
    requires fresh { IsFresh outcome.old }
    requires place { IsPlace place.now }
    requires size { IsSize size }
    ensures effect { effect_of regs.new outcome.new ≡ move_effect regs.old size place.now value }
    ensures sound { IsOutcome outcome.new }
    ensures unwritten { is_in_memory place.now ≡ false → IsFresh outcome.new }
{
    set_move_codes(regs, size, value);
    store(regs, outcome, size, place, value);
}

/// A number with the codes of a test to a place.
#[inline(always)]
pub fn test_to(regs: &mut Regs, outcome: &mut Outcome, place: &Place, value: u32)
    requires fresh { IsFresh outcome.old }
    requires place { IsPlace place.now }
    ensures effect { effect_of regs.new outcome.new ≡ store_effect (with_test_codes regs.old 4 value) 4 place.now value }
    ensures sound { IsOutcome outcome.new }
    ensures unwritten { is_in_memory place.now ≡ false → IsFresh outcome.new }
{
    set_test_codes(regs, 4, value);
    store(regs, outcome, 4, place, value);
}

/// A result with its codes to a place.
#[inline(always)]
pub fn store_result(regs: &mut Regs, outcome: &mut Outcome, size: u8, place: &Place, sum: Sum)
    requires fresh { IsFresh outcome.old }
    requires place { IsPlace place.now }
    requires size { IsSize size }
    ensures effect { effect_of regs.new outcome.new ≡ result_effect regs.old size place.now sum }
    ensures sound { IsOutcome outcome.new }
    ensures unwritten { is_in_memory place.now ≡ false → IsFresh outcome.new }
{
    set_codes(regs, sum);
    store(regs, outcome, size, place, sum.value);
}

/// A jump where the test holds.
pub fn jump_if(regs: &mut Regs, test: bool, target: u32)
    ensures { registers_only regs.new ≡ jump_effect test regs.old target }
{
    if test {
        regs.r[15] = target;
    }
}

/// The next index with its codes, but for C, to its place, and a jump where the test holds.
#[inline(always)]
pub fn count(
    regs: &mut Regs,
    outcome: &mut Outcome,
    place: &Place,
    sum: Sum,
    test: bool,
    target: u32,
)
    requires fresh { IsFresh outcome.old }
    requires place { IsPlace place.now }
    ensures effect { effect_of regs.new outcome.new ≡ count_effect regs.old place.now sum test target }
    ensures sound { IsOutcome outcome.new }
    ensures unwritten { is_in_memory place.now ≡ false → IsFresh outcome.new }
{
    regs.n = sum.n;
    regs.z = sum.z;
    regs.v = sum.v;
    store(regs, outcome, 4, place, sum.value);
    if test {
        regs.r[15] = target;
    }
}

/// The call of a subroutine.
#[inline(always)]
pub fn enter(regs: &mut Regs, outcome: &mut Outcome, target: u32)
    requires { IsFresh outcome.old }
    ensures effect { effect_of regs.new outcome.new ≡ entry_effect regs.old target }
    ensures sound { IsOutcome outcome.new }
{
    let pc = regs.r[15];
    push(regs, outcome, pc);
    regs.r[15] = target;
}

/// A longword to the stack.
#[inline(always)]
pub fn push(regs: &mut Regs, outcome: &mut Outcome, value: u32)
    requires { IsFresh outcome.old }
    ensures effect { effect_of regs.new outcome.new ≡ push_effect regs.old value }
    ensures sound { IsOutcome outcome.new }
{
    outcome.push(regs, value);
}

/// A longword to the stack, with the codes of its move.
#[inline(always)]
pub fn push_moved(regs: &mut Regs, outcome: &mut Outcome, value: u32)
    requires { IsFresh outcome.old }
    ensures effect { effect_of regs.new outcome.new ≡ push_effect (with_move_codes regs.old 4 value) value }
    ensures sound { IsOutcome outcome.new }
{
    set_move_codes(regs, 4, value);
    push(regs, outcome, value);
}

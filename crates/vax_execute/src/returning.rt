//! The return from a procedure: it pops what its call pushed.
ghost use Rattle.std.specs.Prelude.{◌≡◌, ◌<◌, ◌*◌, ◌%◌, if◌then◌else◌};
ghost use Rattle.vm_facts.specs.Ahead.{AreAhead};
ghost use Rattle.user_vax.specs.Program.{run, Gives};
ghost use Rattle.user_vax.specs.Effects.{pop_into, registers_only};
ghost use Rattle.user_vax.specs.Frames.{bit, restored, linkage, with_raised_stack, arguments_dropped, unwound, with_state_codes, registers_returned, procedure_return};
ghost use Rattle.vax_execute.specs.Outcomes.{ComesTo, Leaves};

use crate::stack::{pop, pop_into};
use crate::window::Window;
use user_vax::{Refused, SIGILL};
use vm_facts::{Memory, Regs};

fn is_set(number: u32, k: u32) -> bool
    requires { k < 32 }
    ensures { result ≡ bit number k }
{
    (number >> k) % 2 == 1
}

/// A register is popped where its bit of the mask is set.
fn restore_one<M: Memory>(
    memory: &M,
    window: Window<'_>,
    mask: u32,
    reg: u8,
    regs: &mut Regs,
) -> Result<(), Refused>
    requires window { AreAhead (M.answers memory.now) window.from window.held.now }
    requires register { reg < 16 }
    ensures { Leaves result regs.new (run (M.answers memory.now) (if bit mask reg then pop_into regs.old reg else Gives regs.old)) }
{
    if is_set(mask, u32::from(reg)) {
        pop_into(memory, window, regs, reg)
    } else {
        Ok(())
    }
}

/// The registers that a mask names are popped, R0 first.
#[tactic(auto, using(crate::proofs::Restoring::restored_more), unfolding(user_vax::specs::Frames::restored))]
fn restore<M: Memory>(
    memory: &M,
    window: Window<'_>,
    mask: u32,
    regs: &mut Regs,
) -> Result<(), Refused>
    requires { AreAhead (M.answers memory.now) window.from window.held.now }
    ensures { Leaves result regs.new (run (M.answers memory.now) (restored 12 mask regs.old)) }
{
    for reg in 0..12u8 {
        restore_one(memory, window, mask, reg, regs)?;
    }
    Ok(())
}

/// AP, FP and PC are popped.
#[tactic(auto, using(user_vax::proofs::Runs::run_bind), unfolding(user_vax::specs::Frames::linkage))]
fn pop_linkage<M: Memory>(memory: &M, window: Window<'_>, regs: &mut Regs) -> Result<(), Refused>
    requires { AreAhead (M.answers memory.now) window.from window.held.now }
    ensures { Leaves result regs.new (run (M.answers memory.now) (linkage regs.old)) }
{
    pop_into(memory, window, regs, 12)?;
    pop_into(memory, window, regs, 13)?;
    pop_into(memory, window, regs, 15)
}

fn raise_stack(regs: &mut Regs, by: u32)
    ensures { regs.new ≡ with_raised_stack regs.old by }
{
    regs.r[14] = regs.r[14].wrapping_add(by);
}

/// The argument list is dropped, where a count of it was pushed.
#[tactic(auto, using(user_vax::proofs::Runs::run_bind), unfolding(user_vax::specs::Frames::arguments_dropped))]
fn drop_arguments<M: Memory>(
    memory: &M,
    window: Window<'_>,
    counted: bool,
    regs: &mut Regs,
) -> Result<(), Refused>
    requires { AreAhead (M.answers memory.now) window.from window.held.now }
    ensures { Leaves result regs.new (run (M.answers memory.now) (arguments_dropped counted regs.old)) }
{
    if !counted {
        return Ok(());
    }
    let count = pop(memory, window, regs)?;
    raise_stack(regs, 4 * (count % 0x100));
    Ok(())
}

/// What the return does once the state longword is popped.
#[tactic(auto, using(user_vax::proofs::Runs::run_bind), unfolding(user_vax::specs::Frames::unwound))]
fn unwind<M: Memory>(
    memory: &M,
    window: Window<'_>,
    state: u32,
    regs: &mut Regs,
) -> Result<(), Refused>
    requires { AreAhead (M.answers memory.now) window.from window.held.now }
    ensures { Leaves result regs.new (run (M.answers memory.now) (unwound state regs.old)) }
{
    pop_linkage(memory, window, regs)?;
    restore(memory, window, state / 0x1_0000, regs)?;
    raise_stack(regs, state / 0x4000_0000);
    drop_arguments(memory, window, is_set(state, 29), regs)
}

fn set_state_codes(regs: &mut Regs, state: u32)
    ensures { regs.new ≡ with_state_codes regs.old state }
{
    regs.n = is_set(state, 3);
    regs.z = is_set(state, 2);
    regs.v = is_set(state, 1);
    regs.c = is_set(state, 0);
}

/// The registers after the return from a procedure.
#[tactic(auto, using(user_vax::proofs::Runs::run_bind), unfolding(user_vax::specs::Frames::registers_returned))]
fn return_registers<M: Memory>(memory: &M, regs: &mut Regs) -> Result<(), Refused>
    ensures { Leaves result regs.new (run (M.answers memory.now) (registers_returned regs.old)) }
{
    let from = regs.r[13].wrapping_add(4);
    regs.r[14] = from;
    let window = Window {
        from,
        held: memory.ahead(from),
    };
    let state = pop(memory, window, regs)?;
    if state / 0x10 % 0x1000 != 0 {
        return Err(Refused::Signal(SIGILL));
    }
    unwind(memory, window, state, regs)?;
    set_state_codes(regs, state);
    Ok(())
}

/// The return from a procedure.
#[tactic(auto, using(user_vax::proofs::Runs::run_bind), unfolding(user_vax::specs::Frames::procedure_return))]
pub fn return_from_procedure<M: Memory>(memory: &M, regs: &mut Regs) -> Result<(), Refused>
    ensures { ComesTo result (registers_only regs.new) (run (M.answers memory.now) (procedure_return regs.old)) }
{
    return_registers(memory, regs)
}

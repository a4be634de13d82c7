//! Pops longwords, and returns from a subroutine.
ghost use Rattle.std.specs.Prelude.{◌≡◌, ◌<◌};
ghost use Rattle.vm_facts.specs.Ahead.{AreAhead};
ghost use Rattle.user_vax.specs.Program.{run};
ghost use Rattle.user_vax.specs.Effects.{pop, pop_into, registers_only, subroutine_return};
ghost use Rattle.vax_execute.specs.Outcomes.{ComesTo, Leaves, LeavesWith};

use crate::registers::set_register;
use crate::window::{Window, read_long_in};
use user_vax::Refused;
use vm_facts::{Memory, Regs};

/// Pops the longword that SP names, of the bytes of a window where they hold it.
#[tactic(auto, using(user_vax::proofs::Runs::run_bind), unfolding(user_vax::specs::Effects::pop))]
pub fn pop<M: Memory>(memory: &M, window: Window<'_>, regs: &mut Regs) -> Result<u32, Refused>
    requires { AreAhead (M.answers memory.now) window.from window.held.now }
    ensures { LeavesWith result regs.new (run (M.answers memory.now) (pop regs.old)) }
{
    let top = regs.r[14];
    let value = read_long_in(memory, window, top)?;
    regs.r[14] = top.wrapping_add(4);
    Ok(value)
}

/// Pops the longword that SP names into a register.
#[tactic(auto, using(user_vax::proofs::Runs::run_bind), unfolding(user_vax::specs::Effects::pop_into))]
pub fn pop_into<M: Memory>(
    memory: &M,
    window: Window<'_>,
    regs: &mut Regs,
    reg: u8,
) -> Result<(), Refused>
    requires window { AreAhead (M.answers memory.now) window.from window.held.now }
    requires register { reg < 16 }
    ensures { Leaves result regs.new (run (M.answers memory.now) (pop_into regs.old reg)) }
{
    let value = pop(memory, window, regs)?;
    set_register(regs, reg, value);
    Ok(())
}

/// The return from a subroutine.
#[tactic(auto, using(user_vax::proofs::Runs::run_bind), unfolding(user_vax::specs::Effects::subroutine_return))]
pub fn return_from_subroutine<M: Memory>(memory: &M, regs: &mut Regs) -> Result<(), Refused>
    ensures { ComesTo result (registers_only regs.new) (run (M.answers memory.now) (subroutine_return regs.old)) }
{
    let nothing = Window { from: 0, held: &[] };
    pop_into(memory, nothing, regs, 15)
}

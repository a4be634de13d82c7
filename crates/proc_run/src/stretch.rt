//! Carries further instructions out within one loan of the memory, for speed. It must leave what single attempts
//! leave, and end at the first byte that misses.
ghost use Rattle.std.specs.Prelude.{◌+◌, ◌<◌, ◌≤◌, ◌^◌, false, is_ok, IfErr, IfSome};
ghost use Rattle.flat_state.specs.Journal.{instructions_of};
ghost use Rattle.machine_state.specs.Going.{CanGoOn};
ghost use Rattle.machine_state.specs.UserMemory.{CanLend, Wrote, kernel_answers};
ghost use Rattle.step_units.specs.Callers.{regs_of};
ghost use Rattle.step_units.specs.Growth.{space_of_pid};
ghost use Rattle.user_step.specs.FixedCode.{AreFixed};
ghost use Rattle.proc_run.specs.Calls.{own_answers};
ghost use Rattle.proc_run.specs.Runs.{IsSteady};
ghost use Rattle.proc_run.specs.Stretch.{GoesOr, StretchOf, MissesByte, RanOn};

use crate::attempting::last_counts;
use crate::choosing::ready_regs;
use machine_state::Machine;
use user_step::{DecodeCache, FixedCode, step_fixed, step_unless_call};
use user_vax::Stepped;
use vm_facts::{Memory, Regs};

/// A stretch of more instructions than these is a long one.
const FEW: u32 = 32;

/// A byte to which an instruction has no access yet.
#[derive(Clone, Copy, Drop)]
pub struct Missed {
    pub address: u32,
    pub write: bool,
}

/// How many instructions were carried out, one after another, and the byte that the one after them missed, where it missed one.
#[derive(Clone, Copy, Drop)]
pub struct Reach {
    pub count: u32,
    pub missed: Option<Missed>,
}

// Carries an instruction out, unless it makes a call. Where it isn't carried out nothing changed, and the answer is the byte that it
// missed, where it missed one.
fn go_on<M: Memory>(
    cache: &mut DecodeCache,
    memory: &mut M,
    regs: &mut Regs,
) -> Result<(), Option<Missed>>
    ensures goes { GoesOr (is_ok result) (M.answers memory.old) regs.old regs.new (λ ws. M.wrote memory.old ws memory.new) }
    ensures missed { IfErr result (λ missed. IfSome missed (MissesByte (M.answers memory.new) regs.new)) }
{
    match step_unless_call(cache, regs, memory) {
        Stepped::Done => Ok(()),
        Stepped::Miss { address, write } => Err(Some(Missed { address, write })),
        Stepped::Call(_) => Err(None),
        Stepped::Below { .. } | Stepped::Signal(_) => Err(None),
    }
}

// The same, where addresses are remembered at which instructions stand in bytes that stay.
fn go_on_fixed<M: Memory>(
    fixed: &mut FixedCode,
    cache: &mut DecodeCache,
    memory: &mut M,
    regs: &mut Regs,
) -> Result<(), Option<Missed>>
    requires { AreFixed (M.answers memory.old) fixed.old cache.old }
    ensures goes { GoesOr (is_ok result) (M.answers memory.old) regs.old regs.new (λ ws. M.wrote memory.old ws memory.new) }
    ensures missed { IfErr result (λ missed. IfSome missed (MissesByte (M.answers memory.new) regs.new)) }
    ensures fixed { AreFixed (M.answers memory.new) fixed.new cache.new }
{
    match step_fixed(fixed, cache, regs, memory) {
        Stepped::Done => Ok(()),
        Stepped::Miss { address, write } => {
            let byte = Missed { address, write };
            Err(Some(byte))
        }
        Stepped::Call(_number) => Err(None),
        Stepped::Below { .. } | Stepped::Signal(_) => Err(None),
    }
}

// Carries instructions out, one after another, up to one that isn't, and at most so many.
fn short_stretch<M: Memory>(
    cache: &mut DecodeCache,
    memory: &mut M,
    regs: &mut Regs,
    most: u32,
) -> Reach
    ensures few { result.count ≤ most }
    ensures carried { StretchOf (M.answers memory.old) regs.old result.count regs.new (λ ws. M.wrote memory.old ws memory.new) }
    ensures missed { IfSome result.missed (MissesByte (M.answers memory.new) regs.new) }
{
    for count in 0..most {
        match go_on(cache, memory, regs) {
            Ok(()) => {}
            Err(missed) => return Reach { count, missed },
        }
    }
    Reach {
        count: most,
        missed: None,
    }
}

// The same. Each address at which an instruction stands in bytes that stay is remembered, which takes some time at first.
fn long_stretch<M: Memory>(
    cache: &mut DecodeCache,
    memory: &mut M,
    regs: &mut Regs,
    most: u32,
) -> Reach
    ensures few { result.count ≤ most }
    ensures carried { StretchOf (M.answers memory.old) regs.old result.count regs.new (λ ws. M.wrote memory.old ws memory.new) }
    ensures missed { IfSome result.missed (MissesByte (M.answers memory.new) regs.new) }
{
    let mut fixed = FixedCode::none();
    for count in 0..most {
        match go_on_fixed(&mut fixed, cache, memory, regs) {
            Ok(()) => {}
            Err(missed) => return Reach { count, missed },
        }
    }
    Reach {
        count: most,
        missed: None,
    }
}

// The same: a few by themselves, and if these were all carried out the others as a long stretch.
fn stretch<M: Memory>(cache: &mut DecodeCache, memory: &mut M, regs: &mut Regs, most: u32) -> Reach
    ensures few { result.count ≤ most }
    ensures carried { StretchOf (M.answers memory.old) regs.old result.count regs.new (λ ws. M.wrote memory.old ws memory.new) }
    ensures missed { IfSome result.missed (MissesByte (M.answers memory.new) regs.new) }
{
    let first = short_stretch(cache, memory, regs, most.min(FEW));
    if first.count < FEW {
        return first;
    }
    let rest = long_stretch(cache, memory, regs, most - first.count);
    Reach {
        count: first.count + rest.count,
        missed: rest.missed,
    }
}

// The same over the frames of the machine.
fn carry_on(cache: &mut DecodeCache, m: &mut Machine, pid: u32, regs: &mut Regs, most: u32) -> Reach
    requires ready { CanGoOn m.old }
    requires lends { CanLend m.old.kernel pid }
    ensures few { result.count ≤ most }
    ensures carried { StretchOf (kernel_answers m.old.kernel (space_of_pid m.old.kernel pid)) regs.old result.count regs.new
        (λ ws. Wrote m.old (space_of_pid m.old.kernel pid) ws m.new) }
    ensures missed { IfSome result.missed (MissesByte (kernel_answers m.new.kernel (space_of_pid m.old.kernel pid)) regs.new) }
    ensures goes_on { CanGoOn m.new }
{
    stretch(cache, &mut m.memory(pid), regs, most)
}

/// Further instructions of a process are carried out and counted, one after another and at most so many, up to one that makes a
/// call or has no access to a byte. None are where the process can't run, or the last entry counts none of its instructions.
pub fn run_on(cache: &mut DecodeCache, m: &mut Machine, pid: u32, most: u32) -> Reach
    requires steady { IsSteady m.old }
    requires fits { instructions_of m.old.kernel.journal + most < 2 ^ 32 }
    ensures few { result.count ≤ most }
    ensures ran { RanOn m.old pid result.count m.new }
    ensures missed { IfSome result.missed (MissesByte (own_answers m.new pid) (regs_of m.new.kernel pid)) }
    ensures goes_on { CanGoOn m.new }
{
    let none = Reach {
        count: 0,
        missed: None,
    };
    let Some(mut regs) = ready_regs(m, pid) else {
        return none;
    };
    if !last_counts(m.journal(), pid) {
        return none;
    }
    let reach = carry_on(cache, m, pid, &mut regs, most);
    let count = reach.count;
    if count == 0 {
        return reach;
    }
    m.ran_on(pid, &regs, count);
    reach
}

//! An instruction is tried, with one byte more that it may write each time, until all that it writes may be written.
ghost use Rattle.std.specs.Prelude.{◌≡◌, ◌↔◌, true, IfOk};
ghost use Rattle.user_vax.specs.Program.{run};
ghost use Rattle.user_vax.specs.Instruction.{instruction, answer_of};
ghost use Rattle.user_step.specs.Slots.{wanted};

use crate::slots::DryMemory;
use crate::step;
use std::alloc::Global;
use user_vax::Stepped;
use vm_facts::{MayWrite, Memory, NoMemory, Regs};

// The byte for which a trial missed, where it may be written.
fn wanted<M: Memory>(memory: &M, stepped: Stepped) -> Option<u32>
    ensures { result ≡ wanted (M.answers memory.now) stepped }
{
    match stepped {
        Stepped::Miss {
            address,
            write: true,
        } => match memory.may_write(address) {
            MayWrite::May => Some(address),
            _ => None,
        },
        _ => None,
    }
}

fn is_done(stepped: Stepped) -> bool
    ensures { (result ≡ true) ↔ (stepped ≡ Stepped.Done) }
{
    matches!(stepped, Stepped::Done)
}

/// Whether the instruction that PC names would be carried out, and calls nothing. Nothing is written.
pub fn completes<M: Memory>(alloc: Global, memory: &M, regs: &Regs) -> Result<bool, NoMemory>
    ensures { IfOk result (λ done. (done ≡ true) ↔ (answer_of (run (M.answers memory.now) (instruction regs.now)) ≡ Stepped.Done)) }
{
    let mut dry = DryMemory::over(alloc, memory);
    loop {
        let mut after = *regs;
        let stepped = step(&mut after, &mut dry);
        match wanted(memory, stepped) {
            Some(address) => dry.grant(address)?,
            None => return Ok(is_done(stepped)),
        }
    }
}

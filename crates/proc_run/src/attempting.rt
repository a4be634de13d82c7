//! Carries one instruction out over the frames of the machine, and counts it. Where the journal is full it may only
//! be tried, with no write.
ghost use Rattle.std.specs.Prelude.{◌≡◌, ◌↔◌, false, true, IfOk};
ghost use Rattle.std.specs.Option.{is_some};
ghost use Rattle.vm_facts.specs.declared.entry.Entry.TheVariants.{Ran};
ghost use Rattle.user_vax.specs.Program.{run};
ghost use Rattle.user_vax.specs.Instruction.{instruction, answer_of, registers_after, writes_of};
ghost use Rattle.machine_state.specs.Going.{CanGoOn};
ghost use Rattle.machine_state.specs.Joined.{instructions_in, last_says, IsFullFor};
ghost use Rattle.machine_state.specs.UserMemory.{CanLend, Wrote, kernel_answers};
ghost use Rattle.step_units.specs.Growth.{space_of_pid};
ghost use Rattle.proc_run.specs.Stretch.{Leaves};

use machine_state::Machine;
use std::alloc::Global;
use user_step::{DecodeCache, step, step_cached};
use user_vax::Stepped;
use vm_facts::{Entry, NoMemory, Regs};

// Whether an entry counts instructions of this process.
fn counts(e: &Entry, of: u32) -> bool
    ensures { result ≡ is_some (instructions_in of e.now) }
{
    match e {
        Entry::Ran { pid, .. } => *pid == of,
        _ => false,
    }
}

/// Whether the last entry does.
pub fn last_counts(journal: &[Entry], of: u32) -> bool
    ensures { result ≡ is_some (last_says (instructions_in of) journal.now) }
{
    match journal.last() {
        Some(e) => counts(e, of),
        None => false,
    }
}

/// Whether the journal takes one more instruction of a process: as a further entry, or by the count of its last.
pub fn has_room(m: &Machine, pid: u32) -> bool
    ensures { (result ≡ false) ↔ IsFullFor m.now.kernel.journal m.now.params.journal (Ran pid 1) }
{
    let journal = m.journal();
    journal.len() < m.params().journal as usize || last_counts(journal, pid)
}

/// Whether the next instruction of a process is carried out, and makes no call. Nothing changes.
pub fn completes(alloc: Global, m: &mut Machine, pid: u32, regs: &Regs) -> Result<bool, NoMemory>
    requires ready { CanGoOn m.old }
    requires lends { CanLend m.old.kernel pid }
    ensures value { IfOk result
        (λ done. (done ≡ true) ↔ (answer_of (run (kernel_answers m.old.kernel (space_of_pid m.old.kernel pid)) (instruction regs.now)) ≡ Stepped.Done)) }
    ensures same { m.new ≡ m.old }
{
    user_step::completes(alloc, &m.memory(pid), regs)
}

/// Carries the next instruction of a process out. Where it isn't carried out, or makes a call, the machine stays as it was.
pub fn attempt(m: &mut Machine, pid: u32, regs: &mut Regs) -> Stepped
    requires ready { CanGoOn m.old }
    requires lends { CanLend m.old.kernel pid }
    ensures answer { result ≡ answer_of (run (kernel_answers m.old.kernel (space_of_pid m.old.kernel pid)) (instruction regs.old)) }
    ensures registers { regs.new ≡ registers_after regs.old (run (kernel_answers m.old.kernel (space_of_pid m.old.kernel pid)) (instruction regs.old)) }
    ensures wrote { Wrote m.old (space_of_pid m.old.kernel pid)
        (writes_of (run (kernel_answers m.old.kernel (space_of_pid m.old.kernel pid)) (instruction regs.old))) m.new }
    ensures only { Leaves result m.old m.new }
    ensures goes_on { CanGoOn m.new }
{
    step(regs, &mut m.memory(pid))
}

/// The same by a cache: an instruction that is in it isn't decoded anew, and another one is entered.
pub fn attempt_cached(
    cache: &mut DecodeCache,
    m: &mut Machine,
    pid: u32,
    regs: &mut Regs,
) -> Stepped
    requires ready { CanGoOn m.old }
    requires lends { CanLend m.old.kernel pid }
    ensures answer { result ≡ answer_of (run (kernel_answers m.old.kernel (space_of_pid m.old.kernel pid)) (instruction regs.old)) }
    ensures registers { regs.new ≡ registers_after regs.old (run (kernel_answers m.old.kernel (space_of_pid m.old.kernel pid)) (instruction regs.old)) }
    ensures wrote { Wrote m.old (space_of_pid m.old.kernel pid)
        (writes_of (run (kernel_answers m.old.kernel (space_of_pid m.old.kernel pid)) (instruction regs.old))) m.new }
    ensures only { Leaves result m.old m.new }
    ensures goes_on { CanGoOn m.new }
{
    step_cached(cache, regs, &mut m.memory(pid))
}

//! Judges units by which processes go out and come in. Their u pages alone may be moved here.
ghost use Rattle.std.specs.Prelude.{◌≡◌, ◌≤◌, Some, None, IfOk};
ghost use Rattle.flat_state.specs.Flat.{FlatState};
ghost use Rattle.kernel_model.specs.Coupled.{SameTables};
ghost use Rattle.kernel_model.specs.Kernel.{Proc as Process};
ghost use Rattle.kernel_model.specs.Stands.{OutHold};
ghost use Rattle.kernel_model.specs.UPage.{AreRegs};
ghost use Rattle.kernel_model.specs.Unit.{proc_of};
ghost use Rattle.machine_state.specs.Going.{CanGoOn};
ghost use Rattle.paged_model.specs.Leaving.{out_reason, in_reason};
ghost use Rattle.step_judge.specs.Leaving.{JudgedOut, JudgedIn};
ghost use Rattle.step_judge.specs.Told.{GoesOnWith};

use crate::moving::or_memory;
use io_edge::SwapDev;
use machine_state::Machine;
use paged_model::Reason;
use step_judge::move_judge::{judge_in, judge_out};
use vm_facts::NoMemory;

/// A process goes out.
pub(crate) fn judge_leaving<D: SwapDev>(
    m: &mut Machine,
    swap: &mut D,
    pid: u32,
) -> Result<Option<Reason>, NoMemory>
    requires ready { CanGoOn m.old }
    requires area { m.old.params.swap_blocks ≤ D.blocks swap.old }
    ensures judged { (F : FlatState) → SameTables m.old.kernel F → IfOk result (λ reason. reason ≡ out_reason F m.old.kernel.place pid) }
    ensures made { IfOk result (JudgedOut pid (D.image swap.old) (D.image swap.new) m.old m.new) }
    ensures regs { (p : Process) → proc_of m.old.kernel pid ≡ Some p → AreRegs p.regs }
    ensures on { IfOk result (λ reason. reason ≡ None → GoesOnWith m.old m.new) }
    ensures blocks { D.blocks swap.new ≡ D.blocks swap.old }
{
    let judged = judge_out(m, swap, pid);
    or_memory(judged)
}

/// A process comes in.
pub(crate) fn judge_coming<D: SwapDev>(
    m: &mut Machine,
    swap: &mut D,
    pid: u32,
) -> Result<Option<Reason>, NoMemory>
    requires ready { CanGoOn m.old }
    requires area { m.old.params.swap_blocks ≤ D.blocks swap.old }
    ensures judged { (F : FlatState) → SameTables m.old.kernel F → OutHold m.old.kernel.place F
        → IfOk result (λ reason. reason ≡ in_reason F m.old.kernel.place pid) }
    ensures made { IfOk result (JudgedIn pid (D.image swap.old) (D.image swap.new) m.old m.new) }
    ensures on { IfOk result (λ reason. reason ≡ None → GoesOnWith m.old m.new) }
    ensures blocks { D.blocks swap.new ≡ D.blocks swap.old }
{
    let judged = judge_in(m, swap, pid);
    or_memory(judged)
}

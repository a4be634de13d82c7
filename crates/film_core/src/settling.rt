//! Fills what is due, and completes a step that is begun. Both must be over before a mark goes on or a line begins.
ghost use Rattle.io_edge.specs.WithFiles.{stores};
ghost use Rattle.std.specs.Prelude.{◌≡◌, ◌+◌, ◌<◌, ◌≤◌, ◌^◌, length, IfOk, IfErr};
ghost use Rattle.flat_state.specs.Journal.{instructions_of};
ghost use Rattle.machine_state.specs.Outside.{Asks, stop_of, TransfersPages};
ghost use Rattle.vm_core.specs.LastMoves.{last_moves};
ghost use Rattle.vm_core.specs.Sizes.{KeptAtStop};
ghost use Rattle.vm_core.specs.Stepped.{AtSome, LeadsFrom, StopsFrom};
ghost use Rattle.vm_core.specs.Running.{CountsTo};
ghost use Rattle.film_core.specs.Ways.{StepSettled, WayAt};

use io_edge::{Files, SwapDev};
use machine_state::Machine;
use vm_core::fill_rest;
use vm_core::proc_run::{begun_step, finish_step};
use vm_facts::Stop;

/// Fills what is due, and completes a step that is begun. The answer is how many instructions are counted then.
pub(crate) fn settle<F: Files, D: SwapDev>(
    m: &mut Machine,
    files: &mut F,
    swap: &mut D,
    counted: u32,
) -> Result<u32, Stop>
    requires asks { Asks m.old (F.holds files.old) (D.blocks swap.old) }
    requires frames { 64 ≤ length m.old.kernel.place.holds }
    requires low { last_moves m.old.kernel.journal ≤ 1000000 }
    requires counted { instructions_of m.old.kernel.journal ≡ counted }
    requires more { counted + 1 < 2 ^ 32 }
    requires way { AtSome (WayAt m.old (F.holds files.old) (stores F.Files D.SwapDev files.old swap.old)) }
    ensures settles { IfOk result
        (λ count. LeadsFrom (WayAt m.old (F.holds files.old) (stores F.Files D.SwapDev files.old swap.old))
        (StepSettled m.old m.new counted count (stores F.Files D.SwapDev files.new swap.new))) }
    ensures stops { IfErr result (StopsFrom (WayAt m.old (F.holds files.old) (stores F.Files D.SwapDev files.old swap.old)) m.old m.new
        (stores F.Files D.SwapDev files.new swap.new)) }
    ensures counts { IfOk result (λ count. CountsTo m.old m.new counted count) }
    ensures kept { IfErr result (KeptAtStop m.old m.new) }
    ensures outside { TransfersPages F.Files D.SwapDev (stop_of result) files.old files.new swap.old swap.new }
{
    fill_rest(m, files, swap)?;
    match begun_step(m.journal()) {
        Some(begun) => {
            finish_step(m, files, swap, begun)?;
            Ok(counted + 1)
        }
        None => Ok(counted),
    }
}

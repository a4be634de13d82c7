//! Fills what is due, in the order in which it became due. It must be over before a line or a turn begins.
ghost use Rattle.io_edge.specs.WithFiles.{stores};
ghost use Rattle.std.specs.Prelude.{◌≤◌, ◌∷◌, [], length, OnOk, IfErr, MatchResult};
ghost use Rattle.vm_facts.specs.declared.page.Page.{Page as AnyPage};
ghost use Rattle.page_model.specs.Rank.{HasRoom};
ghost use Rattle.machine_state.specs.Going.{CanGoOn};
ghost use Rattle.machine_state.specs.Outside.{Asks, stop_of, TransfersPages};
ghost use Rattle.proc_run.specs.LastMoves.{last_moves};
ghost use Rattle.proc_run.specs.Ready.{Continues};
ghost use Rattle.proc_run.specs.Sizes.{KeptAtStop};
ghost use Rattle.proc_run.specs.Stepped.{LeadsFrom, StopsFrom};
ghost use Rattle.vm_core.specs.Filling.{due_of, IsDueFirst, FillsDue, StopsDue};
ghost use Rattle.vm_core.specs.Leading.{ToldAt, FillsLead};

use io_edge::{Files, SwapDev};
use machine_state::Machine;
use proc_run::step_units::proc_calls::{copy_page, fill_start};
use vm_facts::{Page, Stop};

// What is due first is filled: a new stack page with its bytes, while nothing is locked, or a child's page by a copy of its
// parent's, while that is locked.
fn fill_first<F: Files, D: SwapDev>(
    m: &mut Machine,
    files: &mut F,
    swap: &mut D,
    page: Page,
    parent: Option<Page>,
) -> Result<(), Stop>
    requires asks { Asks m.old (F.holds files.old) (D.blocks swap.old) }
    requires first { IsDueFirst m.old.kernel.place (due_of page parent) }
    requires room { (q : AnyPage) → HasRoom m.old.kernel.place (q ∷ []) }
    requires low { last_moves m.old.kernel.journal ≤ 1000000 }
    ensures filled { MatchResult result (λ u. FillsDue (due_of page parent) m.old m.new (F.holds files.old) (stores F.Files D.SwapDev files.old swap.old)
        (stores F.Files D.SwapDev files.new swap.new))
        (StopsDue (due_of page parent) m.old m.new (F.holds files.old) (stores F.Files D.SwapDev files.old swap.old)
        (stores F.Files D.SwapDev files.new swap.new)) }
    ensures outside { TransfersPages F.Files D.SwapDev (stop_of result) files.old files.new swap.old swap.new }
    ensures goes_on { OnOk result (CanGoOn m.new) }
{
    match parent {
        Some(parent) => copy_page(m, files, swap, page, parent),
        None => fill_start(m, files, swap, page),
    }
}

/// Whatever is due is filled, one page after another: what is left of a fork's copies, the new stack page of an execve, or those
/// of the start of a run. Nothing else of the run changes but pages and journal.
pub fn fill_rest<F: Files, D: SwapDev>(
    m: &mut Machine,
    files: &mut F,
    swap: &mut D,
) -> Result<(), Stop>
    requires asks { Asks m.old (F.holds files.old) (D.blocks swap.old) }
    requires frames { 64 ≤ length m.old.kernel.place.holds }
    requires low { last_moves m.old.kernel.journal ≤ 1000000 }
    ensures leads { OnOk result
        (LeadsFrom (ToldAt m.old (F.holds files.old) (stores F.Files D.SwapDev files.old swap.old))
        (FillsLead m.old m.new (F.holds files.old) (stores F.Files D.SwapDev files.new swap.new))) }
    ensures stops { IfErr result (StopsFrom (ToldAt m.old (F.holds files.old) (stores F.Files D.SwapDev files.old swap.old)) m.old m.new
        (stores F.Files D.SwapDev files.new swap.new)) }
    ensures continues { OnOk result (Continues m.old m.new 0) }
    ensures kept { IfErr result (KeptAtStop m.old m.new) }
    ensures outside { TransfersPages F.Files D.SwapDev (stop_of result) files.old files.new swap.old swap.new }
    ensures goes_on { OnOk result (CanGoOn m.new) }
{
    while let Some((page, parent)) = m.due_at(0) {
        fill_first(m, files, swap, page, parent)?;
    }
    Ok(())
}

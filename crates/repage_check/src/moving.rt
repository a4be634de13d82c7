//! Judges units by which pages take or leave frames, and ends of transfers. Only an end may call the device.
ghost use Rattle.io_edge.specs.WithFiles.{stores};
ghost use Rattle.std.specs.Prelude.{◌≡◌, ◌<◌, None, IfOk, OnOk};
ghost use Rattle.vm_facts.specs.declared.entry.Entry.TheVariants as entries;
ghost use Rattle.flat_state.specs.Flat.{FlatState};
ghost use Rattle.kernel_model.specs.Coupled.{SameTables};
ghost use Rattle.machine_state.specs.Outside.{Asks};
ghost use Rattle.machine_state.specs.Going.{CanGoOn};
ghost use Rattle.paged_model.specs.Moves.{done_reason};
ghost use Rattle.step_judge.specs.Judged.{Judged, JudgedThrough};
ghost use Rattle.step_judge.specs.Told.{GoesOnWith};
ghost use Rattle.repage_check.specs.Units.{IsFill, fill_reason};

use io_edge::{Files, SwapDev};
use machine_state::Machine;
use paged_model::Reason;
use step_judge::move_judge::{
    judge_copy, judge_done, judge_get, judge_put, judge_reclaim, judge_zero,
};
use vm_facts::{Entry, NoMemory, Stop};

// What was judged, or want of memory.
pub(crate) fn or_memory(judged: Result<Option<Reason>, Stop>) -> Result<Option<Reason>, NoMemory>
    ensures { IfOk result (λ reason. judged ≡ Ok reason) }
{
    match judged {
        Ok(reason) => Ok(reason),
        Err(_) => Err(NoMemory),
    }
}

// Pages take frames or leave them, by the kind of the unit.
fn fill(m: &mut Machine, u: &Entry) -> Result<Option<Reason>, Stop>
    requires ready { CanGoOn m.old }
    requires fills { IsFill u.now }
    ensures judged { (F : FlatState) → SameTables m.old.kernel F → IfOk result (λ reason. reason ≡ fill_reason F m.old.kernel.place u.now) }
    ensures made { IfOk result (Judged u.now m.old m.new) }
    ensures goes_on { OnOk result (CanGoOn m.new) }
{
    match u {
        Entry::Zero { page } => judge_zero(m, *page),
        Entry::Get { page, lo, n } => judge_get(m, *page, *lo, *n),
        Entry::Copy { page } => judge_copy(m, *page),
        Entry::Reclaim { page } => judge_reclaim(m, *page),
        Entry::Put { lo, n } => judge_put(m, *lo, *n),
        _ => unreachable!(),
    }
}

/// A unit by which pages take frames or leave them, and no device is called.
pub(crate) fn judge_fill(m: &mut Machine, u: &Entry) -> Result<Option<Reason>, NoMemory>
    requires ready { CanGoOn m.old }
    requires fills { IsFill u.now }
    ensures judged { (F : FlatState) → SameTables m.old.kernel F → IfOk result (λ reason. reason ≡ fill_reason F m.old.kernel.place u.now) }
    ensures made { IfOk result (Judged u.now m.old m.new) }
    ensures on { IfOk result (λ reason. reason ≡ None → GoesOnWith m.old m.new) }
{
    let judged = fill(m, u);
    or_memory(judged)
}

/// The end of the oldest transfer.
pub(crate) fn judge_end<F: Files, D: SwapDev>(
    m: &mut Machine,
    files: &mut F,
    swap: &mut D,
) -> Result<Option<Reason>, NoMemory>
    requires asks { Asks m.old (F.holds files.old) (D.blocks swap.old) }
    ensures judged { IfOk result (λ reason. reason ≡ done_reason m.old.kernel.place.transfers) }
    ensures made { IfOk result (JudgedThrough entries.Done (F.holds files.old) (stores F.Files D.SwapDev files.old swap.old)
        (stores F.Files D.SwapDev files.new swap.new) m.old m.new) }
    ensures on { IfOk result (λ reason. reason ≡ None → GoesOnWith m.old m.new) }
    ensures holds { F.holds files.new ≡ F.holds files.old }
    ensures blocks { D.blocks swap.new ≡ D.blocks swap.old }
{
    let judged = judge_done(m, files, swap);
    or_memory(judged)
}

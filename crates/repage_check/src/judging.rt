//! Judges one unit of any kind, by the crate that knows it. While a step is begun, only its process and ends of
//! transfers may come.
ghost use Rattle.io_edge.specs.WithFiles.{stores};
ghost use Rattle.std.specs.Prelude.{◌≡◌, ◌+◌, ◌≤◌, ◌<◌, ◌^◌, List, Option, None, length, IfOk};
ghost use Rattle.vm_facts.specs.SwapImages.{SwapImage};
ghost use Rattle.vm_facts.specs.declared.entry.Entry.TheVariants as entries;
ghost use Rattle.io_edge.specs.FileHolding.{NamedFile};
ghost use Rattle.flat_state.specs.Flat.{Inputs};
ghost use Rattle.flat_state.specs.Journal.{append, IsUnit};
ghost use Rattle.flat_model.specs.Run.{process_of_entry};
ghost use Rattle.machine_state.specs.Outside.{Asks};
ghost use Rattle.machine_state.specs.Going.{CanGoOn};
ghost use Rattle.run_model.specs.State.{State};
ghost use Rattle.run_model.specs.Wanted.{locked};
ghost use Rattle.step_judge.specs.LastMoves.{last_moves};
ghost use Rattle.step_judge.specs.StepUnitsRests.{is_done};
ghost use Rattle.step_judge.specs.Stepped.{AtSome, LeadsFrom};
ghost use Rattle.step_judge.specs.Told.{GoesOnWith};
ghost use Rattle.repage_check.specs.Past.{PastAt};
ghost use Rattle.repage_check.specs.Units.{IsOthers, IsUnmoved, UnitTold};

use crate::moving::{judge_end, judge_fill, or_memory};
use crate::noting::judge_note;
use crate::past::{Past, begun_reason};
use crate::swapping::{judge_coming, judge_leaving};
use io_edge::{Files, SwapDev};
use machine_state::Machine;
use paged_model::Reason;
use std::alloc::Global;
use step_judge::judge_step;
use step_judge::move_judge::judge_hand;
use step_judge::proc_run::DecodeCache;
use vm_facts::{Entry, NoMemory, Page};

// The process whose entry this is; None where it is none of a process.
fn process_of_entry(u: &Entry) -> Option<u32>
    ensures { result ≡ process_of_entry u.now }
{
    match u {
        Entry::Ran { pid, .. } => Some(*pid),
        Entry::Out { pid, .. } => Some(*pid),
        Entry::Grew { pid, .. } => Some(*pid),
        Entry::Call { pid, .. } => Some(*pid),
        Entry::Refused { pid } => Some(*pid),
        Entry::Sleeps { pid } => Some(*pid),
        Entry::Ended { pid, .. } => Some(*pid),
        _ => None,
    }
}

fn is_done(u: &Entry) -> bool
    ensures { result ≡ is_done u.now }
{
    matches!(u, Entry::Done)
}

// A unit of no process, where no step is begun.
fn judge_free<F: Files, D: SwapDev>(
    m: &mut Machine,
    files: &mut F,
    swap: &mut D,
    past: Past,
    u: &Entry,
) -> Result<Option<Reason>, NoMemory>
    requires asks { Asks m.old (F.holds files.old) (D.blocks swap.old) }
    requires lines { past.lines + 1 < 2 ^ 32 }
    requires none { past.begun ≡ None }
    requires others { IsOthers u.now }
    ensures told { IfOk result (λ reason. LeadsFrom (PastAt past m.old (F.holds files.old) (stores F.Files D.SwapDev files.old swap.old))
        (UnitTold reason u.now past m.old m.new (F.holds files.old) (stores F.Files D.SwapDev files.new swap.new))) }
    ensures on { IfOk result (λ reason. reason ≡ None → GoesOnWith m.old m.new) }
    ensures holds { F.holds files.new ≡ F.holds files.old }
    ensures blocks { D.blocks swap.new ≡ D.blocks swap.old }
{
    match u {
        Entry::Event { .. } => judge_note(m, past, u),
        Entry::Turn { .. } => judge_note(m, past, u),
        Entry::Owners { .. } => judge_note(m, past, u),
        Entry::Done => judge_end(m, files, swap),
        Entry::SwapOut { pid } => judge_leaving(m, swap, *pid),
        Entry::SwapIn { pid } => judge_coming(m, swap, *pid),
        _ => judge_fill(m, u),
    }
}

// A unit of no process. While a step is begun transfers end, and nothing else comes.
fn judge_other<F: Files, D: SwapDev>(
    m: &mut Machine,
    files: &mut F,
    swap: &mut D,
    past: Past,
    u: &Entry,
) -> Result<Option<Reason>, NoMemory>
    requires asks { Asks m.old (F.holds files.old) (D.blocks swap.old) }
    requires lines { past.lines + 1 < 2 ^ 32 }
    requires others { IsOthers u.now }
    ensures told { IfOk result (λ reason. LeadsFrom (PastAt past m.old (F.holds files.old) (stores F.Files D.SwapDev files.old swap.old))
        (UnitTold reason u.now past m.old m.new (F.holds files.old) (stores F.Files D.SwapDev files.new swap.new))) }
    ensures on { IfOk result (λ reason. reason ≡ None → GoesOnWith m.old m.new) }
    ensures holds { F.holds files.new ≡ F.holds files.old }
    ensures blocks { D.blocks swap.new ≡ D.blocks swap.old }
{
    if is_done(u) {
        return judge_end(m, files, swap);
    }
    match begun_reason(past.begun) {
        Some(reason) => Ok(Some(reason)),
        None => judge_free(m, files, swap, past, u),
    }
}

/// A unit that is no move of the hands: where it may come it was made, and else the first reason is told for which it can't. With a reason the
/// machine may have gone another way.
pub fn judge_unit<F: Files, D: SwapDev>(
    alloc: Global,
    cache: &mut DecodeCache,
    m: &mut Machine,
    files: &mut F,
    swap: &mut D,
    past: Past,
    u: &Entry,
) -> Result<Option<Reason>, NoMemory>
    requires asks { Asks m.old (F.holds files.old) (D.blocks swap.old) }
    requires low { last_moves m.old.kernel.journal ≤ 1000000 }
    requires bound { m.old.params.journal ≡ length m.old.kernel.journal + 1 }
    requires lines { past.lines + 1 < 2 ^ 32 }
    requires at { AtSome (PastAt past m.old (F.holds files.old) (stores F.Files D.SwapDev files.old swap.old)) }
    requires unit { IsUnit u.now }
    requires unmoved { IsUnmoved u.now }
    ensures told { IfOk result (λ reason. LeadsFrom (PastAt past m.old (F.holds files.old) (stores F.Files D.SwapDev files.old swap.old))
        (UnitTold reason u.now past m.old m.new (F.holds files.old) (stores F.Files D.SwapDev files.new swap.new))) }
    ensures on { IfOk result (λ reason. reason ≡ None → GoesOnWith m.old m.new) }
    ensures holds { F.holds files.new ≡ F.holds files.old }
    ensures blocks { D.blocks swap.new ≡ D.blocks swap.old }
{
    match process_of_entry(u) {
        Some(pid) => judge_step(
            alloc,
            cache,
            m,
            files,
            swap,
            past.counted,
            past.begun,
            pid,
            u,
        ),
        None => judge_other(m, files, swap, past, u),
    }
}

/// A move of the hands over these pages, which are to be those that they pass over: where it may come it was made, and else the first reason is
/// told for which it can't.
pub fn judge_move(m: &mut Machine, past: Past, pages: &[Page]) -> Result<Option<Reason>, NoMemory>
    requires ready { CanGoOn m.old }
    requires frames { 64 ≤ length m.old.kernel.place.holds }
    requires low { last_moves m.old.kernel.journal ≤ 1000000 }
    ensures told { (holds : Option (List NamedFile)) (i : Option SwapImage) (A : Inputs) (s : State) (image : SwapImage)
        → PastAt past m.old holds i A s image → pages.now ≡ locked A s
        → IfOk result (λ reason. UnitTold reason (entries.Hands 1) past m.old m.new holds i A s image) }
    ensures on { IfOk result (λ reason. reason ≡ None → GoesOnWith m.old m.new) }
    ensures frames { IfOk result (λ reason. reason ≡ None → length m.new.kernel.place.holds ≡ length m.old.kernel.place.holds) }
    ensures journal { IfOk result (λ reason. reason ≡ None → m.new.kernel.journal ≡ append m.old.kernel.journal (entries.Hands 1)) }
{
    match begun_reason(past.begun) {
        Some(reason) => Ok(Some(reason)),
        None => {
            let judged = judge_hand(m, pages);
            or_memory(judged)
        }
    }
}

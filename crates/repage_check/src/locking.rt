//! The pages that the hands pass over where a run stands. They are found once for all moves of a line; the machine
//! may not change here.
ghost use Rattle.std.specs.Prelude.{◌≡◌, ◌≤◌, [], ◌∷◌, length, Some, None, IfOk};
ghost use Rattle.machine_state.specs.Going.{CanGoOn};
ghost use Rattle.step_judge.specs.LastMoves.{last_moves};
ghost use Rattle.repage_check.specs.Locking.{AreLocked};
ghost use Rattle.repage_check.specs.Past.{turn_of};

use crate::past::Past;
use machine_state::Machine;
use run_model::Mark;
use std::alloc::Global;
use step_judge::proc_run::{Touched, ready_regs, touched_and_wanted};
use vm_facts::{NoMemory, Page};

// One page alone.
fn only(page: Page) -> Touched
    ensures { result ≡ page ∷ [] }
{
    let mut pages = Touched::none();
    pages.push(page);
    pages
}

// Who has the turn.
fn turn_of(mark: Mark) -> Option<u32>
    ensures { result ≡ turn_of mark }
{
    match mark {
        Mark::Turn { pid, .. } => Some(pid),
        _ => None,
    }
}

// Those of a process that has the turn, where nothing is due: the ones that it touches before the first that isn't valid.
fn locked_by_turn(
    alloc: Global,
    m: &mut Machine,
    _past: Past,
    pid: u32,
) -> Result<Touched, NoMemory>
    requires ready { CanGoOn m.old }
    requires frames { 64 ≤ length m.old.kernel.place.holds }
    requires low { last_moves m.old.kernel.journal ≤ 1000000 }
    requires clear { m.old.kernel.place.due ≡ [] }
    requires none { _past.begun ≡ None }
    requires turn { turn_of _past.mark ≡ Some pid }
    ensures locked { IfOk result (AreLocked _past m.old) }
    ensures same { m.new ≡ m.old }
{
    match ready_regs(m, pid) {
        Some(regs) => Ok(touched_and_wanted(alloc, m, pid, &regs)?.before),
        None => Ok(Touched::none()),
    }
}

// Those by the last mark, where nothing is due.
fn locked_by_mark(alloc: Global, m: &mut Machine, past: Past) -> Result<Touched, NoMemory>
    requires ready { CanGoOn m.old }
    requires frames { 64 ≤ length m.old.kernel.place.holds }
    requires low { last_moves m.old.kernel.journal ≤ 1000000 }
    requires clear { m.old.kernel.place.due ≡ [] }
    requires none { past.begun ≡ None }
    ensures locked { IfOk result (AreLocked past m.old) }
    ensures same { m.new ≡ m.old }
{
    match turn_of(past.mark) {
        Some(pid) => locked_by_turn(alloc, m, past, pid),
        None => Ok(Touched::none()),
    }
}

/// The pages that the hands pass over, where no step is begun: while a copy is due, the page from which it is made; while another page is
/// due, none; and else the first ones that the process touches which has the turn.
pub fn locked_pages(alloc: Global, m: &mut Machine, past: Past) -> Result<Touched, NoMemory>
    requires ready { CanGoOn m.old }
    requires frames { 64 ≤ length m.old.kernel.place.holds }
    requires low { last_moves m.old.kernel.journal ≤ 1000000 }
    requires none { past.begun ≡ None }
    ensures locked { IfOk result (AreLocked past m.old) }
    ensures same { m.new ≡ m.old }
{
    match m.due_at(0) {
        Some((_, Some(parent))) => Ok(only(parent)),
        Some((_, None)) => Ok(Touched::none()),
        None => locked_by_mark(alloc, m, past),
    }
}

//! Judges a whole trace from the start of a run, line by line. It must end at the first line that can't come.
ghost use Rattle.io_edge.specs.WithFiles.{stores};
ghost use Rattle.std.specs.Prelude.{◌≡◌, ◌+◌, ◌≤◌, ◌<◌, ◌^◌, ℕ, [], length, Some, None, Err, IfOk, IsOk};
ghost use Rattle.vm_facts.specs.SwapImages.{SwapImage};
ghost use Rattle.flat_state.specs.Flat.{Inputs};
ghost use Rattle.machine_state.specs.Outside.{Asks, IsBacked};
ghost use Rattle.machine_state.specs.Going.{CanGoOn};
ghost use Rattle.vm_core.specs.Stepped.{AtSome, LeadsFrom};
ghost use Rattle.flat_model.specs.Asked.{start_held};
ghost use Rattle.vm_core.specs.FirstProcesses.{IsNew, AreAmong, StartsFrom};
ghost use Rattle.vm_core.specs.Leading.{IsTold};
ghost use Rattle.paged_model.specs.Traces.{trace_misstep};
ghost use Rattle.repage_check.specs.Past.{PastAt};
ghost use Rattle.repage_check.specs.Moves.{HaveFewMoves};
ghost use Rattle.repage_check.specs.Starting.{lacks_by, AtStart, HasBegun, StandsBehind, StandsAfter};
ghost use Rattle.repage_check.specs.Verdicts.{past_at_start, IsAsked, IsJudged};

use crate::Past;
use crate::lines::judge_line;
use crate::vm_core::{Started, start};
use io_edge::{Files, SwapDev};
use machine_state::Machine;
use paged_model::{Line, Misstep};
use run_model::Mark;
use std::alloc::Global;
use step_judge::proc_run::DecodeCache;
use vm_facts::{NoMemory, Stop};

/// What a trace is.
#[derive(Debug, Drop)]
pub enum Verdict {
    /// The pieces of swap of this first process find no place.
    NoSpace(u32),
    /// It is a run of the paged machine.
    Paged,
    /// This is its first line that can't come.
    Not(Misstep),
}

// What is known at the start of a run.
fn past_at_start() -> Past
    ensures { result ≡ past_at_start }
{
    Past {
        lines: 0,
        mark: Mark::Over,
        counted: 0,
        begun: None,
    }
}

// The first line that can't come, of those from the start on.
fn first_misstep<F: Files, D: SwapDev>(
    alloc: Global,
    m: &mut Machine,
    files: &mut F,
    swap: &mut D,
    lines: &[Line],
) -> Result<Option<Misstep>, NoMemory>
    requires asks { Asks m.old (F.holds files.old) (D.blocks swap.old) }
    requires first { m.old.kernel.journal ≡ [] }
    requires wide { m.old.params.journal ≡ 0 }
    requires few { length lines.now + 2 < 2 ^ 32 }
    requires moves { HaveFewMoves lines.now }
    requires at { AtSome (PastAt past_at_start m.old (F.holds files.old) (stores F.Files D.SwapDev files.old swap.old)) }
    ensures told { IfOk result (λ found. LeadsFrom (PastAt past_at_start m.old (F.holds files.old) (stores F.Files D.SwapDev files.old swap.old))
        (λ A s image. found ≡ trace_misstep A s 1 lines.now)) }
    ensures stands { IfOk result (λ found. found ≡ None → LeadsFrom
        (PastAt past_at_start m.old (F.holds files.old) (stores F.Files D.SwapDev files.old swap.old))
        (StandsBehind lines.now m.new (F.holds files.old) (stores F.Files D.SwapDev files.new swap.new))) }
    ensures ready { IfOk result (λ found. found ≡ None → CanGoOn m.new) }
{
    let mut cache = DecodeCache::empty();
    let mut past = past_at_start();
    for index in 0..lines.len() {
        let judged = judge_line(alloc, &mut cache, m, files, swap, &mut past, &lines[index])?;
        if let Some(reason) = judged {
            return Ok(Some(Misstep {
                line: index as u32 + 1,
                reason,
            }));
        }
    }
    Ok(None)
}

// The first process whose pieces find no place, or none.
fn lacks_by(started: Started) -> Option<u32>
    ensures { result ≡ lacks_by started }
{
    match started {
        Started::Ok => None,
        Started::NoSpace(pid) => Some(pid),
    }
}

// A journal that has no room for the first entry, or want of memory.
fn full_or_memory(stop: Stop) -> Result<Option<u32>, NoMemory>
    ensures full { IfOk result (λ lacks. stop ≡ Stop.JournalFull) }
    ensures no_more { stop ≡ Stop.JournalFull → IsOk result }
    ensures none { IfOk result (λ lacks. lacks ≡ None) }
{
    match stop {
        Stop::JournalFull => Ok(None),
        _ => Err(NoMemory),
    }
}

// The first processes begin, as far as no entry comes: the one whose pieces find no place, or none.
fn begin<F: Files, D: SwapDev>(
    m: &mut Machine,
    files: &mut F,
    swap: &mut D,
    first: &[u32],
) -> Result<Option<u32>, NoMemory>
    requires new { IsNew m.old }
    requires bound { m.old.params.journal ≡ 0 }
    requires frames { 64 ≤ m.old.params.frames }
    requires processes { length first.now ≤ 16 }
    requires numbers { AreAmong m.old.images first.now }
    requires backed { IsBacked m.old (F.holds files.old) (D.blocks swap.old) }
    requires told { IsAsked m.old first.now (F.holds files.old) (stores F.Files D.SwapDev files.old swap.old) }
    ensures space { IfOk result (λ lacks. (A : Inputs) (pid : ℕ) → StartsFrom A m.old first.now → lacks ≡ Some pid → start_held A ≡ Err pid) }
    ensures stands { IfOk result (λ lacks. lacks ≡ None → (A : Inputs) (image : SwapImage) → IsTold A m.old first.now (F.holds files.old) image
        → stores F.Files D.SwapDev files.old swap.old ≡ Some image → A.limit ≡ 1000000 → AtStart A m.new (F.holds files.old)
        (stores F.Files D.SwapDev files.new swap.new)) }
    ensures ready { IfOk result (λ lacks. lacks ≡ None → HasBegun m.old m.new) }
    ensures holds { F.holds files.new ≡ F.holds files.old }
    ensures blocks { D.blocks swap.new ≡ D.blocks swap.old }
{
    let started = start(m, files, swap, first);
    m.always();
    match started {
        Ok(started) => Ok(lacks_by(started)),
        Err(stop) => full_or_memory(stop),
    }
}

/// Whether a trace is a run of the paged machine, whatever the policy, of first processes in images of these numbers, and else its first line
/// that can't come. The machine was made, and had no call yet, with room for no entry. It stands behind the last line where each may come. The
/// only error is want of memory, or of a device.
pub fn repage<F: Files, D: SwapDev>(
    alloc: Global,
    m: &mut Machine,
    files: &mut F,
    swap: &mut D,
    first: &[u32],
    lines: &[Line],
) -> Result<Verdict, NoMemory>
    requires new { IsNew m.old }
    requires bound { m.old.params.journal ≡ 0 }
    requires frames { 64 ≤ m.old.params.frames }
    requires processes { length first.now ≤ 16 }
    requires numbers { AreAmong m.old.images first.now }
    requires few { length lines.now + 2 < 2 ^ 32 }
    requires moves { HaveFewMoves lines.now }
    requires backed { IsBacked m.old (F.holds files.old) (D.blocks swap.old) }
    requires told { IsAsked m.old first.now (F.holds files.old) (stores F.Files D.SwapDev files.old swap.old) }
    ensures judged { IfOk result (λ verdict. (A : Inputs) (image : SwapImage) → IsTold A m.old first.now (F.holds files.old) image
        → stores F.Files D.SwapDev files.old swap.old ≡ Some image → A.limit ≡ 1000000 → IsJudged A lines.now verdict) }
    ensures stands { IfOk result (λ verdict. verdict ≡ Verdict.Paged → (A : Inputs) (image : SwapImage) → IsTold A m.old first.now (F.holds files.old) image
        → stores F.Files D.SwapDev files.old swap.old ≡ Some image → A.limit ≡ 1000000 → StandsAfter A lines.now m.new (F.holds files.old)
        (stores F.Files D.SwapDev files.new swap.new)) }
    ensures ready { IfOk result (λ verdict. verdict ≡ Verdict.Paged → CanGoOn m.new) }
{
    match begin(m, files, swap, first)? {
        Some(pid) => Ok(Verdict::NoSpace(pid)),
        None => match first_misstep(alloc, m, files, swap, lines)? {
            None => Ok(Verdict::Paged),
            Some(misstep) => Ok(Verdict::Not(misstep)),
        },
    }
}

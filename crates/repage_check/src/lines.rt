//! Judges one line of a trace, unit by unit. The journal gets room for one entry before each unit, and no more.
ghost use Rattle.std.specs.Prelude.{◌≡◌, ◌⊎◌, ℕ, ◌+◌, ◌≤◌, ◌<◌, ◌^◌, ◌∷◌, [], List, length, Option, None, IfOk};
ghost use Rattle.vm_facts.specs.SwapImages.{SwapImage};
ghost use Rattle.vm_facts.specs.declared.entry.Entry.TheVariants as entries;
ghost use Rattle.io_edge.specs.WithFiles.{stores};
ghost use Rattle.io_edge.specs.FileHolding.{NamedFile};
ghost use Rattle.flat_state.specs.Flat.{Inputs};
ghost use Rattle.flat_state.specs.Journal.{counted, repeated, units_with, IsUnit};
ghost use Rattle.machine_state.specs.Outside.{Asks};
ghost use Rattle.machine_state.specs.Going.{CanGoOn};
ghost use Rattle.vm_core.specs.LastMoves.{last_moves};
ghost use Rattle.page_laws.specs.Spans.{moves};
ghost use Rattle.vm_core.specs.Stepped.{AtSome, LeadsFrom};
ghost use Rattle.run_model.specs.State.{State};
ghost use Rattle.run_model.specs.Wanted.{locked};
ghost use Rattle.paged_model.specs.declared.line.Line.TheVariants as lines;
ghost use Rattle.repage_check.specs.Past.{lines_next, PastAt};
ghost use Rattle.repage_check.specs.Units.{IsUnmoved};
ghost use Rattle.repage_check.specs.Lines.{past_behind, UnitsTold, LineTold, units_in, GoesBy};
ghost use Rattle.repage_check.specs.Moves.{moves_counted};

use crate::{Past, begun_reason, judge_move, judge_unit, locked_pages, past_next, turn_out};
use io_edge::{Files, SwapDev};
use kernel_model::HandPart;
use machine_state::Machine;
use paged_model::{Line, Reason};
use std::alloc::Global;
use step_judge::move_judge::judge_part;
use step_judge::proc_run::DecodeCache;
use vm_facts::{Entry, NoMemory, Page};

// The journal has room for one entry more.
fn widen(m: &mut Machine)
    requires ready { CanGoOn m.old }
    requires wide { m.old.params.journal ≤ length m.old.kernel.journal + 1 }
    requires fits { length m.old.kernel.journal + 1 < 2 ^ 32 }
    ensures only { m.new ≡ record m.old { params = record m.old.params { journal = length m.old.kernel.journal + 1 } } }
    ensures goes_on { CanGoOn m.new }
{
    let entries = m.journal().len() as u32;
    m.widen(entries + 1);
}

// What is known of the run once a unit was judged.
fn past_behind(judged: &Option<Reason>, out: bool, past: Past, u: &Entry) -> Past
    requires lines { past.lines + 1 < 2 ^ 32 }
    requires counts { judged.now ≡ None → (counted u.now ≡ 0) ⊎ (past.counted + counted u.now ≤ 1000000) }
    ensures { result ≡ past_behind judged.now out past u.now }
{
    match judged {
        Some(_) => past,
        None => past_next(out, past, u),
    }
}

// One unit that is no move of the hands.
fn judge_next<F: Files, D: SwapDev>(
    alloc: Global,
    cache: &mut DecodeCache,
    m: &mut Machine,
    files: &mut F,
    swap: &mut D,
    past: &mut Past,
    u: &Entry,
) -> Result<Option<Reason>, NoMemory>
    requires asks { Asks m.old (F.holds files.old) (D.blocks swap.old) }
    requires low { last_moves m.old.kernel.journal ≤ 1000000 }
    requires wide { m.old.params.journal ≤ length m.old.kernel.journal + 1 }
    requires fits { length m.old.kernel.journal + 1 < 2 ^ 32 }
    requires lines { past.old.lines + 1 < 2 ^ 32 }
    requires at { AtSome (PastAt past.old m.old (F.holds files.old) (stores F.Files D.SwapDev files.old swap.old)) }
    requires unit { IsUnit u.now }
    requires unmoved { IsUnmoved u.now }
    ensures told { IfOk result (λ reason. LeadsFrom (PastAt past.old m.old (F.holds files.old) (stores F.Files D.SwapDev files.old swap.old))
        (UnitsTold reason (u.now ∷ []) past.new m.new (F.holds files.old) (stores F.Files D.SwapDev files.new swap.new))) }
    ensures on { IfOk result (λ reason. reason ≡ None → GoesBy (u.now ∷ []) m.old m.new) }
    ensures lines { IfOk result (λ reason. past.new.lines ≤ lines_next past.old.lines u.now) }
    ensures holds { F.holds files.new ≡ F.holds files.old }
    ensures blocks { D.blocks swap.new ≡ D.blocks swap.old }
{
    widen(m);
    let out = turn_out(m, u);
    let judged = judge_unit(alloc, cache, m, files, swap, *past, u)?;
    *past = past_behind(&judged, out, *past, u);
    Ok(judged)
}

// So many instructions of a process, one after another.
fn judge_ran<F: Files, D: SwapDev>(
    alloc: Global,
    cache: &mut DecodeCache,
    m: &mut Machine,
    files: &mut F,
    swap: &mut D,
    past: &mut Past,
    pid: u32,
    times: u32,
) -> Result<Option<Reason>, NoMemory>
    requires asks { Asks m.old (F.holds files.old) (D.blocks swap.old) }
    requires low { last_moves m.old.kernel.journal ≤ 1000000 }
    requires wide { m.old.params.journal ≤ length m.old.kernel.journal + 1 }
    requires fits { length m.old.kernel.journal + 2 < 2 ^ 32 }
    requires lines { past.old.lines + 1 < 2 ^ 32 }
    requires at { AtSome (PastAt past.old m.old (F.holds files.old) (stores F.Files D.SwapDev files.old swap.old)) }
    ensures told { IfOk result (λ reason. LeadsFrom (PastAt past.old m.old (F.holds files.old) (stores F.Files D.SwapDev files.old swap.old))
        (UnitsTold reason (repeated (entries.Ran pid 1) times []) past.new m.new (F.holds files.old) (stores F.Files D.SwapDev files.new swap.new))) }
    ensures on { IfOk result (λ reason. reason ≡ None → GoesBy (repeated (entries.Ran pid 1) times []) m.old m.new) }
    ensures lines { IfOk result (λ reason. past.new.lines ≤ past.old.lines) }
    ensures holds { F.holds files.new ≡ F.holds files.old }
    ensures blocks { D.blocks swap.new ≡ D.blocks swap.old }
{
    for done in 0..times {
        let unit = Entry::Ran { pid, count: 1 };
        let judged = judge_next(alloc, cache, m, files, swap, past, &unit)?;
        if judged.is_some() {
            return Ok(judged);
        }
    }
    Ok(None)
}

// One move of the hands over these pages.
fn judge_once(m: &mut Machine, past: Past, pages: &[Page]) -> Result<Option<Reason>, NoMemory>
    requires ready { CanGoOn m.old }
    requires frames { 64 ≤ length m.old.kernel.place.holds }
    requires low { last_moves m.old.kernel.journal ≤ 1000000 }
    requires wide { m.old.params.journal ≤ length m.old.kernel.journal + 1 }
    requires fits { length m.old.kernel.journal + 1 < 2 ^ 32 }
    ensures told { (holds : Option (List NamedFile)) (i : Option SwapImage) (A : Inputs) (s : State) (image : SwapImage)
        → PastAt past m.old holds i A s image → pages.now ≡ locked A s
        → IfOk result (λ reason. UnitsTold reason (entries.Hands 1 ∷ []) past m.new holds i A s image) }
    ensures on { IfOk result (λ reason. reason ≡ None → GoesBy (entries.Hands 1 ∷ []) m.old m.new) }
    ensures frames { IfOk result (λ reason. reason ≡ None → length m.new.kernel.place.holds ≡ length m.old.kernel.place.holds) }
{
    widen(m);
    judge_move(m, past, pages)
}

// So many moves of the hands over these pages, one after another.
fn judge_moves(
    m: &mut Machine,
    past: Past,
    pages: &[Page],
    times: u32,
) -> Result<Option<Reason>, NoMemory>
    requires ready { CanGoOn m.old }
    requires frames { 64 ≤ length m.old.kernel.place.holds }
    requires low { last_moves m.old.kernel.journal + times ≤ 1000000 }
    requires wide { m.old.params.journal ≤ length m.old.kernel.journal + 1 }
    requires fits { length m.old.kernel.journal + 2 < 2 ^ 32 }
    ensures told { (holds : Option (List NamedFile)) (i : Option SwapImage) (A : Inputs) (s : State) (image : SwapImage)
        → PastAt past m.old holds i A s image → pages.now ≡ locked A s
        → IfOk result (λ reason. UnitsTold reason (repeated (entries.Hands 1) times []) past m.new holds i A s image) }
    ensures on { IfOk result (λ reason. reason ≡ None → GoesBy (repeated (entries.Hands 1) times []) m.old m.new) }
{
    for done in 0..times {
        let judged = judge_once(m, past, pages)?;
        if judged.is_some() {
            return Ok(judged);
        }
    }
    Ok(None)
}

// The same of the pages that the hands pass over.
fn judge_hands(
    alloc: Global,
    m: &mut Machine,
    past: Past,
    times: u32,
) -> Result<Option<Reason>, NoMemory>
    requires ready { CanGoOn m.old }
    requires frames { 64 ≤ length m.old.kernel.place.holds }
    requires low { last_moves m.old.kernel.journal + times ≤ 1000000 }
    requires wide { m.old.params.journal ≤ length m.old.kernel.journal + 1 }
    requires fits { length m.old.kernel.journal + 2 < 2 ^ 32 }
    ensures told { (holds : Option (List NamedFile)) (i : Option SwapImage) (A : Inputs) (s : State) (image : SwapImage)
        → PastAt past m.old holds i A s image
        → IfOk result (λ reason. UnitsTold reason (repeated (entries.Hands 1) times []) past m.new holds i A s image) }
    ensures on { IfOk result (λ reason. reason ≡ None → GoesBy (repeated (entries.Hands 1) times []) m.old m.new) }
{
    if times == 0 {
        return Ok(None);
    }
    match begun_reason(past.begun) {
        Some(reason) => Ok(Some(reason)),
        None => {
            let pages = locked_pages(alloc, m, past)?;
            judge_moves(m, past, pages.as_slice(), times)
        }
    }
}

// An entry: where it may come its units were made, and else the first reason is told for which one of them can't.
fn judge_entry<F: Files, D: SwapDev>(
    alloc: Global,
    cache: &mut DecodeCache,
    m: &mut Machine,
    files: &mut F,
    swap: &mut D,
    past: &mut Past,
    e: &Entry,
) -> Result<Option<Reason>, NoMemory>
    requires asks { Asks m.old (F.holds files.old) (D.blocks swap.old) }
    requires low { last_moves m.old.kernel.journal + moves e.now ≤ 1000000 }
    requires wide { m.old.params.journal ≤ length m.old.kernel.journal + 1 }
    requires fits { length m.old.kernel.journal + 2 < 2 ^ 32 }
    requires lines { past.old.lines + 1 < 2 ^ 32 }
    requires at { AtSome (PastAt past.old m.old (F.holds files.old) (stores F.Files D.SwapDev files.old swap.old)) }
    ensures told { IfOk result (λ reason. LeadsFrom (PastAt past.old m.old (F.holds files.old) (stores F.Files D.SwapDev files.old swap.old))
        (UnitsTold reason (units_with e.now []) past.new m.new (F.holds files.old) (stores F.Files D.SwapDev files.new swap.new))) }
    ensures on { IfOk result (λ reason. reason ≡ None → GoesBy (units_with e.now []) m.old m.new) }
    ensures lines { IfOk result (λ reason. past.new.lines ≤ past.old.lines + 1) }
    ensures holds { F.holds files.new ≡ F.holds files.old }
    ensures blocks { D.blocks swap.new ≡ D.blocks swap.old }
{
    match e {
        Entry::Hands { count } => judge_hands(alloc, m, *past, *count),
        Entry::Ran { pid, count } => judge_ran(alloc, cache, m, files, swap, past, *pid, *count),
        _ => judge_next(alloc, cache, m, files, swap, past, e),
    }
}

// The line of a part of a move. While a step is begun none comes.
fn judge_alone(m: &mut Machine, past: Past, part: HandPart) -> Result<Option<Reason>, NoMemory>
    requires ready { CanGoOn m.old }
    requires wide { m.old.params.journal ≤ length m.old.kernel.journal + 1 }
    ensures told { (holds : Option (List NamedFile)) (i : Option SwapImage) (A : Inputs) (s : State) (image : SwapImage)
        → PastAt past m.old holds i A s image
        → IfOk result (λ reason. LineTold reason (lines.Part part) past m.new holds i A s image) }
    ensures on { IfOk result (λ reason. reason ≡ None → GoesBy [] m.old m.new) }
{
    match begun_reason(past.begun) {
        Some(reason) => Ok(Some(reason)),
        None => judge_part(m, part),
    }
}

/// A line: where it may come its units were made, or its part of a move, and else the first reason is told for which it can't. With a reason the
/// machine may have gone another way.
pub fn judge_line<F: Files, D: SwapDev>(
    alloc: Global,
    cache: &mut DecodeCache,
    m: &mut Machine,
    files: &mut F,
    swap: &mut D,
    past: &mut Past,
    line: &Line,
) -> Result<Option<Reason>, NoMemory>
    requires asks { Asks m.old (F.holds files.old) (D.blocks swap.old) }
    requires low { last_moves m.old.kernel.journal + moves_counted line.now ≤ 1000000 }
    requires wide { m.old.params.journal ≤ length m.old.kernel.journal + 1 }
    requires fits { length m.old.kernel.journal + 2 < 2 ^ 32 }
    requires lines { past.old.lines + 1 < 2 ^ 32 }
    requires at { AtSome (PastAt past.old m.old (F.holds files.old) (stores F.Files D.SwapDev files.old swap.old)) }
    ensures told { IfOk result (λ reason. LeadsFrom (PastAt past.old m.old (F.holds files.old) (stores F.Files D.SwapDev files.old swap.old))
        (LineTold reason line.now past.new m.new (F.holds files.old) (stores F.Files D.SwapDev files.new swap.new))) }
    ensures on { IfOk result (λ reason. reason ≡ None → GoesBy (units_in line.now) m.old m.new) }
    ensures lines { IfOk result (λ reason. past.new.lines ≤ past.old.lines + 1) }
    ensures holds { F.holds files.new ≡ F.holds files.old }
    ensures blocks { D.blocks swap.new ≡ D.blocks swap.old }
{
    match line {
        Line::RunLine(e) => judge_entry(alloc, cache, m, files, swap, past, e),
        Line::Part(part) => judge_alone(m, *past, *part),
    }
}

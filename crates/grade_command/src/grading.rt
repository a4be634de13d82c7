//! Compares a trace with the run by the written policy, while that goes on. It ends at the first entry that differs.
ghost use Rattle.io_edge.specs.WithFiles.{stores};
ghost use Rattle.std.specs.Prelude.{◌≡◌, ◌↔◌, ◌+◌, ◌-◌, ◌<◌, ◌≤◌, ◌^◌, ◌&&◌, not, nat_lt, [], ℕ, true, false, List, length, slice_get, Option, IfOk, OnOk};
ghost use Rattle.vm_facts.specs.SwapImages.{SwapImage};
ghost use Rattle.io_edge.specs.FileHolding.{NamedFile};
ghost use Rattle.flat_state.specs.Flat.{Inputs};
ghost use Rattle.machine_state.specs.Outside.{IsBacked};
ghost use Rattle.film_core.specs.Schedules.{HaveFewMoves};
ghost use Rattle.film_core.specs.Films.{IsFilming, FilmBegun};
ghost use Rattle.grade_command.specs.Grading.{IsGraded};
ghost use Rattle.grade_command.specs.Along.{Along};

use crate::same::is_same;
use film_core::Film;
use io_edge::{Files, SwapDev};
use vm_facts::{Entry, Event, NoMemory};

/// How a trace compares with the journal that the written policy makes (this project's profile).
#[derive(Clone, Copy, Debug, PartialEq, Eq, Drop)]
pub enum Grade {
    /// It is the journal, whole.
    Written,
    /// It is the beginning of the journal, which goes on.
    Front,
    /// Its lines before this one, counted from 1, are those of the journal, and this one isn't: the journal has another there, or has ended.
    Differs(u32),
}

// Whether the last entry of a journal is the one that a trace has at its place.
fn is_last_same(journal: &[Entry], entries: &[Entry]) -> bool
    requires some { 0 < length journal.now }
    requires within { length journal.now ≤ length entries.now }
    ensures { (result ≡ true) ↔ (slice_get journal.now (length journal.now - 1) ≡ slice_get entries.now (length journal.now - 1)) }
{
    let last = journal.len() - 1;
    is_same(&journal[last], &entries[last])
}

// The film goes on by one entry: whether that is the next one of a trace.
fn go_on_along<F: Files, D: SwapDev>(
    film: &mut Film,
    files: &mut F,
    swap: &mut D,
    lines: &[Event],
    entries: &[Entry],
) -> Result<bool, NoMemory>
    requires filming { IsFilming film.old lines.now (F.holds files.old) (stores F.Files D.SwapDev files.old swap.old) }
    requires more { film.old.over ≡ false }
    requires within { length film.old.machine.kernel.journal < length entries.now }
    requires few { length entries.now < 2 ^ 32 }
    requires moves { HaveFewMoves lines.now }
    requires count { length lines.now < 2 ^ 32 }
    requires backed { IsBacked film.old.machine (F.holds files.old) (D.blocks swap.old) }
    ensures filming { OnOk result (IsFilming film.new lines.now (F.holds files.new) (stores F.Files D.SwapDev files.new swap.new)) }
    ensures goes { IfOk result (λ agrees. (A : Inputs) → A.lines ≡ lines.now → Along A film.old (F.holds files.old)
        (stores F.Files D.SwapDev files.old swap.old) true entries.now
        → Along A film.new (F.holds files.new) (stores F.Files D.SwapDev files.new swap.new) agrees entries.now) }
    ensures longer { OnOk result (length film.new.machine.kernel.journal ≡ length film.old.machine.kernel.journal + 1) }
    ensures backed { OnOk result (IsBacked film.new.machine (F.holds files.new) (D.blocks swap.new)) }
{
    match film.go_on(files, swap, lines) {
        Ok(()) => Ok(is_last_same(film.journal(), entries)),
        Err(_) => Err(NoMemory),
    }
}

// Whether the run isn't over, and its film has fewer entries than a trace.
fn goes_on(film: &Film, entries: &[Entry]) -> bool
    ensures { result ≡ not film.now.over && nat_lt (length film.now.machine.kernel.journal) (length entries.now) }
{
    if film.is_over() {
        false
    } else {
        film.journal().len() < entries.len()
    }
}

// Whether the film goes on along a trace with which it agrees so far, or not.
fn goes_along(film: &Film, entries: &[Entry], agrees: bool) -> bool
    ensures { result ≡ agrees && (not film.now.over && nat_lt (length film.now.machine.kernel.journal) (length entries.now)) }
{
    if agrees {
        goes_on(film, entries)
    } else {
        false
    }
}

// The grade of a trace that begins with the entries of a film, which has as many as the trace, or is over.
fn grade_along(film: &Film, entries: &[Entry]) -> Grade
    requires few { length entries.now < 2 ^ 32 }
    requires within { length film.now.machine.kernel.journal ≤ length entries.now }
    requires ended { not film.now.over && nat_lt (length film.now.machine.kernel.journal) (length entries.now) ≡ false }
    ensures { (A : Inputs) (holds : Option (List NamedFile)) (i : Option SwapImage) → 64 ≤ A.frames → Along A film.now holds i true entries.now
        → IsGraded A entries.now film.now.machine.kernel.journal result }
{
    let made = film.journal().len();
    if made < entries.len() {
        Grade::Differs(made as u32 + 1)
    } else if film.is_over() {
        Grade::Written
    } else {
        Grade::Front
    }
}

// The grade of a trace along which a film goes no further.
fn grade_of(film: &Film, entries: &[Entry], agrees: bool) -> Grade
    requires few { length entries.now < 2 ^ 32 }
    requires within { length film.now.machine.kernel.journal ≤ length entries.now }
    requires ended { agrees && (not film.now.over && nat_lt (length film.now.machine.kernel.journal) (length entries.now)) ≡ false }
    ensures { (A : Inputs) (holds : Option (List NamedFile)) (i : Option SwapImage) → 64 ≤ A.frames → Along A film.now holds i agrees entries.now
        → IsGraded A entries.now film.now.machine.kernel.journal result }
{
    if agrees {
        grade_along(film, entries)
    } else {
        Grade::Differs(film.journal().len() as u32)
    }
}

/// The grade of these entries by the journal of the run of a film that was begun. The film goes on as far as it agrees with them, and by the
/// entry that stands where it doesn't. Its only error is want of memory.
pub fn grade_trace<F: Files, D: SwapDev>(
    film: &mut Film,
    files: &mut F,
    swap: &mut D,
    lines: &[Event],
    entries: &[Entry],
) -> Result<Grade, NoMemory>
    requires filming { IsFilming film.old lines.now (F.holds files.old) (stores F.Files D.SwapDev files.old swap.old) }
    requires first { film.old.machine.kernel.journal ≡ [] }
    requires moves { HaveFewMoves lines.now }
    requires count { length lines.now < 2 ^ 32 }
    requires few { length entries.now < 2 ^ 32 }
    requires backed { IsBacked film.old.machine (F.holds files.old) (D.blocks swap.old) }
    ensures { IfOk result (λ grade. (A : Inputs) (image : SwapImage) → 64 ≤ A.frames → A.lines ≡ lines.now
        → FilmBegun A film.old (F.holds files.old) (stores F.Files D.SwapDev files.old swap.old) image → IsGraded A entries.now
        film.new.machine.kernel.journal grade) }
{
    let mut agrees = true;
    while goes_along(film, entries, agrees) {
        agrees = go_on_along(film, files, swap, lines, entries)?;
    }
    Ok(grade_of(film, entries, agrees))
}

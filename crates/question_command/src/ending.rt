//! How the run of a film came to its end, and whether its limit cut it.
ghost use Rattle.io_edge.specs.WithFiles.{stores};
ghost use Rattle.std.specs.Prelude.{◌≡◌, ◌+◌, ◌<◌, ◌^◌, ◌&&◌, not, nat_lt, [], ℕ, false, true, List, length, Option, IfOk, OnOk};
ghost use Rattle.vm_facts.specs.SwapImages.{SwapImage};
ghost use Rattle.io_edge.specs.FileHolding.{NamedFile};
ghost use Rattle.flat_state.specs.Flat.{Inputs};
ghost use Rattle.run_model.specs.State.{State};
ghost use Rattle.machine_state.specs.Going.{IsRunning};
ghost use Rattle.machine_state.specs.Outside.{IsBacked};
ghost use Rattle.command_edge.specs.Ending.{ending_of};
ghost use Rattle.film_core.specs.Schedules.{HaveFewMoves};
ghost use Rattle.reference_commands.specs.Machines.{journal_entries};
ghost use Rattle.film_core.specs.Films.{IsFilming, FilmAt, FilmBegun};
ghost use Rattle.reference_commands.specs.Answering.{EndsSo, cut_line};
ghost use Rattle.reference_commands.specs.InMemory.{EndsAnswer};
ghost use Rattle.reference_commands.specs.declared.question.Question.TheVariants as questions;
ghost use Rattle.run_stats.specs.declared.finish.Finish.TheVariants.{Cut};
ghost use Rattle.question_command.specs.Filmed.{IsAtState};

use crate::filming::goes_on;
use command_edge::{Fault, put_number};
use command_words::JOURNAL_ENTRIES;
use film_core::Film;
use io_edge::{Files, SwapDev};
use run_stats::Finish;
use std::alloc::{AllocError, Global};
use vm_facts::{Event, NoMemory};

/// How the run of a film that is over came to its end.
pub(crate) fn finish_of(film: &Film, lines: &[Event]) -> Finish
    requires running { IsRunning film.now.machine }
    requires over { film.now.over ≡ true }
    ensures { (A : Inputs) (s : State) (holds : Option (List NamedFile)) (i : Option SwapImage) (image : SwapImage) → A.lines ≡ lines.now
        → FilmAt A s film.now holds i image → EndsSo result A s }
{
    if film.is_idle(lines) {
        Finish::Over
    } else {
        Finish::Cut
    }
}

// What is told of a run that was cut, where so many instructions might run.
fn cut_text(alloc: Global, limit: u32) -> Result<Vec<u8>, AllocError>
    ensures { IfOk result (λ text. text.items ≡ cut_line Cut limit) }
{
    let mut text = Vec::new(alloc);
    text.extend_from_slice(b"vmrun: LIMIT is ")?;
    put_number(&mut text, limit)?;
    text.extend_from_slice(b", which cut the run: what would come after is not counted\n")?;
    Ok(text)
}

// What is told of a run that came to its end so.
fn cut_line(alloc: Global, finish: Finish, limit: u32) -> Result<Vec<u8>, AllocError>
    ensures { IfOk result (λ text. text.items ≡ cut_line finish limit) }
{
    match finish {
        Finish::Over => Ok(Vec::new(alloc)),
        Finish::Cut => cut_text(alloc, limit),
    }
}

// Goes on by one entry.
fn go_on_once<F: Files, D: SwapDev>(
    film: &mut Film,
    files: &mut F,
    swap: &mut D,
    lines: &[Event],
) -> Result<(), NoMemory>
    requires filming { IsFilming film.old lines.now (F.holds files.old) (stores F.Files D.SwapDev files.old swap.old) }
    requires more { film.old.over ≡ false }
    requires room { length film.old.machine.kernel.journal + 1 < 2 ^ 32 }
    requires moves { HaveFewMoves lines.now }
    requires count { length lines.now < 2 ^ 32 }
    requires backed { IsBacked film.old.machine (F.holds files.old) (D.blocks swap.old) }
    ensures filming { OnOk result (IsFilming film.new lines.now (F.holds files.new) (stores F.Files D.SwapDev files.new swap.new)) }
    ensures goes { OnOk result ((A : Inputs) → A.lines ≡ lines.now → IsAtState A film.old (F.holds files.old) (stores F.Files D.SwapDev files.old swap.old)
        → IsAtState A film.new (F.holds files.new) (stores F.Files D.SwapDev files.new swap.new)) }
    ensures longer { OnOk result (length film.new.machine.kernel.journal ≡ length film.old.machine.kernel.journal + 1) }
    ensures backed { OnOk result (IsBacked film.new.machine (F.holds files.new) (D.blocks swap.new)) }
{
    match film.go_on(files, swap, lines) {
        Ok(()) => Ok(()),
        Err(_) => Err(NoMemory),
    }
}

// A film that was begun goes on until the run is over, or has as many entries as it may have.
fn go_to_end<F: Files, D: SwapDev>(
    film: &mut Film,
    files: &mut F,
    swap: &mut D,
    lines: &[Event],
) -> Result<(), NoMemory>
    requires filming { IsFilming film.old lines.now (F.holds files.old) (stores F.Files D.SwapDev files.old swap.old) }
    requires first { film.old.machine.kernel.journal ≡ [] }
    requires moves { HaveFewMoves lines.now }
    requires count { length lines.now < 2 ^ 32 }
    requires backed { IsBacked film.old.machine (F.holds files.old) (D.blocks swap.old) }
    ensures there { OnOk result ((A : Inputs) (image : SwapImage) → A.lines ≡ lines.now → FilmBegun A film.old (F.holds files.old)
        (stores F.Files D.SwapDev files.old swap.old) image
        → IsAtState A film.new (F.holds files.new) (stores F.Files D.SwapDev files.new swap.new)) }
    ensures running { OnOk result (IsRunning film.new.machine) }
    ensures ends { OnOk result (not film.new.over && nat_lt (length film.new.machine.kernel.journal) journal_entries ≡ false) }
{
    while goes_on(film, JOURNAL_ENTRIES) {
        go_on_once(film, files, swap, lines)?;
    }
    Ok(())
}

// Whether the limit cut the run of a film that is over.
fn end_over<'a>(alloc: Global, film: &Film, lines: &[Event]) -> Result<Vec<u8>, Fault<'a>>
    requires running { IsRunning film.now.machine }
    requires over { film.now.over ≡ true }
    ensures { (A : Inputs) (holds : Option (List NamedFile)) (i : Option SwapImage) → A.lines ≡ lines.now → IsAtState A film.now holds i
        → EndsAnswer questions.WasCut A (ending_of result) }
{
    let limit = film.machine().params().limit;
    match cut_line(alloc, finish_of(film, lines), limit) {
        Ok(text) => Ok(text),
        Err(_) => Err(Fault::NoMemory),
    }
}

// The same of a film that is over, or else has as many entries as it may have.
fn end_of<'a>(alloc: Global, film: &Film, lines: &[Event]) -> Result<Vec<u8>, Fault<'a>>
    requires running { IsRunning film.now.machine }
    requires ends { not film.now.over && nat_lt (length film.now.machine.kernel.journal) journal_entries ≡ false }
    ensures { (A : Inputs) (holds : Option (List NamedFile)) (i : Option SwapImage) → A.lines ≡ lines.now → IsAtState A film.now holds i
        → EndsAnswer questions.WasCut A (ending_of result) }
{
    if film.is_over() {
        end_over(alloc, film, lines)
    } else {
        Err(Fault::JournalFull)
    }
}

/// Whether the limit of instructions cut the run of a film that was begun, or the fault for which that isn't known.
pub(crate) fn end_begun<'a, F: Files, D: SwapDev>(
    alloc: Global,
    film: &mut Film,
    files: &mut F,
    swap: &mut D,
    lines: &[Event],
) -> Result<Vec<u8>, Fault<'a>>
    requires filming { IsFilming film.old lines.now (F.holds files.old) (stores F.Files D.SwapDev files.old swap.old) }
    requires first { film.old.machine.kernel.journal ≡ [] }
    requires moves { HaveFewMoves lines.now }
    requires count { length lines.now < 2 ^ 32 }
    requires backed { IsBacked film.old.machine (F.holds files.old) (D.blocks swap.old) }
    ensures { (A : Inputs) (image : SwapImage) → A.lines ≡ lines.now → FilmBegun A film.old (F.holds files.old) (stores F.Files D.SwapDev files.old swap.old)
        image
        → EndsAnswer questions.WasCut A (ending_of result) }
{
    match go_to_end(film, files, swap, lines) {
        Ok(()) => end_of(alloc, film, lines),
        Err(_) => Err(Fault::NoMemory),
    }
}

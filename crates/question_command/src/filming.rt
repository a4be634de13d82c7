//! The steps of `film`: the text of who owns what after each entry that is asked for.
ghost use Rattle.io_edge.specs.WithFiles.{stores};
ghost use Rattle.std.specs.Prelude.{◌≡◌, ◌+◌, ◌-◌, ◌<◌, ◌≤◌, ◌^◌, ◌&&◌, not, nat_lt, ℕ, false, [], ◌++◌, List, length, slice_get, map, All, Some, IfOk, OnOk};
ghost use Rattle.vm_facts.specs.SwapImages.{SwapImage};
ghost use Rattle.flat_state.specs.Flat.{Inputs};
ghost use Rattle.io_edge.specs.Octets.{AreOctetFiles};
ghost use Rattle.machine_state.specs.Going.{IsRunning};
ghost use Rattle.machine_state.specs.Outside.{IsBacked};
ghost use Rattle.machine_state.specs.New.{AreSound};
ghost use Rattle.machine_state.specs.Sourced.{AreNames};
ghost use Rattle.machine_state.specs.Applying.{facts_named};
ghost use Rattle.command_edge.specs.ImageWords.{IsShortName};
ghost use Rattle.run_text.specs.Text.{line_of};
ghost use Rattle.run_stats.specs.Owners.{word_if};
ghost use Rattle.replay_check.specs.Images.{AreImageFiles};
ghost use Rattle.command_edge.specs.Ending.{ending_of};
ghost use Rattle.command_words.specs.Command.{AreSteps};
ghost use Rattle.command_words.specs.declared.limits.TheConstants.{MOST_FRAMES};
ghost use Rattle.film_core.specs.Schedules.{HaveFewMoves};
ghost use Rattle.film_core.specs.RunEnds.{IsAskedOf};
ghost use Rattle.film_core.specs.Films.{IsFilming, IsUnbegun, FilmBegun};
ghost use Rattle.reference_commands.specs.Naming.{shown_as};
ghost use Rattle.reference_commands.specs.Machines.{machine_up_to};
ghost use Rattle.reference_commands.specs.Answering.{has_step, entry_if, step_line, SaysFilm};
ghost use Rattle.reference_commands.specs.InMemory.{file_of, inputs_with, AreOpened, IsRunnable, EndsAnswer, AllDiffer};
ghost use Rattle.question_command.specs.Filmed.{step_text, Filmed, IsAskable};
ghost use Rattle.reference_commands.specs.declared.question.Question.TheVariants as questions;

use command_edge::{Fault, put_number};
use command_words::{FilmSteps, Numbers};
use film_core::{Film, Started};
use io_edge::{Files, Moved, SureFiles, SureSwap, SwapDev};
use reference_commands::run_command::name_images;
use reference_commands::{GrowingText, OpenedInMemory, lines_of, open_in_memory};
use replay_check::Flat;
use run_opening::OpenedImage;
use run_text::write_entry;
use std::alloc::Global;
use vm_facts::{Entry, Event, NoMemory, Params};

// Steps.

// Whether a film has a step after so many entries.
fn has_step(steps: FilmSteps, entries: u32) -> bool
    requires { 1 ≤ steps.every }
    ensures { result ≡ has_step steps entries }
{
    if entries < steps.from {
        false
    } else {
        (entries - steps.from) % steps.every == 0
    }
}

/// The line of an entry, as a transcript has it. Only memory can be wanting.
pub fn entry_line(alloc: Global, entry: &Entry) -> Result<Vec<u8>, NoMemory>
    ensures { IfOk result (λ line. line.items ≡ line_of entry.now) }
{
    let mut line = GrowingText::new(alloc);
    match write_entry(&mut line, entry) {
        Moved::Done => Ok(line.into_bytes()),
        Moved::Failed => Err(NoMemory),
    }
}

// Puts the last entry of a journal after a space, or the end of the line where there is none.
fn put_last(alloc: Global, text: &mut Vec<u8>, journal: &[Entry]) -> Result<(), NoMemory>
    ensures { OnOk result (text.new.items ≡ text.old.items ++ entry_if (slice_get journal.now (length journal.now - 1))) }
{
    match journal.last() {
        Some(entry) => {
            let line = entry_line(alloc, entry)?;
            text.extend_from_slice(b" ")?;
            text.extend_from_slice(line.as_slice())?;
        }
        None => text.extend_from_slice(b"\n")?,
    }
    Ok(())
}

// Puts the line of a step after so many entries.
fn put_step_line(
    alloc: Global,
    text: &mut Vec<u8>,
    journal: &[Entry],
    entries: u32,
) -> Result<(), NoMemory>
    requires { length journal.now ≡ entries }
    ensures { OnOk result (text.new.items ≡ text.old.items ++ step_line journal.now) }
{
    text.extend_from_slice(b"step ")?;
    put_number(text, entries)?;
    put_last(alloc, text, journal)
}

// How many entries the journal of a film has.
fn entries_of(film: &Film) -> u32
    requires { IsRunning film.now.machine }
    ensures { result ≡ length film.now.machine.kernel.journal }
{
    let machine = film.machine();
    let _most = machine.params().journal;
    machine.journal().len() as u32
}

// Puts the step of a film after so many entries.
fn put_step(alloc: Global, text: &mut Vec<u8>, film: &Film, entries: u32) -> Result<(), NoMemory>
    requires running { IsRunning film.now.machine }
    requires entries { length film.now.machine.kernel.journal ≡ entries }
    ensures { OnOk result (text.new.items ≡ text.old.items ++ step_text film.now) }
{
    let lines = lines_of(alloc, film.machine(), film.is_over())?;
    put_step_line(alloc, text, film.journal(), entries)?;
    text.extend_from_slice(lines.as_slice())?;
    Ok(())
}

// Puts it, where the film has a step there.
fn put_step_if(
    alloc: Global,
    text: &mut Vec<u8>,
    film: &Film,
    steps: FilmSteps,
) -> Result<(), NoMemory>
    requires running { IsRunning film.now.machine }
    requires every { 1 ≤ steps.every }
    ensures { OnOk result (text.new.items ≡ text.old.items ++ word_if (has_step steps (length film.now.machine.kernel.journal)) (step_text film.now)) }
{
    let entries = entries_of(film);
    if has_step(steps, entries) {
        put_step(alloc, text, film, entries)
    } else {
        Ok(())
    }
}

// The film.

/// Whether it goes on: the run isn't over, and there are fewer entries than these.
pub(crate) fn goes_on(film: &Film, to: u32) -> bool
    requires { IsRunning film.now.machine }
    ensures { result ≡ not film.now.over && nat_lt (length film.now.machine.kernel.journal) to }
{
    if film.is_over() {
        false
    } else {
        entries_of(film) < to
    }
}

// The film goes on by one entry, and the step after it is put.
fn go_on_and_put<F: Files, D: SwapDev>(
    alloc: Global,
    film: &mut Film,
    files: &mut F,
    swap: &mut D,
    lines: &[Event],
    steps: FilmSteps,
    text: &mut Vec<u8>,
) -> Result<(), NoMemory>
    requires filming { IsFilming film.old lines.now (F.holds files.old) (stores F.Files D.SwapDev files.old swap.old) }
    requires more { film.old.over ≡ false }
    requires room { length film.old.machine.kernel.journal + 1 < 2 ^ 32 }
    requires moves { HaveFewMoves lines.now }
    requires count { length lines.now < 2 ^ 32 }
    requires backed { IsBacked film.old.machine (F.holds files.old) (D.blocks swap.old) }
    requires every { 1 ≤ steps.every }
    ensures filming { OnOk result (IsFilming film.new lines.now (F.holds files.new) (stores F.Files D.SwapDev files.new swap.new)) }
    ensures goes { OnOk result ((A : Inputs) → A.lines ≡ lines.now → Filmed A steps film.old (F.holds files.old) (stores F.Files D.SwapDev files.old swap.old)
        text.old.items
        → Filmed A steps film.new (F.holds files.new) (stores F.Files D.SwapDev files.new swap.new) text.new.items) }
    ensures longer { OnOk result (length film.new.machine.kernel.journal ≡ length film.old.machine.kernel.journal + 1) }
    ensures backed { OnOk result (IsBacked film.new.machine (F.holds files.new) (D.blocks swap.new)) }
{
    match film.go_on(files, swap, lines) {
        Ok(()) => put_step_if(alloc, text, film, steps),
        Err(_) => Err(NoMemory),
    }
}

// The steps of a film that was begun: it goes on until the run is over, or has as many entries as may have a step.
fn film_on<F: Files, D: SwapDev>(
    alloc: Global,
    film: &mut Film,
    files: &mut F,
    swap: &mut D,
    lines: &[Event],
    steps: FilmSteps,
) -> Result<Vec<u8>, NoMemory>
    requires filming { IsFilming film.old lines.now (F.holds files.old) (stores F.Files D.SwapDev files.old swap.old) }
    requires first { film.old.machine.kernel.journal ≡ [] }
    requires moves { HaveFewMoves lines.now }
    requires count { length lines.now < 2 ^ 32 }
    requires backed { IsBacked film.old.machine (F.holds files.old) (D.blocks swap.old) }
    requires every { 1 ≤ steps.every }
    ensures { IfOk result (λ text. (A : Inputs) (image : SwapImage) → A.lines ≡ lines.now → FilmBegun A film.old (F.holds files.old)
        (stores F.Files D.SwapDev files.old swap.old) image
        → SaysFilm steps A text.items) }
{
    let mut text = Vec::new(alloc);
    put_step_if(alloc, &mut text, film, steps)?;
    while goes_on(film, steps.to) {
        go_on_and_put(alloc, film, files, swap, lines, steps, &mut text)?;
    }
    Ok(text)
}

/// The steps of a film that was begun, or the fault for which they aren't there.
pub(crate) fn film_begun<'a, F: Files, D: SwapDev>(
    alloc: Global,
    film: &mut Film,
    files: &mut F,
    swap: &mut D,
    lines: &[Event],
    steps: FilmSteps,
) -> Result<Vec<u8>, Fault<'a>>
    requires filming { IsFilming film.old lines.now (F.holds files.old) (stores F.Files D.SwapDev files.old swap.old) }
    requires first { film.old.machine.kernel.journal ≡ [] }
    requires moves { HaveFewMoves lines.now }
    requires count { length lines.now < 2 ^ 32 }
    requires backed { IsBacked film.old.machine (F.holds files.old) (D.blocks swap.old) }
    requires every { 1 ≤ steps.every }
    ensures { (A : Inputs) (image : SwapImage) → A.lines ≡ lines.now → FilmBegun A film.old (F.holds files.old) (stores F.Files D.SwapDev files.old swap.old)
        image
        → EndsAnswer (questions.Film steps) A (ending_of result) }
{
    match film_on(alloc, film, files, swap, lines, steps) {
        Ok(text) => Ok(text),
        Err(_) => Err(Fault::NoMemory),
    }
}

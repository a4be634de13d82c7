//! Grades entries over files in memory and a blank swap, and keeps what is told of them.
ghost use Rattle.io_edge.specs.WithFiles.{stores};
ghost use Rattle.std.specs.Prelude.{◌≡◌, ◌++◌, ◌-◌, ◌<◌, ◌≤◌, ◌^◌, [], ℕ, List, length, map, option_map, slice_get, All, Some, IfOk, OnOk};
ghost use Rattle.vm_facts.specs.SwapImages.{SwapImage};
ghost use Rattle.flat_state.specs.Flat.{Inputs};
ghost use Rattle.io_edge.specs.Octets.{AreOctetFiles};
ghost use Rattle.machine_state.specs.Files.{AreFiles};
ghost use Rattle.machine_state.specs.Outside.{IsBacked};
ghost use Rattle.command_edge.specs.ImageWords.{IsShortName};
ghost use Rattle.replay_check.specs.Images.{AreImageFiles};
ghost use Rattle.film_core.specs.Schedules.{HaveFewMoves};
ghost use Rattle.film_core.specs.RunEnds.{IsAskedOf};
ghost use Rattle.film_core.specs.Films.{IsFilming, IsUnbegun, FilmBegun};
ghost use Rattle.question_command.specs.InMemory.{file_of, inputs_with, AreOpened, IsRunnable, AllDiffer};
ghost use Rattle.question_command.specs.Filmed.{IsAskable};
ghost use Rattle.grade_command.specs.Telling.{policy_text, policy_line, parted_text, TellsGrade, EndsGrading};

use crate::grading::{Grade, grade_trace};
use command_edge::{Fault, put_number};
use command_words::Numbers;
use film_core::{Film, Started};
use io_edge::{Files, SureFiles, SureSwap, SwapDev};
use question_command::reference_commands::{OpenedInMemory, open_in_memory};
use question_command::{entry_line, film_of};
use replay_check::Flat;
use run_opening::OpenedImage;
use std::alloc::Global;
use vm_facts::{Entry, Event, NoMemory};

/// A trace that was graded.
#[derive(Debug, Drop)]
pub(crate) struct Graded {
    pub(crate) grade: Grade,
    /// How many entries it has.
    pub(crate) entries: u32,
    /// The line that tells what the policy writes where it differs, and no byte where it doesn't.
    pub(crate) why: Vec<u8>,
}

// The entry that a journal has at a line, counted from 1.
fn entry_at(journal: &[Entry], line: u32) -> Option<&Entry>
    ensures { option_map (λ entry. entry.now) result ≡ slice_get journal.now (line - 1) }
{
    journal.get((line as usize).saturating_sub(1))
}

// Puts that the policy writes this entry at a line, or that it has ended there.
fn put_policy(alloc: Global, text: &mut Vec<u8>, there: Option<&Entry>) -> Result<(), NoMemory>
    ensures { OnOk result (text.new.items ≡ text.old.items ++ policy_text (option_map (λ entry. entry.now) there.entry)) }
{
    match there {
        Some(entry) => {
            let told = entry_line(alloc, entry)?;
            text.extend_from_slice(b"the policy writes ")?;
            text.extend_from_slice(told.as_slice())?;
        }
        None => text.extend_from_slice(b"the policy has ended\n")?,
    }
    Ok(())
}

// The line that tells it.
fn policy_line(alloc: Global, journal: &[Entry], line: u32) -> Result<Vec<u8>, NoMemory>
    ensures { IfOk result (λ text. text.items ≡ policy_line line (slice_get journal.now (line - 1))) }
{
    let mut text = Vec::from_slice(alloc, b"vmrun: line ")?;
    put_number(&mut text, line)?;
    text.extend_from_slice(b": ")?;
    put_policy(alloc, &mut text, entry_at(journal, line))?;
    Ok(text)
}

// What is told of a grade beside it, where a journal has these entries.
fn parted_text(alloc: Global, grade: Grade, journal: &[Entry]) -> Result<Vec<u8>, NoMemory>
    ensures { IfOk result (λ text. text.items ≡ parted_text grade journal.now) }
{
    match grade {
        Grade::Differs(line) => policy_line(alloc, journal, line),
        _ => Ok(Vec::new(alloc)),
    }
}

// Grades a trace by the run of a film that was begun.
fn grade_film<F: Files, D: SwapDev>(
    alloc: Global,
    film: &mut Film,
    files: &mut F,
    swap: &mut D,
    lines: &[Event],
    entries: &[Entry],
) -> Result<Graded, NoMemory>
    requires filming { IsFilming film.old lines.now (F.holds files.old) (stores F.Files D.SwapDev files.old swap.old) }
    requires first { film.old.machine.kernel.journal ≡ [] }
    requires moves { HaveFewMoves lines.now }
    requires count { length lines.now < 2 ^ 32 }
    requires few { length entries.now < 2 ^ 32 }
    requires backed { IsBacked film.old.machine (F.holds files.old) (D.blocks swap.old) }
    ensures { IfOk result (λ graded. (A : Inputs) (image : SwapImage) → 64 ≤ A.frames → A.lines ≡ lines.now
        → FilmBegun A film.old (F.holds files.old) (stores F.Files D.SwapDev files.old swap.old) image → TellsGrade A entries.now graded) }
{
    let found = grade_trace(film, files, swap, lines, entries)?;
    let why = parted_text(alloc, found, film.journal())?;
    Ok(Graded {
        grade: found,
        entries: entries.len() as u32,
        why,
    })
}

// The same, with the command's fault.
fn grade_begun<'a, F: Files, D: SwapDev>(
    alloc: Global,
    film: &mut Film,
    files: &mut F,
    swap: &mut D,
    lines: &[Event],
    entries: &[Entry],
) -> Result<Graded, Fault<'a>>
    requires filming { IsFilming film.old lines.now (F.holds files.old) (stores F.Files D.SwapDev files.old swap.old) }
    requires first { film.old.machine.kernel.journal ≡ [] }
    requires moves { HaveFewMoves lines.now }
    requires count { length lines.now < 2 ^ 32 }
    requires few { length entries.now < 2 ^ 32 }
    requires backed { IsBacked film.old.machine (F.holds files.old) (D.blocks swap.old) }
    ensures { (A : Inputs) (image : SwapImage) → 64 ≤ A.frames → A.lines ≡ lines.now
        → FilmBegun A film.old (F.holds files.old) (stores F.Files D.SwapDev files.old swap.old) image → EndsGrading A entries.now result }
{
    match grade_film(alloc, film, files, swap, lines, entries) {
        Ok(graded) => Ok(graded),
        Err(_) => Err(Fault::NoMemory),
    }
}

// Grades it by the run of a film that had no call yet.
fn grade_run<'a, F: Files, D: SwapDev>(
    alloc: Global,
    film: &mut Film,
    files: &mut F,
    swap: &mut D,
    first: &[u32],
    lines: &[Event],
    entries: &[Entry],
) -> Result<Graded, Fault<'a>>
    requires unbegun { IsUnbegun film.old }
    requires some { 0 < film.old.machine.params.limit }
    requires frames { 64 ≤ film.old.machine.params.frames }
    requires first { length first.now ≤ 16 }
    requires numbers { All (λ n. (1 ≤ n) × (n ≤ length film.old.machine.images)) first.now }
    requires moves { HaveFewMoves lines.now }
    requires count { length lines.now < 2 ^ 32 }
    requires few { length entries.now < 2 ^ 32 }
    requires area { film.old.machine.params.swap_blocks ≤ D.blocks swap.old }
    requires files { AreFiles film.old.machine.images (F.holds files.old) }
    requires inputs { IsAskable film.old.machine first.now lines.now (F.holds files.old) (stores F.Files D.SwapDev files.old swap.old) }
    ensures { (A : Inputs) (image : SwapImage) → IsAskedOf A film.old.machine first.now lines.now (F.holds files.old) image → stores F.Files D.SwapDev
        files.old swap.old ≡ Some image
        → EndsGrading A entries.now result }
{
    match film.start(files, swap, first, lines) {
        Ok(Started::Ok) => { grade_begun(alloc, film, files, swap, lines, entries) },
        Ok(Started::NoSpace(pid)) => Err(Fault::NoSpace(pid)),
        Err(_) => Err(Fault::NoMemory),
    }
}

// Grades it by the run of images that were opened from these files in memory, over a blank swap.
fn grade_opened<'a>(
    alloc: Global,
    files: &mut SureFiles,
    numbers: Numbers,
    images: &[Flat],
    opened: &[OpenedImage<'_>],
    first: &[u32],
    lines: &[Event],
    entries: &[Entry],
) -> Result<Graded, Fault<'a>>
    requires held { ⟦<SureFiles as Files>⟧.holds files.old ≡ Some (map file_of images.now) }
    requires octets { AreOctetFiles (map file_of images.now) }
    requires images { AreImageFiles images.now }
    requires opened { AreOpened images.now opened.now }
    requires runnable { IsRunnable numbers (length images.now) first.now lines.now }
    requires few { length entries.now < 2 ^ 32 }
    ensures { EndsGrading (inputs_with numbers images.now first.now lines.now) entries.now result }
{
    let Ok(mut swap) = SureSwap::new(alloc, numbers.swap) else {
        return Err(Fault::NoMemory);
    };
    let Ok(mut film) = film_of(alloc, numbers, opened) else {
        return Err(Fault::NoMemory);
    };
    let graded = grade_run(alloc, &mut film, files, &mut swap, first, lines, entries);
    film.end();
    graded
}

/// Grades these entries by the run of a schedule over images of these names, begun with first processes in images of these numbers, over
/// files in memory and a blank swap. The faults are want of memory, and no swap for a first process.
pub(crate) fn grade_in_memory<'a>(
    alloc: Global,
    numbers: Numbers,
    images: &[Flat],
    names: &[&str],
    first: &[u32],
    lines: &[Event],
    entries: &[Entry],
) -> Result<Graded, Fault<'a>>
    requires images { AreImageFiles images.now }
    requires few { length names.now ≤ 16 }
    requires named { map (λ image. image.name) images.now ≡ map (λ name. name.now) names.now }
    requires short { All (λ name. IsShortName name.now) names.now }
    requires differ { AllDiffer (map (λ name. name.now) names.now) }
    requires runnable { IsRunnable numbers (length images.now) first.now lines.now }
    requires entries { length entries.now < 2 ^ 32 }
    ensures { EndsGrading (inputs_with numbers images.now first.now lines.now) entries.now result }
{
    let Ok(opening) = open_in_memory(alloc, images, names) else {
        return Err(Fault::NoMemory);
    };
    let OpenedInMemory {
        mut files,
        images: opened,
    } = opening;
    grade_opened(
        alloc,
        &mut files,
        numbers,
        images,
        opened.as_slice(),
        first,
        lines,
        entries,
    )
}
